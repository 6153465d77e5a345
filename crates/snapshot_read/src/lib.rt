//! Reads at a participant: one that arrives is served, held, or waits for a promise; a held read is
//! served as soon as no pending proposal holds it.
//!
//! A read asks for the version of a key at an identifier. It may be answered at or below the node's
//! floor, where the node has promised that it proposes nothing more: above it a ceiling is due first.
//! It is held where a pending proposal is at most its identifier, since that transaction may still
//! commit there, and else served with the version that the records give.
//!
//! In contracts a [`Waiting`] is the record of the held reads in the order of their arrival and of
//! `spare`, the room for more. [`Waiting::arrive`] reserves all memory. Where a ceiling is due, it
//! hands out its record and a [`CeilingDue`], which can be neither copied nor dropped: the read is
//! answered by [`CeilingDue::go`] alone, which takes the journal's receipt of that record, and
//! [`CeilingDue::down`] lets it go where the journal stopped. So no read is answered above what the
//! journal keeps as promised. `arrival` and `served_or_held` are what the calls answer, and
//! [`law_read`], [`law_read_view`] and [`law_release`] say that the outs of these answers are the rows
//! of the model, and that what the calls leave is what the next view has.
#![tactic(auto)]

mod answers;
mod dues;
mod laws;
mod waiting;

pub use answers::{Answer, Arrived, Promised, Waits};
pub use dues::CeilingDue;
pub use laws::{law_read, law_read_view, law_release};
pub use waiting::Waiting;
