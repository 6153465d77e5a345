//! A participant that is told how a transaction ended.
//!
//! [`learn`] says what an end asks of a store: an end is due where the transaction is pending here; a
//! commit that ended here before is acknowledged again; all else is ignored. Where an end is due, its
//! record is handed out with an [`EndDue`], which can be neither copied nor dropped.
//! [`EndDue::settle`] takes the record in, against the journal's receipt of it, and says to whom a
//! commit is acknowledged. So no acknowledgement leaves a node that did not keep the end. Keys are
//! freed by the store: those of an abort at once, those of a commit where it is applied.
//!
//! In contracts the answers are said by the words of `journal_words` over the store's records, and
//! `learn_outs` is what they make of the row of the rule table, without the held reads that an end
//! frees.
#![tactic(auto)]

mod dues;
mod laws;
mod learning;

pub use dues::EndDue;
pub use laws::law_end;
pub use learning::{Learnt, learn};
