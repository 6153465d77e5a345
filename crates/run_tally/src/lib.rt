//! The tally of a run: what its summary needs of the acts so far, and no act.
//!
//! `specs/Tallies.antt` says what a tally has and how an act changes it (`TallyStart`, `TallyStep`),
//! `specs/Texts.antt` what its text is (`TallyText`). [`Tally`] does exactly this: [`Tally::take`] takes an
//! act, and [`Tally::write`] appends the text. [`law_tally`] says that for the first acts of every run the
//! text is the summary that `write_summary` of `history_print` appends.
#![tactic(auto)]

mod laws;
mod nodes;
mod noted;
mod phases;
mod tallies;
mod text;
mod txs;

pub use laws::{law_tally, law_tally_phases};
pub use nodes::NodeTally;
pub use noted::Noted;
pub use tallies::Tally;
pub use txs::TxTally;
