//! The words over a journal, compared with small runs that were worked out by hand.
//!
//! The crate has only tests. Each builds the journals that a run leaves at its nodes, record by record
//! in the order of time, and asks the plain functions of [`journal_words::records`]. What they have to
//! answer follows from the rules of a node alone, and is said in a comment beside it.
#![tactic(auto)]

#[cfg(test)]
mod answers;
#[cfg(test)]
mod journals;
#[cfg(test)]
mod tests;
