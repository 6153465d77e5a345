//! Participants over journals in memory, compared with small runs that were worked out by hand.
//!
//! The crate has only tests. Each lets a participant judge, vote, learn and settle, record by record,
//! and asks every reader of its store between. What they have to answer follows from the rules of a
//! node alone, and is said in a comment beside it.
#![tactic(auto)]

#[cfg(test)]
mod documents;
#[cfg(test)]
mod participants;
#[cfg(test)]
mod tests;
