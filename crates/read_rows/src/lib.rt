//! Reads at one node, whose journal is on a disk in memory, compared with runs that were worked out by
//! hand.
//!
//! The crate has only tests. Each hands records and read requests to a node's journal, store and held
//! reads, and compares what the calls answer. What they have to answer follows from the rules of a node
//! alone, and is said in a comment beside it.
#![tactic(auto)]

#[cfg(test)]
mod documents;
#[cfg(test)]
mod servers;
#[cfg(test)]
mod tests;
