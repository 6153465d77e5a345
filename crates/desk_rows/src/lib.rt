//! The home's side of worked runs, on a desk over a journal on a disk in memory.
//!
//! The crate has only tests. Each begins a script at its home, in a small cluster, hands the desk what
//! comes from other nodes, and compares what the desk gives with what the rules of a node say, as a
//! comment beside it tells.
#![tactic(auto)]

#[cfg(test)]
mod documents;
#[cfg(test)]
mod homes;
#[cfg(test)]
mod shown;
#[cfg(test)]
mod tests;
