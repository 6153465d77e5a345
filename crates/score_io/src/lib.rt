//! Sources and sinks of bytes that count their faults, and whole reads and writes.
//!
//! A [`Source`] has bytes left and a [`Sink`] holds bytes; of one that does not tell them, as a terminal
//! or a pipe, clauses on bytes say nothing. What is told stays told. Either has a count of faults that
//! never falls, and a call answers a fault only where the count rose in that call: so an answer of
//! fault can be checked against the object that was handed in.
//!
//! The layer above may rely on [`read_all`], which gives all bytes to the end, and on [`write_all`],
//! which appends all.
#![tactic(auto)]

mod in_memory;
mod standard;
mod traits;
mod whole;

pub use in_memory::{MemSink, MemSource};
pub use standard::{StdSink, StdSource};
pub use traits::{Sink, Source};
pub use whole::{ReadEnd, WriteFault, law_whole_input, read_all, write_all};

#[cfg(test)]
mod tests;
