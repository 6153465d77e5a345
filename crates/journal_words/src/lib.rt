//! What one list of records says: a node's journal, and nothing else.
//!
//! The words stand in `specs/Journals`, the newest record first. [`records`] has each of them as a plain
//! function over the records in the order of time, the slow twin of every faster keeper. What a
//! compaction keeps of a journal is `small` of `specs/Small`; [`law_small`] says that each word of a node
//! answers alike on it.
#![tactic(auto)]

mod laws;
pub mod records;
mod versions;

pub use laws::{law_alike, law_small};
pub use versions::Version;
