//! The command: from words and the bytes that come in to the bytes that go out.
//!
//! [`score`] is what the program calls, and its contract is what the product promises. Every answer has
//! its cause in a clause of its own: the words, the bytes that came, or a count of faults that rose.
//! Want of memory alone is free.
#![tactic(auto)]

mod disks;
mod headline;
mod lines;
mod status;

pub use disks::memory_disks;
pub use headline::law_headline;
pub use status::{Status, score};
