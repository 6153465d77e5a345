//! Laws of causes: who gets the messages of a transaction, why it was aborted or lost, and what an
//! unfinished one waits for.
//!
//! Each law is a public function without parameters and with an empty body, whose contract is the law:
//! it speaks of every document and of every history of the rows and the free choices of the disks,
//! stops and restarts included, with no fuse and no count of faults. What is claimed is defined in
//! `grid_model/specs/Claims.antt`.
#![tactic(auto)]

mod claims;

pub use claims::{law_caused, law_excused, law_genuine};
