//! Laws of one serial copy: what the transactions of every run were shown, and what the journals keep of
//! the commits that were acknowledged.
//!
//! Each law is a public function without parameters and with an empty body, whose contract is the law:
//! it speaks of every document and of every history of the rows and the free choices of the disks,
//! stops and restarts included, with no fuse and no count of faults. What is claimed is defined in
//! `grid_model/specs/Copies.antt` and `grid_model/specs/Claims.antt`.
#![tactic(auto)]

mod copies;

pub use copies::{law_atomic, law_kept, law_one_copy};
