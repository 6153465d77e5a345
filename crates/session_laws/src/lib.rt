//! The law of sessions: the serial order keeps the order of each session.
//!
//! The law is a public function without parameters and with an empty body, whose contract is the law: it
//! speaks of every document and of every history of the rows and the free choices of the disks, stops and
//! restarts included, with no fuse and no count of faults. What is claimed is defined in
//! `grid_model/specs/Sessions.antt`.
#![tactic(auto)]

mod sessions;

pub use sessions::law_sessions;
