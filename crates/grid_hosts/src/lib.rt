//! A node of a run, up or down, with the two disks under it.
//!
//! A [`Host`] is what a run keeps of a node: the node itself where it is up, else its two disks as a crash
//! left them and what was known when it went down. A step of a node that fails leaves the host down, its
//! disks crashed; an opening leaves it up, and says whether what was in doubt was found, or down, its disks
//! crashed again. What each call leaves is defined in `specs/Hosts.antt`, over the steps and the openings of
//! `node_core`.
#![tactic(auto)]

mod falls;
mod hosts;
mod openings;
mod steps;

pub use falls::Fall;
pub use hosts::{Host, Place};
pub use openings::Restarted;
pub use steps::Ran;
