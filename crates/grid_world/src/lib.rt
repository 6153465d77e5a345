//! A world of nodes plays the events of a document, one by one.
//!
//! A [`World`] runs a node over two disks for each node of a document, with the messages that are under way and a
//! tally of the acts so far; it keeps no act. [`World::play`] gives the acts of one event, and moves on.
#![tactic(auto)]

mod openings;
mod replays;
mod rows;
mod runs;
mod told;
mod worlds;

pub use replays::replay;
pub use worlds::World;
