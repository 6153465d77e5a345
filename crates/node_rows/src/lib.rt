//! A node over two disks in memory, compared with small runs that were worked out by hand.
//!
//! The crate has only tests. A grid of one node plays an event and then every message that comes of it, in
//! order, until none is left; the acts are compared line by line with the rules of a node. A node of two is
//! given messages that are not fit, each of which breaks just one rule, and device calls that fail; then the
//! disks are compared, or opened again. A Prepare comes at its limits, and what a node gives is sent over a
//! link that is a list.
#![tactic(auto)]

#[cfg(test)]
mod events;
#[cfg(test)]
mod grids;
#[cfg(test)]
mod limits;
#[cfg(test)]
mod messages;
#[cfg(test)]
mod posts;
#[cfg(test)]
mod tests;
