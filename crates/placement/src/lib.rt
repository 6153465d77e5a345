//! Where keys live: partitions, their nodes, the holders of a key, the parts of a transaction.
//!
//! In contracts a [`Places`] is the list of its partitions' node lists, and a [`Cluster`] the record
//! `ClusterData` of its parts. That they are well formed is the invariant of the types.
#![tactic(auto)]

mod clusters;
#[cfg(test)]
mod tests;

pub use clusters::{Cluster, Places};
