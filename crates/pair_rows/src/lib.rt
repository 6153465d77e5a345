//! A journal on two disks, compared with files and stops that were worked out by hand.
//!
//! The crate has only tests. They compact a [`node_journal::Pair`] over disks in memory, let one of the
//! device calls fail, crash both disks, and look at what the pair opens to; and they compare the files
//! byte for byte. What has to come follows from the layout of the two files and from the order of the
//! device calls alone.
#![tactic(auto)]

#[cfg(test)]
mod files;
#[cfg(test)]
mod long;
#[cfg(test)]
mod pairs;
#[cfg(test)]
mod records;
#[cfg(test)]
mod stops;
#[cfg(test)]
mod tests;
