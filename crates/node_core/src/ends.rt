//! How an opening and a step of a node end.

use crate::nodes::Node;
use grid_model::{Head, Out};
use score_disk::Disk;

/// How an opening ends; without a node both disks are given back.
#[derive(Drop)]
pub enum Opened<D: Disk> {
    /// The node is up.
    Up(Node<D>),
    /// A device call failed.
    Failed(D, D),
    /// The live file isn't a gate log; the place is the first at fault.
    NotJournal(D, D, u64),
    /// The record at this place is the first that does not fit those before it.
    Strange(D, D, usize),
    /// Want of memory.
    Memory(D, D),
}

/// How a step ends.
#[derive(Drop)]
pub enum Stepped<D: Disk> {
    /// The node goes on, and gives these.
    Done(Node<D>, Vec<Out>),
    /// A device call failed while this was written: the node is gone, and its disks are given back.
    Down(D, D, Head),
    /// Want of memory; the node is as before.
    Memory(Node<D>),
}
