//! How a call on a journal or a pair ends early, and what it gives back.
use score_base::Record;

/// How an opening ends without a journal; the disk is given back.
#[derive(Drop)]
pub enum OpenEnd<D> {
    /// A device call failed.
    Failed(D),
    /// The file isn't a gate log; the place is the first at fault.
    NotJournal(D, u64),
    /// Want of memory.
    Memory(D),
}

/// An append that was stopped: the disk and the record are given back. Only opening the disk again
/// tells whether the record was kept.
#[derive(Drop)]
pub struct Stopped<D> {
    pub disk: D,
    pub rec: Record,
}

/// How an opening ends without a pair; both disks are given back.
#[derive(Drop)]
pub enum PairEnd<D> {
    /// A device call failed.
    Failed(D, D),
    /// The live file isn't a gate log; the place is the first at fault.
    NotJournal(D, D, u64),
    /// Want of memory.
    Memory(D, D),
}

/// A compaction that was stopped: both disks are given back.
#[derive(Drop)]
pub struct Compacting<D> {
    pub first: D,
    pub second: D,
}

/// An append that was stopped: both disks and the record are given back. Only opening the pair again
/// tells whether the record was kept.
#[derive(Drop)]
pub struct PairStopped<D> {
    pub first: D,
    pub second: D,
    pub rec: Record,
}
