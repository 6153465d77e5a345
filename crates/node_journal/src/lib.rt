//! The journal of a node: a gate log on any disk.
//!
//! A gate log is a version byte, then records, each behind a gate that is open, then a gate that is
//! closed. A record is put behind the closed gate and synced before the gate is opened by a write of
//! its own, so whatever a crash leaves reads as the records that stood there, alone or with the one
//! in writing. In contracts `log` is what the bytes of a file read as: its records in the order of
//! time, or the first place at fault.
//!
//! The layer above relies on three things. [`Journal::open`] gives the log of the file.
//! [`Journal::append`] leaves a settled disk whose log has the record last, or, where a device call
//! failed, a disk each of whose images has the old log, alone or with the record. And a [`Kept`] is
//! the receipt of one record that was appended so: nothing else makes one, none can be copied, and
//! each must be spent. Where a disk doesn't tell its file, the sentences on counts and on a fuse hold
//! still.
//!
//! A [`Pair`] is the journal of a node on two disks, of which one is live: the one whose file has the
//! greater generation. [`Pair::compact`] writes what a compaction keeps of the log into the other disk
//! as a file of version 2 under the next generation, and from then on that disk is the live one. It
//! clears the other disk, fills it behind its byte 0, and opens it by its version; each stage is
//! synced before the next, so whatever a crash leaves of the two files has the old log or the small
//! one. In contracts `pair_log` is what two files read as, and `list_of` the list of the pair: it keeps
//! the live log in memory, so [`Pair::small`] gives what a compaction keeps without a device call.
#![tactic(auto)]

mod compacting;
mod ends;
mod journal;
mod kept;
mod laws;
mod listing;
mod opening;
mod pair;
mod pair_opening;
mod reading;
mod spelling;
mod writing;

pub use ends::{Compacting, OpenEnd, PairEnd, PairStopped, Stopped};
pub use journal::Journal;
pub use kept::Kept;
pub use laws::{law_compaction, law_log};
pub use pair::Pair;

#[cfg(test)]
mod tests;
