//! Disks that may fail and may crash.
//!
//! A [`Disk`] is a file of bytes with five calls that may fail. Contracts see it as its meanings:
//! what a read gives, which places were touched since the last settled moment and the least and the
//! greatest length since then (together a `File`), whether the disk tells these (`tells`), how many
//! bytes writes may still use (`spare`), how many writes, cuts and syncs a fuse still lets go on
//! (`left`), the count of faults, and that count without a fuse's own faults (`own`).
//!
//! A [`CrashDisk`] may crash besides. A crash leaves one of the images of the file: a length that
//! the file had since the last settled moment, any bytes at touched places, and at the others what
//! a read gave. The layer above relies on what each call does to these meanings, and on no disk in
//! particular.
//!
//! [`MemDisk`] is a disk in memory whose failing calls are chosen beforehand, and [`Fused`] stops
//! another disk at a chosen call.
#![tactic(auto)]

mod cells;
mod disk;
mod fused;
mod memory;

pub use disk::{CrashDisk, Disk};
pub use fused::Fused;
pub use memory::MemDisk;

#[cfg(test)]
mod tests;
