//! The disks of a run: those in memory, and the fuse that is put at each and taken off again.
ghost use Rattle.std.specs.Prelude.{◌≡◌, ◌≤◌, [], length, map, IfOk, OnOk, vec_capacity};
ghost use Rattle.score_cli.specs.Disks.{AreBlank};
ghost use Rattle.score_cli.specs.Fuses.{fused, unfused};

use core::mem::replace;
use score_base::{Memory, push};
use score_disk::{CrashDisk, Disk, Fused, MemDisk};
use std::alloc::Global;

/// So many disks has a run: two for each of 16 nodes.
const DISKS: usize = 32;

/// The disks of a run, in memory. None of their calls fails.
pub fn memory_disks(alloc: Global) -> Result<Vec<MemDisk>, Memory>
    ensures { IfOk result (λ disks. AreBlank ⟦<MemDisk as Disk>⟧ disks.items) }
{
    let mut disks = Vec::new(alloc);
    for _ in 0..DISKS {
        push(&mut disks, MemDisk::new(alloc, Vec::new(alloc)))?;
    }
    Ok(disks)
}

/// Puts a fuse at each disk. All are taken away, and there is room to give them back.
pub fn fuse_all<D: CrashDisk>(alloc: Global, disks: &mut Vec<D>) -> Result<Vec<Fused<D>>, Memory>
    ensures fused { IfOk result (λ all. all.items ≡ map fused disks.old.items) }
    ensures none { OnOk result (disks.new.items ≡ []) }
    ensures room { OnOk result (length disks.old.items ≤ vec_capacity disks.new) }
{
    let mut all = Vec::new(alloc);
    all.reserve(disks.len())?;
    let mut room = Vec::new(alloc);
    room.reserve(disks.len())?;
    for disk in replace(disks, room) {
        all.push_reserved(Fused::new(disk));
    }
    Ok(all)
}

/// Gives the disks back without their fuses. It takes no memory.
pub fn give_back<D: CrashDisk>(all: Vec<Fused<D>>, disks: &mut Vec<D>)
    requires none { disks.old.items ≡ [] }
    requires room { length all.items ≤ vec_capacity disks.old }
    ensures { disks.new.items ≡ map unfused all.items }
{
    for disk in all {
        disks.push_reserved(disk.into_disk());
    }
}
