//! Pairs over disks in memory: opened, appended to, compacted.
ghost use Rattle.std.specs.Prelude.{◌≤◌, ◌<◌, IfOk};
ghost use Rattle.score_disk.specs.Files.{IsSettled, Settled};
ghost use Rattle.score_disk.specs.MemoryFile.{memory_file};
ghost use Rattle.journal_records.specs.Records.{CanEncode};

use crate::records::ceiling;
use node_journal::{Compacting, Pair};
use score_base::Record;
use score_disk::{CrashDisk, Disk, Fused, MemDisk};
use std::alloc::Global;
use std::test::Fail;

/// A disk whose file, settled, has these bytes, and whose calls of these numbers fail. The first call
/// wrote the file.
fn disk(alloc: Global, bytes: &[u8], fails: Vec<u64>) -> Result<MemDisk, Fail>
    ensures { IfOk result (λ disk. IsSettled (memory_file disk)) }
{
    let mut disk = MemDisk::new(alloc, fails);
    disk.room(bytes.len() as u64)?;
    disk.write(0, bytes)?;
    disk.crash(1);
    Ok(disk)
}

/// A disk whose file, settled, has these bytes.
pub fn disk_of(alloc: Global, bytes: &[u8]) -> Result<MemDisk, Fail>
    ensures { IfOk result (λ disk. IsSettled (memory_file disk)) }
{
    disk(alloc, bytes, Vec::new(alloc))
}

/// The same, where the `k`-th call from now on fails.
fn failing_disk(alloc: Global, bytes: &[u8], k: u64) -> Result<MemDisk, Fail>
    requires { k < 100 }
    ensures { IfOk result (λ disk. IsSettled (memory_file disk)) }
{
    let mut fails = Vec::new(alloc);
    fails.push(k + 1)?;
    disk(alloc, bytes, fails)
}

/// The pair that two disks open to, with its records.
pub fn opened<D: Disk>(alloc: Global, first: D, second: D) -> Result<(Pair<D>, Vec<Record>), Fail>
    requires first { Settled (D.tells first) (D.file first) }
    requires second { Settled (D.tells second) (D.file second) }
{
    match Pair::open(alloc, first, second) {
        Ok(opened) => Ok(opened),
        Err(_) => Err(Fail::new("no pair")),
    }
}

/// A pair whose files have these bytes.
pub fn pair_of(alloc: Global, first: &[u8], second: &[u8]) -> Result<Pair<MemDisk>, Fail> {
    let (pair, _) = opened(alloc, disk_of(alloc, first)?, disk_of(alloc, second)?)?;
    Ok(pair)
}

/// The same, where the `k`-th call on each of the two disks fails.
pub fn failing_pair(
    alloc: Global,
    first: &[u8],
    second: &[u8],
    k: u64,
) -> Result<Pair<MemDisk>, Fail>
    requires { k < 100 }
{
    let one = failing_disk(alloc, first, k)?;
    let two = failing_disk(alloc, second, k)?;
    let (pair, _) = opened(alloc, one, two)?;
    Ok(pair)
}

/// The same, where the fuses of both disks are armed with `k`.
pub fn armed_pair(
    alloc: Global,
    first: &[u8],
    second: &[u8],
    k: u64,
) -> Result<Pair<Fused<MemDisk>>, Fail>
    requires { 1 ≤ k }
{
    let one = Fused::new(disk_of(alloc, first)?);
    let two = Fused::new(disk_of(alloc, second)?);
    let (mut pair, _) = opened(alloc, one, two)?;
    pair.arm(k);
    Ok(pair)
}

/// The pair with one record more.
pub fn add<D: Disk>(pair: Pair<D>, rec: Record) -> Result<Pair<D>, Fail>
    requires { CanEncode rec }
{
    let mut pair = pair;
    pair.room()?;
    match pair.append(rec) {
        Ok((pair, kept)) => {
            let _ = kept.spend();
            Ok(pair)
        }
        Err(_) => Err(Fail::new("stopped")),
    }
}

/// Whether an append to the pair stops.
pub fn is_append_stopped<D: Disk>(pair: Pair<D>) -> Result<bool, Fail> {
    let mut pair = pair;
    pair.room()?;
    match pair.append(ceiling(64)) {
        Ok((_, kept)) => {
            let _ = kept.spend();
            Ok(false)
        }
        Err(_) => Ok(true),
    }
}

/// A compaction of the pair, done or stopped.
pub fn compaction<D: Disk>(pair: Pair<D>) -> Result<Result<Pair<D>, Compacting<D>>, Fail> {
    let mut pair = pair;
    let records = pair.small()?;
    if pair.generation() == u64::MAX {
        return Err(Fail::new("the last generation"));
    }
    pair.room_for(&records)?;
    Ok(pair.compact(&records))
}

/// The pair behind a compaction.
pub fn compacted<D: Disk>(pair: Pair<D>) -> Result<Pair<D>, Fail> {
    match compaction(pair)? {
        Ok(pair) => Ok(pair),
        Err(_) => Err(Fail::new("stopped")),
    }
}

/// The pair that the two disks open to behind a crash, with its records.
pub fn crashed<D: CrashDisk>(
    alloc: Global,
    stopped: Compacting<D>,
    how: u64,
) -> Result<(Pair<D>, Vec<Record>), Fail> {
    let Compacting {
        mut first,
        mut second,
    } = stopped;
    first.crash(how);
    second.crash(how);
    opened(alloc, first, second)
}
