//! Each device call of a compaction fails, journals go there and back, and long ones become short.
ghost use Rattle.std.specs.Prelude.{◌≤◌};

use crate::files::{first_version, four_blocks, second_version, two_blocks, with_ceiling};
use crate::pairs::{add, armed_pair, compacted, compaction, is_append_stopped, opened, pair_of};
use crate::records::{are_alike, ceiling, ended, prepared};
use crate::stops::first_at_fault;
use node_journal::Pair;
use score_base::Record;
use score_disk::{Fused, MemDisk};
use std::alloc::Global;
use std::test::Fail;

// The other file is empty: six calls.
#[test]
fn other_is_empty(rt: HostRuntime) -> Result<(), Fail> {
    let alloc = rt.alloc();
    let live = first_version(alloc, &four_blocks(alloc)?)?;
    assert_eq!(rt; first_at_fault(alloc, &live, &[], 6)?, None);
    Ok(())
}

// The other file is of version 1: eight calls, whichever of the two disks is the live one.
#[test]
fn other_is_of_version_1(rt: HostRuntime) -> Result<(), Fail> {
    let alloc = rt.alloc();
    let older = first_version(alloc, &two_blocks(alloc)?)?;
    let live = first_version(alloc, &four_blocks(alloc)?)?;
    assert_eq!(rt; first_at_fault(alloc, &live, &older, 8)?, None);
    let live = second_version(alloc, 1, &four_blocks(alloc)?)?;
    assert_eq!(rt; first_at_fault(alloc, &older, &live, 8)?, None);
    Ok(())
}

// The other file is of version 2 and of the generation before: eight calls, whichever is the live one.
#[test]
fn other_is_of_version_2(rt: HostRuntime) -> Result<(), Fail> {
    let alloc = rt.alloc();
    let older = second_version(alloc, 1, &two_blocks(alloc)?)?;
    let live = second_version(alloc, 2, &four_blocks(alloc)?)?;
    assert_eq!(rt; first_at_fault(alloc, &live, &older, 8)?, None);
    assert_eq!(rt; first_at_fault(alloc, &older, &live, 8)?, None);
    Ok(())
}

// The other file begins with a 2 and has no generation: eight calls. It begins with a 5: six.
#[test]
fn other_is_no_journal(rt: HostRuntime) -> Result<(), Fail> {
    let alloc = rt.alloc();
    let live = first_version(alloc, &four_blocks(alloc)?)?;
    assert_eq!(rt; first_at_fault(alloc, &live, &[2, 0, 0], 8)?, None);
    assert_eq!(rt; first_at_fault(alloc, &live, &[5, 1, 2], 6)?, None);
    Ok(())
}

/// Whether the two files have these bytes.
fn are_files(pair: Pair<MemDisk>, first: &[u8], second: &[u8]) -> bool {
    let (one, two) = pair.stop();
    one.bytes() == first && two.bytes() == second
}

/// The pair that its two disks open to.
fn reopened(alloc: Global, pair: Pair<MemDisk>) -> Result<Pair<MemDisk>, Fail> {
    let (first, second) = pair.stop();
    let (pair, _) = opened(alloc, first, second)?;
    Ok(pair)
}

/// A pair of a live file of version 1 with the four records and an empty one, compacted.
fn compacted_once(alloc: Global) -> Result<Pair<MemDisk>, Fail> {
    let live = first_version(alloc, &four_blocks(alloc)?)?;
    compacted(pair_of(alloc, &live, &[])?)
}

// The second compaction writes the first disk: the same bytes of the next generation.
#[test]
fn compacted_twice(rt: HostRuntime) -> Result<(), Fail> {
    let alloc = rt.alloc();
    let pair = compacted(reopened(alloc, compacted_once(alloc)?)?)?;
    let first = second_version(alloc, 2, &two_blocks(alloc)?)?;
    let second = second_version(alloc, 1, &two_blocks(alloc)?)?;
    assert_eq!(rt; pair.generation(), 2);
    assert!(rt; are_files(pair, &first, &second));
    Ok(())
}

/// The pair of two compactions, the Ceiling 64, and a third compaction.
fn compacted_three_times(alloc: Global) -> Result<Pair<MemDisk>, Fail> {
    let pair = compacted(reopened(alloc, compacted_once(alloc)?)?)?;
    let pair = add(reopened(alloc, pair)?, ceiling(64))?;
    compacted(reopened(alloc, pair)?)
}

// There, back and there again: the live file before the last compaction stays as it was.
#[test]
fn compacted_thrice(rt: HostRuntime) -> Result<(), Fail> {
    let alloc = rt.alloc();
    let pair = compacted_three_times(alloc)?;
    let blocks = with_ceiling(alloc, &two_blocks(alloc)?)?;
    let first = second_version(alloc, 2, &blocks)?;
    let second = second_version(alloc, 3, &blocks)?;
    assert_eq!(rt; pair.generation(), 3);
    assert_eq!(rt; pair.count(), 3);
    assert!(rt; are_files(pair, &first, &second));
    Ok(())
}

/// What the compaction of the four records with the Ceiling 64 behind them keeps.
fn three_records(alloc: Global) -> Result<Vec<Record>, Fail> {
    let mut records = Vec::new(alloc);
    records.push(prepared(alloc, 1)?)?;
    records.push(ended(1))?;
    records.push(ceiling(64))?;
    Ok(records)
}

/// Whether the pair opens again to the three records.
fn keeps_three(alloc: Global, pair: Pair<MemDisk>) -> Result<bool, Fail> {
    let (first, second) = pair.stop();
    let (_, records) = opened(alloc, first, second)?;
    are_alike(alloc, &records, &three_records(alloc)?)
}

#[test]
fn three_records_left(rt: HostRuntime) -> Result<(), Fail> {
    let alloc = rt.alloc();
    assert!(rt; keeps_three(alloc, compacted_three_times(alloc)?)?);
    assert!(rt; keeps_three(alloc, migrated(alloc)?)?);
    Ok(())
}

/// A live file of version 1 with the four records, opened, with the Ceiling 64 behind them, compacted.
fn migrated(alloc: Global) -> Result<Pair<MemDisk>, Fail> {
    let live = first_version(alloc, &four_blocks(alloc)?)?;
    let pair = add(pair_of(alloc, &live, &[])?, ceiling(64))?;
    compacted(pair)
}

// The live file grows in its own version, and the compaction writes version 2 into the other.
#[test]
fn version_1_migrated(rt: HostRuntime) -> Result<(), Fail> {
    let alloc = rt.alloc();
    let pair = migrated(alloc)?;
    let first = first_version(alloc, &with_ceiling(alloc, &four_blocks(alloc)?)?)?;
    let second = second_version(alloc, 1, &with_ceiling(alloc, &two_blocks(alloc)?)?)?;
    assert_eq!(rt; pair.generation(), 1);
    assert!(rt; are_files(pair, &first, &second));
    Ok(())
}

/// The live file of version 1 with the four records and an empty one, both fuses armed, compacted.
fn compacted_armed(alloc: Global, k: u64) -> Result<Pair<Fused<MemDisk>>, Fail>
    requires { 1 ≤ k }
{
    let live = first_version(alloc, &four_blocks(alloc)?)?;
    compacted(armed_pair(alloc, &live, &[], k)?)
}

// Both fuses are armed, and each counts the calls of its own disk: six of the first compaction on the
// one, eight of the next on the other.
#[test]
fn each_fuse_counts_its_own(rt: HostRuntime) -> Result<(), Fail> {
    let alloc = rt.alloc();
    assert!(rt; is_append_stopped(compacted_armed(alloc, 7)?)?);
    assert!(rt; !is_append_stopped(compacted_armed(alloc, 11)?)?);
    assert!(rt; compaction(compacted_armed(alloc, 8)?)?.is_err());
    assert!(rt; compaction(compacted_armed(alloc, 9)?)?.is_ok());
    Ok(())
}

// Disarmed behind a compaction, neither fuse stops a call.
#[test]
fn disarmed_behind_a_compaction(rt: HostRuntime) -> Result<(), Fail> {
    let alloc = rt.alloc();
    let mut pair = compacted_armed(alloc, 7)?;
    pair.disarm();
    let pair = compacted(add(pair, ceiling(64))?)?;
    assert_eq!(rt; pair.generation(), 2);
    assert_eq!(rt; pair.count(), 3);
    Ok(())
}
