//! What a pair opens to behind a compaction that stops.
ghost use Rattle.std.specs.Prelude.{◌≤◌, ◌<◌};

use crate::pairs::{armed_pair, compaction, crashed, failing_pair};
use crate::records::{are_alike, four_records, two_records};
use node_journal::Pair;
use score_base::Record;
use score_disk::CrashDisk;
use std::alloc::Global;
use std::test::Fail;

/// What is left of a live file with the four records.
#[derive(Clone, Copy, PartialEq, Eq, Debug)]
pub enum Left {
    /// The compaction went on.
    Done,
    /// The four records, of the generation before.
    Old,
    /// The two that a compaction keeps, of the generation behind it.
    Small,
    /// Anything else.
    Neither,
}

/// Which of the two lists the pair opened to, where its generation was `before`.
fn list_of(alloc: Global, records: &[Record], generation: u64, before: u64) -> Result<Left, Fail> {
    if generation == before && are_alike(alloc, records, &four_records(alloc)?)? {
        return Ok(Left::Old);
    }
    if generation > before
        && generation - before == 1
        && are_alike(alloc, records, &two_records(alloc)?)?
    {
        return Ok(Left::Small);
    }
    Ok(Left::Neither)
}

/// What a compaction of the pair leaves, where both disks crash with `how` behind a stop.
pub fn left_of<D: CrashDisk>(alloc: Global, pair: Pair<D>, how: u64) -> Result<Left, Fail> {
    let before = pair.generation();
    match compaction(pair)? {
        Ok(_) => Ok(Left::Done),
        Err(stopped) => {
            let (pair, records) = crashed(alloc, stopped, how)?;
            list_of(alloc, &records, pair.generation(), before)
        }
    }
}

/// What has to be left of a compaction of so many device calls that stops at the `k`-th: the old list,
/// until the version 2 was written and the crash leaves that 2. It does where it leaves what was written
/// last (1) or a 2 at each place that was touched (8), and not where it leaves what was synced last (0),
/// a 0 (2) or a 1 (5).
fn due(calls: u64, k: u64, how: u64) -> Left
    requires { 1 ≤ calls }
{
    if k > calls {
        Left::Done
    } else if k >= calls - 1 && (how == 1 || how == 8) {
        Left::Small
    } else {
        Left::Old
    }
}

/// Whether it is left, of a stop by the disk itself and of one by a fuse.
fn is_due(
    alloc: Global,
    first: &[u8],
    second: &[u8],
    calls: u64,
    k: u64,
    how: u64,
) -> Result<bool, Fail>
    requires calls { 1 ≤ calls }
    requires least { 1 ≤ k }
    requires most { k < 100 }
{
    let due = due(calls, k, how);
    let failing = left_of(alloc, failing_pair(alloc, first, second, k)?, how)?;
    let armed = left_of(alloc, armed_pair(alloc, first, second, k)?, how)?;
    Ok(failing == due && armed == due)
}

/// Whether it is left at each crash.
fn is_due_at(alloc: Global, first: &[u8], second: &[u8], calls: u64, k: u64) -> Result<bool, Fail>
    requires calls { 1 ≤ calls }
    requires least { 1 ≤ k }
    requires most { k < 100 }
{
    for how in [0, 1, 2, 5, 8] {
        if !is_due(alloc, first, second, calls, k, how)? {
            return Ok(false);
        }
    }
    Ok(true)
}

/// The first call at which it isn't, of a compaction of so many device calls; none where it is at each,
/// and behind the last the compaction goes on.
pub fn first_at_fault(
    alloc: Global,
    first: &[u8],
    second: &[u8],
    calls: u64,
) -> Result<Option<u64>, Fail>
    requires least { 1 ≤ calls }
    requires most { calls < 90 }
{
    for k in 1..calls + 2 {
        if !is_due_at(alloc, first, second, calls, k)? {
            return Ok(Some(k));
        }
    }
    Ok(None)
}
