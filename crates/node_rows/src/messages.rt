//! The node n1 of two: messages and begins that are fit or not, files that are no journal, a held read, and the
//! disk that an update leaves.

ghost use Rattle.std.specs.Prelude.{◌≡◌, IfOk};

use crate::events::{
    apart, asks_for_b, begin, fit, prepare_first, reply, rest, unfit, unfit_begin,
};
use crate::grids::{
    Disks, Grid, How, behind, disks_of, empty, gives, has_bytes, how_opened, is_heard, is_quiet,
    opened, stopped,
};
use grid_model::Event;
use placement::Cluster;
use std::alloc::Global;
use std::test::Fail;

/// Reads a, which is on n2, and writes b.
const UPDATE: &[u8] = b"tx 1 n1\nread a\nwrite b a + 1\nend\n";

/// Reads two keys of n2.
const READS: &[u8] = b"tx 1 n1\nread a\nread c\nend\n";

/// n1 where a transaction has begun and got its first reply.
fn replied(alloc: Global, cluster: &Cluster, text: &[u8]) -> Result<Grid, Fail>
    ensures { IfOk result (λ g. g ≡ cluster.now) }
{
    let grid = opened(alloc, cluster, empty(alloc, 0)?)?;
    let grid = behind(alloc, cluster, grid, begin(alloc, text, 0)?)?;
    behind(alloc, cluster, grid, reply(1, 0))
}

/// n1 where transaction 1 is collecting, and pending with the proposal 1.
fn collecting(alloc: Global, cluster: &Cluster) -> Result<Grid, Fail>
    ensures { IfOk result (λ g. g ≡ cluster.now) }
{
    let grid = replied(alloc, cluster, UPDATE)?;
    behind(alloc, cluster, grid, prepare_first(alloc)?)
}

/// Whether the event gives nothing there, and leaves the disks as they were.
fn is_quiet_there(
    alloc: Global,
    cluster: &Cluster,
    before: &Disks,
    event: Event,
) -> Result<bool, Fail> {
    let grid = collecting(alloc, cluster)?;
    is_quiet(alloc, cluster, grid, before, event)
}

fn are_quiet(alloc: Global, cluster: &Cluster) -> Result<bool, Fail> {
    let before = stopped(collecting(alloc, cluster)?);
    for i in 0..23 {
        if !is_quiet_there(alloc, cluster, &before, unfit(alloc, i)?)? {
            return Ok(false);
        }
    }
    for i in 0..3 {
        if !is_quiet_there(alloc, cluster, &before, unfit_begin(alloc, i)?)? {
            return Ok(false);
        }
    }
    Ok(true)
}

// Each breaks just one rule: it gives nothing, and not one byte of the disks changes.
#[test]
fn unfit_messages(rt: HostRuntime) -> Result<(), Fail> {
    let alloc = rt.alloc();
    let cluster = apart(alloc)?;
    assert!(rt; are_quiet(alloc, &cluster)?);
    Ok(())
}

fn are_heard(alloc: Global, cluster: &Cluster) -> Result<bool, Fail> {
    for i in 0..8 {
        let grid = collecting(alloc, cluster)?;
        if !is_heard(alloc, cluster, grid, fit(alloc, i)?)? {
            return Ok(false);
        }
    }
    Ok(true)
}

// The same messages without the fault are heard.
#[test]
fn fit_messages(rt: HostRuntime) -> Result<(), Fail> {
    let alloc = rt.alloc();
    let cluster = apart(alloc)?;
    assert!(rt; are_heard(alloc, &cluster)?);
    Ok(())
}

fn snapshot_run(alloc: Global, cluster: &Cluster) -> Result<bool, Fail> {
    let before = stopped(replied(alloc, cluster, READS)?);
    let grid = replied(alloc, cluster, READS)?;
    let other = is_quiet(alloc, cluster, grid, &before, reply(2, 5))?;
    let grid = replied(alloc, cluster, READS)?;
    Ok(other && is_heard(alloc, cluster, grid, reply(2, 0))?)
}

// A reply at another identifier than the snapshot is not taken.
#[test]
fn reply_at_another_snapshot(rt: HostRuntime) -> Result<(), Fail> {
    let alloc = rt.alloc();
    let cluster = apart(alloc)?;
    assert!(rt; snapshot_run(alloc, &cluster)?);
    Ok(())
}

/// A file whose only record is the Ceiling 2^22.
const HIGH: [u8; 14] = [1, 1, 0, 9, 3, 0, 0, 0, 0, 0, 0x40, 0, 0, 0];

fn high_run(alloc: Global, cluster: &Cluster) -> Result<bool, Fail> {
    let before = stopped(opened(alloc, cluster, disks_of(alloc, &HIGH)?)?);
    let grid = opened(alloc, cluster, disks_of(alloc, &HIGH)?)?;
    is_quiet(alloc, cluster, grid, &before, asks_for_b(0))
}

// A node whose floor is not small hears no message.
#[test]
fn floor_not_small(rt: HostRuntime) -> Result<(), Fail> {
    let alloc = rt.alloc();
    let cluster = apart(alloc)?;
    assert!(rt; high_run(alloc, &cluster)?);
    Ok(())
}

/// A file whose only record is the Closed of transaction 1.
const CLOSED: [u8; 8] = [1, 1, 0, 3, 5, 0, 1, 0];

fn is_not_journal(how: How, at: u64) -> bool {
    match how {
        How::NotJournal(place) => place == at,
        _ => false,
    }
}

fn is_strange(how: How, i: usize) -> bool {
    match how {
        How::Strange(place) => place == i,
        _ => false,
    }
}

fn is_up(how: How, count: u64) -> bool {
    match how {
        How::Up(records) => records == count,
        _ => false,
    }
}

fn how(alloc: Global, cluster: &Cluster, bytes: &[u8]) -> Result<How, Fail> {
    Ok(how_opened(alloc, cluster, disks_of(alloc, bytes)?))
}

fn files_run(alloc: Global, cluster: &Cluster) -> Result<bool, Fail> {
    Ok(
        is_strange(how(alloc, cluster, &CLOSED)?, 0)
            && is_not_journal(how(alloc, cluster, &[2, 0, 0])?, 0)
            && is_not_journal(how(alloc, cluster, &[1, 1, 0, 1, 7, 0])?, 1)
            && is_up(how(alloc, cluster, &[5])?, 0),
    )
}

// A record that does not fit, files that are no journal, and one that is made anew.
#[test]
fn files_opened(rt: HostRuntime) -> Result<(), Fail> {
    let alloc = rt.alloc();
    let cluster = apart(alloc)?;
    assert!(rt; files_run(alloc, &cluster)?);
    Ok(())
}

/// The disk of n1 behind the update: a version, the Prepared, the Decided, the Ended and the Closed of
/// transaction 1, each behind an open gate, and a closed gate.
const LEFT: [u8; 78] = [
    1, 1, 0, 0x23, 1, 0, 1, 1, 2, 1, 2, 0, 0, 0, 0, 0, 0, 0, 0, 0, 0, 0, 0, 0, 0, 0, 1, 0, 1, 1,
    0x62, 0, 0, 0, 0, 0, 0, 0, 0x0b, 1, 0, 0x0e, 4, 0, 1, 0, 0, 0, 0, 0, 0, 0, 1, 2, 1, 2, 1, 0,
    0x0c, 2, 0, 1, 1, 0, 0, 0, 0, 0, 0, 0, 1, 1, 0, 3, 5, 0, 1, 0,
];

fn leaves(alloc: Global, cluster: &Cluster) -> Result<bool, Fail> {
    let mut grid = collecting(alloc, cluster)?;
    for i in 0..5 {
        grid = behind(alloc, cluster, grid, rest(i)?)?;
    }
    Ok(has_bytes(&stopped(grid), &LEFT))
}

// An update that reads at n2 and writes at its home n1, byte for byte on the disk of n1.
#[test]
fn disk_of_an_update(rt: HostRuntime) -> Result<(), Fail> {
    let alloc = rt.alloc();
    let cluster = apart(alloc)?;
    assert!(rt; leaves(alloc, &cluster)?);
    Ok(())
}

fn held(alloc: Global, cluster: &Cluster) -> Result<bool, Fail> {
    let grid = collecting(alloc, cluster)?;
    let waits = gives(alloc, cluster, grid, asks_for_b(1), b"h1")?;
    let grid = collecting(alloc, cluster)?;
    let grid = behind(alloc, cluster, grid, asks_for_b(1))?;
    Ok(waits && gives(alloc, cluster, grid, rest(2)?, b"e1s1")?)
}

// A read at 1 is held while transaction 1 is pending at 1, and served in the step that ends it.
#[test]
fn held_read_released(rt: HostRuntime) -> Result<(), Fail> {
    let alloc = rt.alloc();
    let cluster = apart(alloc)?;
    assert!(rt; held(alloc, &cluster)?);
    Ok(())
}
