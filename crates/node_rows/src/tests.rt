//! Worked runs of one node.

ghost use Rattle.std.specs.Prelude.{◌≡◌, ◌<◌, IfOk};

use crate::events::{alone, apart, asks_for_b, begin};
use crate::grids::{Disks, Grid, empty, end, fused_stop, opened, run, runs, stopped};
use grid_model::{Event, Head};
use placement::Cluster;
use score_base::{Ident, Outcome};
use std::alloc::Global;
use std::test::Fail;

/// Reads a and writes b.
const UPDATE: &[u8] = b"tx 1 n1\nread a\nwrite b a + 1\nend\n";

/// Reads b.
const READ: &[u8] = b"tx 2 n1\nread b\nend\n";

/// The first whole: begun at 0, served with the version 0, taken at 0, prepared, decided and told, ended at 1,
/// closed.
const UPDATED: &[u8] = b"b0s0t0p1d1f0e1c0";

/// The second behind it: begun at 1, served with the version 1, taken at 1, told.
const HAS_READ: &[u8] = b"b1s1t1f0";

/// A compaction.
const COMPACTED: &[u8] = b"m0";

fn update_run(alloc: Global, cluster: &Cluster) -> Result<bool, Fail> {
    let grid = opened(alloc, cluster, empty(alloc, 0)?)?;
    let (grid, text) = runs(alloc, cluster, grid, begin(alloc, UPDATE, 0)?)?;
    let count = grid.count();
    end(grid);
    Ok(text.as_slice() == UPDATED && count == 4)
}

// An update alone: it reads, is prepared, decided, ended and closed, with four records.
#[test]
fn update_alone(rt: HostRuntime) -> Result<(), Fail> {
    let alloc = rt.alloc();
    let cluster = alone(alloc)?;
    assert!(rt; update_run(alloc, &cluster)?);
    Ok(())
}

/// The disks that the first transaction leaves.
fn updated(alloc: Global, cluster: &Cluster) -> Result<Disks, Fail> {
    let grid = opened(alloc, cluster, empty(alloc, 0)?)?;
    let (grid, _) = runs(alloc, cluster, grid, begin(alloc, UPDATE, 0)?)?;
    Ok(stopped(grid))
}

/// Whether the second transaction finds what the first wrote, with so many records.
fn reads(alloc: Global, cluster: &Cluster, disks: Disks, records: u64) -> Result<bool, Fail> {
    let grid = opened(alloc, cluster, disks)?;
    let (grid, text) = runs(alloc, cluster, grid, begin(alloc, READ, 0)?)?;
    let count = grid.count();
    end(grid);
    Ok(text.as_slice() == HAS_READ && count == records)
}

fn read_run(alloc: Global, cluster: &Cluster) -> Result<bool, Fail> {
    reads(alloc, cluster, updated(alloc, cluster)?, 4)
}

// A transaction that reads what the first one wrote, behind an opening.
#[test]
fn read_behind_an_opening(rt: HostRuntime) -> Result<(), Fail> {
    let alloc = rt.alloc();
    let cluster = alone(alloc)?;
    assert!(rt; read_run(alloc, &cluster)?);
    Ok(())
}

/// The disks behind a compaction, where it leaves two records of generation 1.
fn compacted(alloc: Global, cluster: &Cluster) -> Result<Disks, Fail> {
    let grid = opened(alloc, cluster, updated(alloc, cluster)?)?;
    let (grid, text) = runs(alloc, cluster, grid, Event::Compact)?;
    let small = grid.count() == 2 && grid.generation() == 1;
    let disks = stopped(grid);
    if small && text.as_slice() == COMPACTED {
        Ok(disks)
    } else {
        Err(Fail::new("not compacted"))
    }
}

fn compact_run(alloc: Global, cluster: &Cluster) -> Result<bool, Fail> {
    reads(alloc, cluster, compacted(alloc, cluster)?, 2)
}

// A compaction keeps the Prepared and the Ended, and a read behind it and an opening finds the version.
#[test]
fn read_behind_a_compaction(rt: HostRuntime) -> Result<(), Fail> {
    let alloc = rt.alloc();
    let cluster = alone(alloc)?;
    assert!(rt; compact_run(alloc, &cluster)?);
    Ok(())
}

/// What the `i`-th record of the first transaction is.
fn is_record(head: &Head, i: u64) -> bool {
    match head {
        Head::Prepared(_, p) => i == 0 && *p == Ident(1),
        Head::Decided(_, f) => i == 1 && *f == Ident(1),
        Head::Ended(_, Outcome::Commit(f)) => i == 2 && *f == Ident(1),
        Head::Closed(_) => i == 3,
        _ => false,
    }
}

/// The number of records that the disks open to.
fn count_of(alloc: Global, cluster: &Cluster, disks: Disks) -> Result<u64, Fail> {
    let grid = opened(alloc, cluster, disks)?;
    let count = grid.count();
    end(grid);
    Ok(count)
}

/// The node where the `k`-th call on its first disk fails.
fn failing(alloc: Global, cluster: &Cluster, k: u64) -> Result<Grid, Fail>
    ensures { IfOk result (λ g. g ≡ cluster.now) }
{
    opened(alloc, cluster, empty(alloc, k)?)
}

/// Whether the node stops at its `i`-th record where the call `call` of its append fails, and whether the
/// records before it are there behind a crash and an opening, and that one at most once.
fn stops_at(alloc: Global, cluster: &Cluster, i: u64, call: u64) -> Result<bool, Fail>
    requires i { i < 4 }
    requires call { call < 4 }
{
    let grid = failing(alloc, cluster, 3 + 4 * i + call)?;
    match run(alloc, cluster, grid, begin(alloc, UPDATE, 0)?)? {
        Ok((grid, _)) => {
            end(grid);
            Ok(false)
        }
        Err(halt) => {
            let named = is_record(&halt.head, i);
            let count = count_of(alloc, cluster, halt.disks)?;
            Ok(named && i <= count && count <= i + 1)
        }
    }
}

fn each_stop(alloc: Global, cluster: &Cluster) -> Result<bool, Fail> {
    for i in 0..4 {
        for call in 0..4 {
            if !stops_at(alloc, cluster, i, call)? {
                return Ok(false);
            }
        }
    }
    Ok(true)
}

// Each of the four device calls of a Prepared, a Decided, an Ended and a Closed fails: the node stops there, and
// opens again.
#[test]
fn each_call_fails(rt: HostRuntime) -> Result<(), Fail> {
    let alloc = rt.alloc();
    let cluster = alone(alloc)?;
    assert!(rt; each_stop(alloc, &cluster)?);
    Ok(())
}

/// Whether it is the Ceiling 64.
fn is_ceiling(head: &Head) -> bool {
    match head {
        Head::Ceiling(c) => *c == Ident(64),
        _ => false,
    }
}

/// The same of the Ceiling 64, on which a read at 5 rests.
fn stops_at_ceiling(alloc: Global, cluster: &Cluster, call: u64) -> Result<bool, Fail>
    requires { call < 4 }
{
    let grid = failing(alloc, cluster, 3 + call)?;
    match run(alloc, cluster, grid, asks_for_b(5))? {
        Ok((grid, _)) => {
            end(grid);
            Ok(false)
        }
        Err(halt) => {
            let named = is_ceiling(&halt.head);
            Ok(named && count_of(alloc, cluster, halt.disks)? <= 1)
        }
    }
}

fn each_ceiling_stop(alloc: Global, cluster: &Cluster) -> Result<bool, Fail> {
    for call in 0..4 {
        if !stops_at_ceiling(alloc, cluster, call)? {
            return Ok(false);
        }
    }
    Ok(true)
}

// Each device call of a Ceiling fails.
#[test]
fn each_call_of_a_ceiling_fails(rt: HostRuntime) -> Result<(), Fail> {
    let alloc = rt.alloc();
    let cluster = apart(alloc)?;
    assert!(rt; each_ceiling_stop(alloc, &cluster)?);
    Ok(())
}

fn each_fuse(alloc: Global, cluster: &Cluster) -> Result<bool, Fail> {
    for k in 1..5 {
        if !is_ceiling(&fused_stop(alloc, cluster, k, asks_for_b(5))?) {
            return Ok(false);
        }
    }
    Ok(true)
}

// A fuse stops each of the four calls.
#[test]
fn each_fuse_stops(rt: HostRuntime) -> Result<(), Fail> {
    let alloc = rt.alloc();
    let cluster = apart(alloc)?;
    assert!(rt; each_fuse(alloc, &cluster)?);
    Ok(())
}
