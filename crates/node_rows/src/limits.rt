//! A Prepare at its limits: 32 keys in a list and 16 parts are voted on, and one more is not fit.

use crate::events::{crowd, n1, t1};
use crate::grids::{empty, is_quiet, is_voted_on, opened, stopped};
use grid_model::{Event, Message, Prepare};
use placement::Cluster;
use score_base::{Ident, Key, KeyList, NodeId, NodeList, Value, WriteList};
use std::alloc::Global;
use std::test::Fail;

/// The key `k` and a number of two digits.
fn key(i: u8) -> Result<Key, Fail> {
    match Key::new(&[b'k', b'0' + i / 10 % 10, b'0' + i % 10]) {
        Some(key) => Ok(key),
        None => Err(Fail::new("no key")),
    }
}

/// This many keys, each once.
fn keys(alloc: Global, count: u8) -> Result<KeyList, Fail> {
    let mut keys = KeyList::new(alloc);
    for i in 0..count {
        keys.push(key(i)?)?;
    }
    Ok(keys)
}

/// The same keys, each written with 1.
fn writes(alloc: Global, count: u8) -> Result<WriteList, Fail> {
    let mut writes = WriteList::new(alloc);
    for i in 0..count {
        writes.push((key(i)?, Value(1)))?;
    }
    Ok(writes)
}

fn node(number: u64) -> Result<NodeId, Fail> {
    match NodeId::new(number) {
        Some(node) => Ok(node),
        None => Err(Fail::new("no node")),
    }
}

/// This many parts, from n1 on; behind n16 it stands again.
fn parts(alloc: Global, count: u64) -> Result<NodeList, Fail> {
    let mut parts = NodeList::new(alloc);
    for i in 0..count {
        parts.push(node((i + 1).min(16))?)?;
    }
    Ok(parts)
}

/// n1 asks itself to prepare transaction 1, with this many parts, read keys and written keys.
fn prepare(alloc: Global, part_count: u64, read_count: u8, write_count: u8) -> Result<Event, Fail> {
    let q = Prepare {
        t: t1(),
        sid: Ident(0),
        parts: parts(alloc, part_count)?,
        reads: keys(alloc, read_count)?,
        writes: writes(alloc, write_count)?,
    };
    Ok(Event::Deliver(n1(), Message::Prepare(q)))
}

/// Whether a Prepare of so many is voted on with a yes.
fn is_voted(alloc: Global, cluster: &Cluster, event: Event) -> Result<bool, Fail> {
    let grid = opened(alloc, cluster, empty(alloc, 0)?)?;
    is_voted_on(alloc, cluster, grid, event)
}

/// Whether a Prepare of so many gives nothing, and leaves each byte of the disks.
fn is_unfit(alloc: Global, cluster: &Cluster, event: Event) -> Result<bool, Fail> {
    let before = stopped(opened(alloc, cluster, empty(alloc, 0)?)?);
    let grid = opened(alloc, cluster, empty(alloc, 0)?)?;
    is_quiet(alloc, cluster, grid, &before, event)
}

fn reads_run(alloc: Global, cluster: &Cluster) -> Result<bool, Fail> {
    Ok(
        is_voted(alloc, cluster, prepare(alloc, 1, 32, 0)?)?
            && is_unfit(alloc, cluster, prepare(alloc, 1, 33, 0)?)?,
    )
}

// 32 keys are read, and 33.
#[test]
fn keys_that_are_read(rt: HostRuntime) -> Result<(), Fail> {
    let alloc = rt.alloc();
    let cluster = crowd(alloc)?;
    assert!(rt; reads_run(alloc, &cluster)?);
    Ok(())
}

fn writes_run(alloc: Global, cluster: &Cluster) -> Result<bool, Fail> {
    Ok(
        is_voted(alloc, cluster, prepare(alloc, 1, 0, 32)?)?
            && is_unfit(alloc, cluster, prepare(alloc, 1, 0, 33)?)?,
    )
}

// 32 keys are written, and 33.
#[test]
fn keys_that_are_written(rt: HostRuntime) -> Result<(), Fail> {
    let alloc = rt.alloc();
    let cluster = crowd(alloc)?;
    assert!(rt; writes_run(alloc, &cluster)?);
    Ok(())
}

fn parts_run(alloc: Global, cluster: &Cluster) -> Result<bool, Fail> {
    Ok(
        is_voted(alloc, cluster, prepare(alloc, 16, 1, 1)?)?
            && is_unfit(alloc, cluster, prepare(alloc, 17, 1, 1)?)?,
    )
}

// 16 parts, and 17, of which n16 is two, since no 17 nodes rise.
#[test]
fn parts_of_a_transaction(rt: HostRuntime) -> Result<(), Fail> {
    let alloc = rt.alloc();
    let cluster = crowd(alloc)?;
    assert!(rt; parts_run(alloc, &cluster)?);
    Ok(())
}

fn largest_run(alloc: Global, cluster: &Cluster) -> Result<bool, Fail> {
    is_voted(alloc, cluster, prepare(alloc, 16, 32, 32)?)
}

// The largest Prepare: 16 parts, 32 keys that are read, and the same keys written.
#[test]
fn largest_prepare(rt: HostRuntime) -> Result<(), Fail> {
    let alloc = rt.alloc();
    let cluster = crowd(alloc)?;
    assert!(rt; largest_run(alloc, &cluster)?);
    Ok(())
}
