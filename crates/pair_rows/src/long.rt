//! A long journal of which little is kept.
//!
//! It has a thousand turns and then one Decided that stays open. Each of the first 941 turns has a
//! Ceiling, each 34th a Prepared and an Ended, and each a Decided and its Closed: 3,000 records. A
//! compaction keeps the last Ceiling, the 29 Prepared with their Ended, and the open Decided.
ghost use Rattle.std.specs.Prelude.{◌≤◌};

use crate::files::{
    CLOSED_BLOCK, DECIDED_BLOCK, ENDED_BLOCK, PREPARED_BLOCK, first_version, put_block,
    put_ceiling, second_version,
};
use crate::pairs::{compacted, opened, pair_of};
use crate::records::{are_alike, ceiling, decided, ended, prepared};
use score_base::{Record, push};
use std::alloc::Global;
use std::test::Fail;

/// How many of the turns have a Ceiling.
const CEILINGS: u16 = 941;

/// Each such turn has a Prepared and an Ended.
const UPDATES: u16 = 34;

/// The decision that stays open is of this transaction.
const OPEN: u16 = 1001;

/// Puts a Prepared and an Ended in each 34th turn.
fn put_update(bytes: &mut Vec<u8>, t: u16) -> Result<(), Fail> {
    if t % UPDATES == 0 {
        put_block(bytes, &PREPARED_BLOCK, t)?;
        put_block(bytes, &ENDED_BLOCK, t)?;
    }
    Ok(())
}

/// Puts the records of a turn.
fn put_turn(bytes: &mut Vec<u8>, t: u16) -> Result<(), Fail> {
    if t <= CEILINGS {
        put_ceiling(bytes, 64 * t as u64)?;
    }
    put_update(bytes, t)?;
    put_block(bytes, &DECIDED_BLOCK, t)?;
    put_block(bytes, &CLOSED_BLOCK, t)
}

/// The blocks of the journal.
fn long_blocks(alloc: Global) -> Result<Vec<u8>, Fail> {
    let mut bytes = Vec::new(alloc);
    for t in 1..1001 {
        put_turn(&mut bytes, t)?;
    }
    put_block(&mut bytes, &DECIDED_BLOCK, OPEN)?;
    Ok(bytes)
}

/// Puts what a compaction keeps of a turn.
fn put_kept(bytes: &mut Vec<u8>, t: u16) -> Result<(), Fail> {
    if t == CEILINGS {
        put_ceiling(bytes, 64 * t as u64)?;
    }
    put_update(bytes, t)
}

/// The blocks that a compaction keeps of the journal.
fn kept_blocks(alloc: Global) -> Result<Vec<u8>, Fail> {
    let mut bytes = Vec::new(alloc);
    for t in 1..1001 {
        put_kept(&mut bytes, t)?;
    }
    put_block(&mut bytes, &DECIDED_BLOCK, OPEN)?;
    Ok(bytes)
}

#[test]
fn long_journal_bytes(rt: HostRuntime) -> Result<(), Fail> {
    let alloc = rt.alloc();
    let long = first_version(alloc, &long_blocks(alloc)?)?;
    let short = second_version(alloc, 1, &kept_blocks(alloc)?)?;
    let pair = pair_of(alloc, &long, &[])?;
    assert_eq!(rt; pair.count(), 3000);
    let pair = compacted(pair)?;
    assert_eq!(rt; pair.count(), 60);
    let (first, second) = pair.stop();
    assert!(rt; first.bytes() == long.as_slice());
    assert!(rt; second.bytes() == short.as_slice());
    Ok(())
}

/// Pushes what a compaction keeps of a turn.
fn push_kept(alloc: Global, records: &mut Vec<Record>, t: u16) -> Result<(), Fail>
    requires { 1 ≤ t }
{
    if t == CEILINGS {
        push(records, ceiling(64 * t as u64))?;
    }
    if t % UPDATES == 0 {
        push(records, prepared(alloc, t)?)?;
        push(records, ended(t))?;
    }
    Ok(())
}

/// The records that a compaction keeps of the journal.
fn sixty_records(alloc: Global) -> Result<Vec<Record>, Fail> {
    let mut records = Vec::new(alloc);
    for t in 1..1001 {
        push_kept(alloc, &mut records, t)?;
    }
    push(&mut records, decided(alloc, OPEN)?)?;
    Ok(records)
}

#[test]
fn sixty_of_three_thousand(rt: HostRuntime) -> Result<(), Fail> {
    let alloc = rt.alloc();
    let long = first_version(alloc, &long_blocks(alloc)?)?;
    let (first, second) = compacted(pair_of(alloc, &long, &[])?)?.stop();
    let (_, records) = opened(alloc, first, second)?;
    assert_eq!(rt; records.len(), 60);
    assert!(rt; are_alike(alloc, &records, &sixty_records(alloc)?)?);
    Ok(())
}
