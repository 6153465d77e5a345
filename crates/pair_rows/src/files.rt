//! Files of journals, byte for byte.
ghost use Rattle.std.specs.Prelude.{◌≤◌, length};

use std::alloc::Global;
use std::test::Fail;

/// An open gate, and the Prepared of transaction 1 behind it.
pub const PREPARED_BLOCK: [u8; 38] = [
    1, 0, 0x23, 1, 0, 1, 1, 2, 1, 2, 0, 0, 0, 0, 0, 0, 0, 0, 0, 0, 0, 0, 0, 0, 0, 1, 0, 1, 1, 0x62,
    0, 0, 0, 0, 0, 0, 0, 0x0b,
];

/// An open gate, and the Decided of transaction 1 behind it.
pub const DECIDED_BLOCK: [u8; 17] = [1, 0, 0x0e, 4, 0, 1, 0, 0, 0, 0, 0, 0, 0, 1, 2, 1, 2];

/// An open gate, and the Ended of transaction 1 behind it.
pub const ENDED_BLOCK: [u8; 15] = [1, 0, 0x0c, 2, 0, 1, 1, 0, 0, 0, 0, 0, 0, 0, 1];

/// An open gate, and the Closed of transaction 1 behind it.
pub const CLOSED_BLOCK: [u8; 6] = [1, 0, 3, 5, 0, 1];

/// An open gate, and the Ceiling 64 behind it.
pub const CEILING_BLOCK: [u8; 12] = [1, 0, 9, 3, 0, 0, 0, 0, 0, 0, 0, 0x40];

/// Puts the block of the same record, of transaction `t` in place of 1, behind the bytes.
pub fn put_block(bytes: &mut Vec<u8>, block: &[u8], t: u16) -> Result<(), Fail>
    requires { 6 ≤ length block.now }
{
    bytes.extend_from_slice(&block[..4])?;
    bytes.extend_from_slice(&t.to_be_bytes())?;
    bytes.extend_from_slice(&block[6..])?;
    Ok(())
}

/// Puts an open gate and the Ceiling behind the bytes.
pub fn put_ceiling(bytes: &mut Vec<u8>, c: u64) -> Result<(), Fail> {
    bytes.extend_from_slice(&CEILING_BLOCK[..4])?;
    bytes.extend_from_slice(&c.to_be_bytes())?;
    Ok(())
}

/// The pieces one behind the other.
fn joined(alloc: Global, pieces: &[&[u8]]) -> Result<Vec<u8>, Fail> {
    let mut bytes = Vec::new(alloc);
    for piece in pieces {
        bytes.extend_from_slice(piece)?;
    }
    Ok(bytes)
}

/// The blocks of a Prepared, a Decided, an Ended and a Closed of transaction 1.
pub fn four_blocks(alloc: Global) -> Result<Vec<u8>, Fail> {
    joined(
        alloc,
        &[&PREPARED_BLOCK, &DECIDED_BLOCK, &ENDED_BLOCK, &CLOSED_BLOCK],
    )
}

/// The blocks that a compaction keeps of the four.
pub fn two_blocks(alloc: Global) -> Result<Vec<u8>, Fail> {
    joined(alloc, &[&PREPARED_BLOCK, &ENDED_BLOCK])
}

/// The blocks with that of the Ceiling 64 behind them.
pub fn with_ceiling(alloc: Global, blocks: &[u8]) -> Result<Vec<u8>, Fail> {
    joined(alloc, &[blocks, &CEILING_BLOCK])
}

/// A file of version 1: the blocks and a closed gate.
pub fn first_version(alloc: Global, blocks: &[u8]) -> Result<Vec<u8>, Fail> {
    joined(alloc, &[&[1], blocks, &[0]])
}

/// A file of version 2: the generation, the blocks and a closed gate.
pub fn second_version(alloc: Global, generation: u8, blocks: &[u8]) -> Result<Vec<u8>, Fail> {
    joined(
        alloc,
        &[&[2, 0, 0, 0, 0, 0, 0, 0, generation], blocks, &[0]],
    )
}
