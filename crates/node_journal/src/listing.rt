//! The live log of a pair in memory: read, and made longer by a record.
ghost use Rattle.std.specs.Prelude.{◌≡◌, ◌-◌, ◌+◌, ◌<◌, ◌≤◌, ◌++◌, ◌∷◌, List, take, length, vec_len, vec_capacity, IfOk, All};
ghost use Rattle.journal_records.specs.Records.{IsRecord};
ghost use Rattle.node_journal.specs.Pairs.{IsListed, listed_in};

use crate::reading::{Gate, ReadEnd, gate_in};
use score_base::{Memory, Record, push};
use std::alloc::Global;

/// Where the first gate stands, behind the version of the file.
const FIRST_GATE: usize = 8;

/// The records of a log in memory, given behind its version.
pub(crate) fn records_in(alloc: Global, bytes: &[u8]) -> Result<Vec<Record>, Memory>
    requires { IsListed bytes.now }
    ensures list { IfOk result (λ records. records.items ≡ listed_in bytes.now) }
    ensures fit { IfOk result (λ records. All IsRecord records.items) }
{
    let mut records = Vec::new(alloc);
    let mut at = FIRST_GATE;
    'gates: loop {
        match gate_in(alloc, &bytes[at..], 0) {
            Ok(Gate::Closed) => return Ok(records),
            Ok(Gate::Open(record, size)) => match push(&mut records, record) {
                Ok(()) => at += 1 + size as usize,
                Err(_) => return Err(Memory),
            },
            Err(ReadEnd::Memory) => return Err(Memory),
            Err(ReadEnd::Bad(_)) => unreachable!(),
            Err(ReadEnd::Failed) => unreachable!(),
        }
    }
}

/// Opens the closed gate at the end, and puts a frame behind it. It takes no memory.
pub(crate) fn put_listed(bytes: &mut Vec<u8>, frame: &[u8])
    requires some { 0 < length bytes.old.items }
    requires room { vec_len bytes.old + length frame.now ≤ vec_capacity bytes.old }
    ensures { bytes.new.items ≡ take (length bytes.old.items - 1) bytes.old.items ++ 1 ∷ frame.now }
{
    let last = bytes.len() - 1;
    bytes.truncate(last);
    bytes.push(1).unwrap();
    bytes.extend_from_slice(frame).unwrap();
}
