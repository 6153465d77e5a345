//! How the bytes of a log are read, gate by gate.
ghost use Rattle.std.specs.Prelude.{◌≡◌, ◌≢◌, ℕ, ◌+◌, ◌-◌, ◌<◌, ◌≤◌, Some, None, Ok, Err, length, drop, slice_index, IsTrue, IfOk, IfErr, IfSome, All, if◌then◌else◌};
ghost use Rattle.journal_records.specs.Records.{IsRecord};
ghost use Rattle.score_disk.specs.Counts.{Counted};
ghost use Rattle.node_journal.specs.Log.{body_length, has_body, block_at, log, IsLog, HasGateAt};
ghost use Rattle.node_journal.specs.Gates.{IsGate, HoldsRecord, IsNextWithin, IsFault, IfBad, calls_of};

use journal_records::decode;
use score_base::{Memory, Record, push};
use score_disk::Disk;
use std::alloc::Global;

/// A gate, with the two bytes of length, the longest body and a next gate behind it.
const LONGEST: u64 = 4100;

/// The longest body of a record.
const LONGEST_BODY: usize = 4096;

/// What stands at a gate.
#[derive(Drop)]
pub(crate) enum Gate {
    /// The end of the log.
    Closed,
    /// A record, and the number of bytes from behind this gate up to the next.
    Open(Record, u64),
}

/// How a reading ends early.
#[derive(Clone, Copy)]
pub(crate) enum ReadEnd {
    Failed,
    /// The first place at fault.
    Bad(u64),
    Memory,
}

/// The length of the body behind an open gate, where a block stands there.
#[tactic(auto, unfolding(crate::specs::Log::body_length))]
fn body_len(bytes: &[u8]) -> Option<usize>
    ensures { result ≡ (if has_body bytes.now then Some (body_length bytes.now) else None) }
{
    match bytes {
        [high, low, rest @ ..] => {
            let n = u16::from_be_bytes([*high, *low]) as usize;
            if n >= 1 && n <= LONGEST_BODY && n < rest.len() {
                Some(n)
            } else {
                None
            }
        }
        _ => None,
    }
}

/// The record behind an open gate, and the number of bytes up to the next gate; `None` where no
/// block of a record stands there.
#[tactic(auto, unfolding(crate::specs::Log::block_at))]
fn block(alloc: Global, bytes: &[u8]) -> Result<Option<(Record, u64)>, Memory>
    ensures found { IfOk result (λ found. found ≡ block_at bytes.now) }
    ensures inside { IfOk result (λ found. IfSome found (λ block. block.1 < length bytes.now)) }
    ensures fit { IfOk result (λ found. IfSome found (λ block. IsRecord block.0)) }
{
    match body_len(bytes) {
        None => Ok(None),
        Some(n) => match decode(alloc, &bytes[2..2 + n])? {
            None => Ok(None),
            Some(record) => Ok(Some((record, n as u64 + 2))),
        },
    }
}

/// The gate at the first of these bytes.
pub(crate) fn gate_in(alloc: Global, bytes: &[u8], place: u64) -> Result<Gate, ReadEnd>
    requires { 0 < length bytes.now }
    ensures ok { IfOk result (λ gate. IsGate bytes.now gate) }
    ensures next { IfOk result (λ gate. IsNextWithin gate (length bytes.now)) }
    ensures fit { IfOk result HoldsRecord }
    ensures bad { IfErr result (λ end. IfBad end (λ at. (at ≡ place) × IsFault bytes.now)) }
    ensures calls { calls_of result ≡ Ok tt }
{
    if bytes[0] != 1 {
        return Ok(Gate::Closed);
    }
    match block(alloc, &bytes[1..]) {
        Ok(Some((record, size))) => Ok(Gate::Open(record, size)),
        Ok(None) => Err(ReadEnd::Bad(place)),
        Err(_) => Err(ReadEnd::Memory),
    }
}

/// Reads the gate at this place of a file of `len` bytes.
fn read_gate<D: Disk>(alloc: Global, disk: &mut D, at: u64, len: u64) -> Result<Gate, ReadEnd>
    requires inside { at < len }
    requires len { IsTrue (D.tells disk.old) → len ≡ length (D.file disk.old).seen }
    ensures ok { IfOk result (λ gate. IsTrue (D.tells disk.old) → IsGate (drop at (D.file disk.old).seen) gate) }
    ensures next { IfOk result (λ gate. IsNextWithin gate (len - at)) }
    ensures fit { IfOk result HoldsRecord }
    ensures bad { IfErr result (λ end. IfBad end
        (λ place. (place ≡ at) × (IsTrue (D.tells disk.old) → IsFault (drop at (D.file disk.old).seen)))) }
    ensures file { D.file disk.new ≡ D.file disk.old }
    ensures tells { D.tells disk.new ≡ D.tells disk.old }
    ensures left { D.left disk.new ≡ D.left disk.old }
    ensures counted { Counted (D.faults disk.old) (D.faults disk.new) (D.own disk.old) (D.own disk.new)
        (D.left disk.new) (calls_of result) }
{
    let n = (len - at).min(LONGEST) as usize;
    let mut buffer = [0u8; 4100];
    let piece = &mut buffer[..n];
    match disk.read(at, piece) {
        Ok(()) => gate_in(alloc, piece, at),
        Err(_) => Err(ReadEnd::Failed),
    }
}

/// Reads the records of a log of `len` bytes from its first gate on, and the place of its closed
/// gate.
pub(crate) fn read_records<D: Disk>(
    alloc: Global,
    disk: &mut D,
    len: u64,
    first: u64,
) -> Result<(Vec<Record>, u64), ReadEnd>
    requires long { 2 < len }
    requires len { IsTrue (D.tells disk.old) → len ≡ length (D.file disk.old).seen }
    requires inside { first < len }
    requires version { IsTrue (D.tells disk.old) → HasGateAt (D.file disk.old).seen first }
    ensures ok { IfOk result (λ x. IsTrue (D.tells disk.old) → IsLog (D.file disk.old).seen x.0.items x.1) }
    ensures count { IfOk result (λ x. length x.0.items ≤ x.1) }
    ensures fit { IfOk result (λ x. All IsRecord x.0.items) }
    ensures inside { IfOk result (λ x. x.1 < len) }
    ensures bad { IfErr result (λ end. IfBad end (λ place. IsTrue (D.tells disk.old) → log (D.file disk.old).seen ≡ Err place)) }
    ensures file { D.file disk.new ≡ D.file disk.old }
    ensures tells { D.tells disk.new ≡ D.tells disk.old }
    ensures left { D.left disk.new ≡ D.left disk.old }
    ensures counted { Counted (D.faults disk.old) (D.faults disk.new) (D.own disk.old) (D.own disk.new)
        (D.left disk.new) (calls_of result) }
{
    let mut records = Vec::new(alloc);
    let mut at = first;
    'gates: loop {
        match read_gate(alloc, disk, at, len) {
            Ok(Gate::Closed) => return Ok((records, at)),
            Ok(Gate::Open(record, size)) => match push(&mut records, record) {
                Ok(()) => at += 1 + size,
                Err(_) => return Err(ReadEnd::Memory),
            },
            Err(end) => return Err(end),
        }
    }
}

/// Reads the records of a log of `len` bytes, more than two, and the place of its closed gate.
pub(crate) fn read_log<D: Disk>(
    alloc: Global,
    disk: &mut D,
    len: u64,
) -> Result<(Vec<Record>, u64), ReadEnd>
    requires long { 2 < len }
    requires len { IsTrue (D.tells disk.old) → len ≡ length (D.file disk.old).seen }
    ensures ok { IfOk result (λ x. IsTrue (D.tells disk.old) → IsLog (D.file disk.old).seen x.0.items x.1) }
    ensures count { IfOk result (λ x. length x.0.items ≤ x.1) }
    ensures fit { IfOk result (λ x. All IsRecord x.0.items) }
    ensures inside { IfOk result (λ x. x.1 < len) }
    ensures bad { IfErr result (λ end. IfBad end (λ place. IsTrue (D.tells disk.old) → log (D.file disk.old).seen ≡ Err place)) }
    ensures file { D.file disk.new ≡ D.file disk.old }
    ensures tells { D.tells disk.new ≡ D.tells disk.old }
    ensures left { D.left disk.new ≡ D.left disk.old }
    ensures counted { Counted (D.faults disk.old) (D.faults disk.new) (D.own disk.old) (D.own disk.new)
        (D.left disk.new) (calls_of result) }
{
    let mut version = [0u8; 1];
    match disk.read(0, &mut version) {
        Ok(()) => {}
        Err(_) => return Err(ReadEnd::Failed),
    }
    if version[0] == 1 {
        return read_records(alloc, disk, len, 1);
    }
    if version[0] == 2 && len >= 10 {
        return read_records(alloc, disk, len, 9);
    }
    Err(ReadEnd::Bad(0))
}
