//! How a record is written, so that a crash leaves it whole or not at all.
ghost use Rattle.std.specs.Prelude.{◌≡◌, ◌≢◌, ℕ, ◌+◌, ◌^◌, ◌≤◌, ◌<◌, ◌++◌, List, [], ◌∷◌, Some, length, slice_index, vec_capacity, IsTrue, OnOk, OnErr};
ghost use Rattle.journal_records.specs.Records.{record_bytes, CanEncode, IsRecord};
ghost use Rattle.score_disk.specs.Files.{IsSettled, Settled, synced, written};
ghost use Rattle.node_journal.specs.Torn.{Near, LeavesOneOf, LeavesClosed};
ghost use Rattle.node_journal.specs.Log.{framed};
ghost use Rattle.node_journal.specs.Spending.{Spends};

use journal_records::encode;
use score_base::{Failed, Record};
use score_disk::Disk;

/// Writes, and syncs. After a failure nothing but these places was touched.
pub(crate) fn put_durably<D: Disk>(disk: &mut D, at: u64, bytes: &[u8]) -> Result<(), Failed>
    requires settled { Settled (D.tells disk.old) (D.file disk.old) }
    requires within { IsTrue (D.tells disk.old) → at ≤ length (D.file disk.old).seen }
    requires room { length bytes.now ≤ D.spare disk.old }
    ensures ok { OnOk result (IsTrue (D.tells disk.old) → D.file disk.new ≡ synced (written at bytes.now (D.file disk.old))) }
    ensures torn { OnErr result (IsTrue (D.tells disk.old) → Near (D.file disk.old) at (length bytes.now) (D.file disk.new)) }
    ensures spare { D.spare disk.old ≤ D.spare disk.new + length bytes.now }
    ensures spends { Spends D.Disk 2 disk.old disk.new result }
{
    match disk.write(at, bytes) {
        Ok(()) => {}
        Err(e) => return Err(e),
    }
    match disk.sync() {
        Ok(()) => Ok(()),
        Err(e) => Err(e),
    }
}

/// Puts a frame behind a closed gate, and opens the gate.
pub(crate) fn append_at<D: Disk>(disk: &mut D, gate: u64, frame: &[u8]) -> Result<(), Failed>
    requires settled { Settled (D.tells disk.old) (D.file disk.old) }
    requires within { IsTrue (D.tells disk.old) → gate < length (D.file disk.old).seen }
    requires closed { IsTrue (D.tells disk.old) → slice_index (D.file disk.old).seen gate ≢ 1 }
    requires room { length frame.now + 1 ≤ D.spare disk.old }
    requires small { gate < 2 ^ 63 }
    ensures ok { OnOk result (IsTrue (D.tells disk.old) →
        D.file disk.new ≡ synced (written gate (1 ∷ []) (synced (written (gate + 1) frame.now (D.file disk.old))))) }
    ensures stopped { OnErr result (IsTrue (D.tells disk.old) → LeavesOneOf (D.file disk.old).seen gate frame.now (D.file disk.new)) }
    ensures early { OnErr result (IsTrue (D.tells disk.old) → (k : ℕ) → D.left disk.old ≡ Some k → k ≤ 2
        → LeavesClosed (D.file disk.old).seen gate (D.file disk.new)) }
    ensures spends { Spends D.Disk 4 disk.old disk.new result }
{
    match put_durably(disk, gate + 1, frame) {
        Ok(()) => {}
        Err(e) => return Err(e),
    }
    match put_durably(disk, gate, &[1]) {
        Ok(()) => Ok(()),
        Err(e) => Err(e),
    }
}

/// Spells the record with its length before it and a closed gate behind it. It takes no memory.
#[tactic(auto, unfolding(crate::specs::Log::framed), using(crate::proofs::Frames::body_short))]
pub(crate) fn put_frame(
    frame: &mut Vec<u8>,
    body: &mut Vec<u8>,
    scratch: &mut Vec<u8>,
    rec: &Record,
)
    requires fit { CanEncode rec.now }
    requires in_frame { 4100 ≤ vec_capacity frame.old }
    requires in_body { 4096 ≤ vec_capacity body.old }
    requires in_scratch { 4096 ≤ vec_capacity scratch.old }
    ensures frame { frame.new.items ≡ framed (record_bytes rec.now) ++ 0 ∷ [] }
    ensures body { body.new.items ≡ record_bytes rec.now }
    ensures is { IsRecord rec.now }
    ensures short { length (record_bytes rec.now) ≤ 4096 }
{
    body.clear();
    encode(rec, scratch, body).unwrap();
    frame.clear();
    frame
        .extend_from_slice(&(body.len() as u16).to_be_bytes())
        .unwrap();
    frame.extend_from_slice(body.as_slice()).unwrap();
    frame.push(0).unwrap();
}
