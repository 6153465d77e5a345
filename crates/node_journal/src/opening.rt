//! How the records of a disk are found, and a file is made anew.
ghost use Rattle.std.specs.Prelude.{◌≡◌, ◌≢◌, ◌⊎◌, ℕ, ◌+◌, ◌<◌, ◌≤◌, ◌^◌, List, [], ◌∷◌, Some, Ok, Err, length, IsTrue, IfOk, IfErr, OnOk, OnErr, All};
ghost use Rattle.journal_records.specs.Records.{IsRecord};
ghost use Rattle.score_disk.specs.Files.{Settled, IsSettled, synced, written};
ghost use Rattle.score_disk.specs.Counts.{Counted};
ghost use Rattle.node_journal.specs.Calls.{lowered, LoweredAtMost};
ghost use Rattle.node_journal.specs.Gates.{MatchReadEnd, IfBad, calls_of};
ghost use Rattle.node_journal.specs.Log.{IsLog, log};
ghost use Rattle.node_journal.specs.Spending.{Spent, Untouched};
ghost use Rattle.node_journal.specs.Torn.{LeavesShort};

use crate::reading::{ReadEnd, read_log};
use crate::writing::put_durably;
use score_base::Record;
use score_disk::Disk;
use std::alloc::Global;

/// Makes the log of a file of at most two bytes anew: it holds no record, and its closed gate
/// stands at 1.
fn make_anew<D: Disk>(disk: &mut D) -> Result<(), ReadEnd>
    requires settled { Settled (D.tells disk.old) (D.file disk.old) }
    requires short { IsTrue (D.tells disk.old) → length (D.file disk.old).seen ≤ 2 }
    ensures ok { OnOk result (IsTrue (D.tells disk.old) → D.file disk.new ≡ synced (written 0 (1 ∷ 0 ∷ []) (D.file disk.old))) }
    ensures short { OnErr result (IsTrue (D.tells disk.old) → LeavesShort 2 (D.file disk.new)) }
    ensures as_before { IfErr result (λ end. MatchReadEnd end (Unit {0}) (λ _. ⊥)
        ((D.file disk.new ≡ D.file disk.old) × (D.left disk.new ≡ D.left disk.old))) }
    ensures tells { D.tells disk.new ≡ D.tells disk.old }
    ensures lowered { OnOk result (D.left disk.new ≡ lowered 2 (D.left disk.old)) }
    ensures unstopped { OnOk result (D.left disk.new ≢ Some 0) }
    ensures spent { OnOk result (Spent D.Disk 2 disk.old disk.new) }
    ensures at_most { LoweredAtMost 2 (D.left disk.old) (D.left disk.new) }
    ensures counted { Counted (D.faults disk.old) (D.faults disk.new) (D.own disk.old) (D.own disk.new)
        (D.left disk.new) (calls_of result) }
{
    match disk.room(2) {
        Ok(()) => {}
        Err(_) => return Err(ReadEnd::Memory),
    }
    match put_durably(disk, 0, &[1, 0]) {
        Ok(()) => Ok(()),
        Err(_) => Err(ReadEnd::Failed),
    }
}

/// Reads the log, or makes it anew where the file has at most two bytes.
pub(crate) fn load<D: Disk>(alloc: Global, disk: &mut D) -> Result<(Vec<Record>, u64), ReadEnd>
    requires settled { Settled (D.tells disk.old) (D.file disk.old) }
    ensures log { IfOk result (λ x. IsTrue (D.tells disk.old) → log (D.file disk.old).seen ≡ Ok x.0.items) }
    ensures now { IfOk result (λ x. IsTrue (D.tells disk.old) → IsLog (D.file disk.new).seen x.0.items x.1) }
    ensures settled { OnOk result (IsTrue (D.tells disk.old) → IsSettled (D.file disk.new)) }
    ensures count { IfOk result (λ x. length x.0.items ≤ x.1) }
    ensures fit { IfOk result (λ x. All IsRecord x.0.items) }
    ensures small { IfOk result (λ x. x.1 < 2 ^ 63) }
    ensures bad { IfErr result (λ end. IfBad end (λ place. IsTrue (D.tells disk.old) → log (D.file disk.old).seen ≡ Err place)) }
    ensures opened { IfOk result (λ x.
        Untouched D.Disk disk.old disk.new ⊎ ((x.0.items ≡ []) × Spent D.Disk 2 disk.old disk.new)) }
    ensures kept { IsTrue (D.tells disk.old) → 2 < length (D.file disk.old).seen → D.file disk.new ≡ D.file disk.old }
    ensures anew { OnOk result (IsTrue (D.tells disk.old) → length (D.file disk.old).seen ≤ 2
        → D.file disk.new ≡ synced (written 0 (1 ∷ 0 ∷ []) (D.file disk.old))) }
    ensures short { OnErr result (IsTrue (D.tells disk.old) → length (D.file disk.old).seen ≤ 2 → LeavesShort 2 (D.file disk.new)) }
    ensures as_before { IfErr result (λ end. MatchReadEnd end (Unit {0})
        (λ _. (D.file disk.new ≡ D.file disk.old) × (D.left disk.new ≡ D.left disk.old))
        ((D.file disk.new ≡ D.file disk.old) × (D.left disk.new ≡ D.left disk.old))) }
    ensures tells { D.tells disk.new ≡ D.tells disk.old }
    ensures left_kept { IsTrue (D.tells disk.old) → 2 < length (D.file disk.old).seen → D.left disk.new ≡ D.left disk.old }
    ensures left_anew { OnOk result (IsTrue (D.tells disk.old) → length (D.file disk.old).seen ≤ 2
        → D.left disk.new ≡ lowered 2 (D.left disk.old)) }
    ensures left { OnOk result ((D.left disk.new ≡ D.left disk.old)
        ⊎ ((D.left disk.new ≡ lowered 2 (D.left disk.old)) × (D.left disk.new ≢ Some 0))) }
    ensures at_most { LoweredAtMost 2 (D.left disk.old) (D.left disk.new) }
    ensures counted { Counted (D.faults disk.old) (D.faults disk.new) (D.own disk.old) (D.own disk.new)
        (D.left disk.new) (calls_of result) }
{
    let len = match disk.len() {
        Ok(len) => len,
        Err(_) => return Err(ReadEnd::Failed),
    };
    if len > 2 {
        return read_log(alloc, disk, len);
    }
    match make_anew(disk) {
        Ok(()) => Ok((Vec::new(alloc), 1)),
        Err(end) => Err(end),
    }
}
