//! The three stages in which a journal is written into the other disk of its node.
ghost use Rattle.std.specs.Prelude.{◌≡◌, ◌≢◌, ◌⊎◌, ℕ, ◌+◌, ◌≤◌, List, [], ◌∷◌, Some, None, length, slice_index, slice_get, IsTrue, IfOk, OnOk, OnErr};
ghost use Rattle.score_disk.specs.Counts.{Counted};
ghost use Rattle.score_disk.specs.Files.{IsSettled, Settled, synced, written, cut_to};
ghost use Rattle.node_journal.specs.Log.{generation};
ghost use Rattle.node_journal.specs.Pairs.{Shortened, IsUnversioned, LeavesStale, LeavesStaleOr};
ghost use Rattle.node_journal.specs.Spending.{Spends};

use crate::writing::put_durably;
use score_base::Failed;
use score_disk::Disk;

/// Cuts, and syncs. After a failure nothing before this place was touched.
fn cut_durably<D: Disk>(disk: &mut D, at: u64) -> Result<(), Failed>
    requires settled { Settled (D.tells disk.old) (D.file disk.old) }
    requires within { IsTrue (D.tells disk.old) → at ≤ length (D.file disk.old).seen }
    ensures ok { OnOk result (IsTrue (D.tells disk.old) → D.file disk.new ≡ synced (cut_to at (D.file disk.old))) }
    ensures torn { OnErr result (IsTrue (D.tells disk.old) → Shortened (D.file disk.old) at (D.file disk.new)) }
    ensures spare { D.spare disk.old ≤ D.spare disk.new }
    ensures spends { Spends D.Disk 2 disk.old disk.new result }
{
    match disk.cut(at) {
        Ok(()) => {}
        Err(e) => return Err(e),
    }
    match disk.sync() {
        Ok(()) => Ok(()),
        Err(e) => Err(e),
    }
}

/// The first byte of the file, where it has one.
fn first_byte<D: Disk>(disk: &mut D) -> Result<Option<u8>, Failed>
    ensures byte { IfOk result (λ byte. IsTrue (D.tells disk.old) → byte ≡ slice_get (D.file disk.old).seen 0) }
    ensures file { D.file disk.new ≡ D.file disk.old }
    ensures tells { D.tells disk.new ≡ D.tells disk.old }
    ensures spare { D.spare disk.new ≡ D.spare disk.old }
    ensures left { D.left disk.new ≡ D.left disk.old }
    ensures counted { Counted (D.faults disk.old) (D.faults disk.new) (D.own disk.old) (D.own disk.new)
        (D.left disk.new) result }
{
    let len = match disk.len() {
        Ok(len) => len,
        Err(e) => return Err(e),
    };
    if len == 0 {
        return Ok(None);
    }
    let mut byte = [0u8; 1];
    match disk.read(0, &mut byte) {
        Ok(()) => Ok(Some(byte[0])),
        Err(e) => Err(e),
    }
}

/// Clears a file of version 1. It is cut before its version is overwritten: while byte 0 is written
/// a crash may leave a 2 there, and no generation may stand behind it.
fn clear_first<D: Disk>(other: &mut D) -> Result<(), Failed>
    requires settled { Settled (D.tells other.old) (D.file other.old) }
    requires version { IsTrue (D.tells other.old) → slice_get (D.file other.old).seen 0 ≡ Some 1 }
    requires room { 1 ≤ D.spare other.old }
    ensures ok { OnOk result (IsTrue (D.tells other.old) → IsUnversioned (D.file other.new) []) }
    ensures stopped { OnErr result (IsTrue (D.tells other.old) →
        LeavesStale (generation (D.file other.old).seen) (D.file other.new)) }
    ensures spare { D.spare other.old ≤ D.spare other.new + 1 }
    ensures spends { Spends D.Disk 4 other.old other.new result }
{
    match cut_durably(other, 1) {
        Ok(()) => {}
        Err(e) => return Err(e),
    }
    match put_durably(other, 0, &[0]) {
        Ok(()) => Ok(()),
        Err(e) => Err(e),
    }
}

/// Clears a file of version 2. Its version is overwritten before it is cut: a cut touches every
/// place behind it up to the old length, so a crash may leave any generation behind a 2 that stands.
fn clear_second<D: Disk>(other: &mut D) -> Result<(), Failed>
    requires settled { Settled (D.tells other.old) (D.file other.old) }
    requires version { IsTrue (D.tells other.old) → slice_get (D.file other.old).seen 0 ≡ Some 2 }
    requires room { 1 ≤ D.spare other.old }
    ensures ok { OnOk result (IsTrue (D.tells other.old) → IsUnversioned (D.file other.new) []) }
    ensures stopped { OnErr result (IsTrue (D.tells other.old) →
        LeavesStale (generation (D.file other.old).seen) (D.file other.new)) }
    ensures spare { D.spare other.old ≤ D.spare other.new + 1 }
    ensures spends { Spends D.Disk 4 other.old other.new result }
{
    let overwritten = put_durably(other, 0, &[0]);
    match overwritten {
        Ok(()) => {}
        Err(e) => return Err(e),
    }
    match cut_durably(other, 1) {
        Ok(()) => Ok(()),
        Err(e) => Err(e),
    }
}

/// Fills a cleared file behind its byte 0.
fn fill<D: Disk>(other: &mut D, filling: &[u8]) -> Result<(), Failed>
    requires cleared { IsTrue (D.tells other.old) → IsUnversioned (D.file other.old) [] }
    requires room { length filling.now ≤ D.spare other.old }
    ensures ok { OnOk result (IsTrue (D.tells other.old) → IsUnversioned (D.file other.new) filling.now) }
    ensures stopped { OnErr result (IsTrue (D.tells other.old) → LeavesStale None (D.file other.new)) }
    ensures spare { D.spare other.old ≤ D.spare other.new + length filling.now }
    ensures spends { Spends D.Disk 2 other.old other.new result }
{
    match put_durably(other, 1, filling) {
        Ok(()) => Ok(()),
        Err(e) => Err(e),
    }
}

/// Opens a filled file by its version.
fn open_version<D: Disk>(other: &mut D) -> Result<(), Failed>
    requires settled { Settled (D.tells other.old) (D.file other.old) }
    requires room { 1 ≤ D.spare other.old }
    ensures ok { OnOk result (IsTrue (D.tells other.old) → IsSettled (D.file other.new)) }
    ensures version { OnOk result (IsTrue (D.tells other.old) → (filling : List ℕ) →
        IsUnversioned (D.file other.old) filling → (D.file other.new).seen ≡ 2 ∷ filling) }
    ensures stopped { OnErr result (IsTrue (D.tells other.old) → (filling : List ℕ) →
        IsUnversioned (D.file other.old) filling → LeavesStaleOr None (2 ∷ filling) (D.file other.new)) }
    ensures spare { D.spare other.old ≤ D.spare other.new + 1 }
    ensures spends { Spends D.Disk 2 other.old other.new result }
{
    match put_durably(other, 0, &[2]) {
        Ok(()) => Ok(()),
        Err(e) => Err(e),
    }
}

/// Clears an empty file.
fn clear_empty<D: Disk>(other: &mut D) -> Result<(), Failed>
    requires settled { Settled (D.tells other.old) (D.file other.old) }
    requires version { IsTrue (D.tells other.old) → slice_get (D.file other.old).seen 0 ≡ None }
    requires room { 1 ≤ D.spare other.old }
    ensures ok { OnOk result (IsTrue (D.tells other.old) → IsUnversioned (D.file other.new) []) }
    ensures stopped { OnErr result (IsTrue (D.tells other.old) →
        LeavesStale (generation (D.file other.old).seen) (D.file other.new)) }
    ensures spare { D.spare other.old ≤ D.spare other.new + 1 }
    ensures spends { Spends D.Disk 2 other.old other.new result }
{
    match put_durably(other, 0, &[0]) {
        Ok(()) => Ok(()),
        Err(e) => Err(e),
    }
}

/// Clears a file of neither version.
fn clear_unknown<D: Disk>(other: &mut D, version: u8) -> Result<(), Failed>
    requires settled { Settled (D.tells other.old) (D.file other.old) }
    requires version { IsTrue (D.tells other.old) → slice_get (D.file other.old).seen 0 ≡ Some version }
    requires other { version ≢ 2 }
    ensures ok { OnOk result (IsTrue (D.tells other.old) → IsUnversioned (D.file other.new) []) }
    ensures stopped { OnErr result (IsTrue (D.tells other.old) →
        LeavesStale (generation (D.file other.old).seen) (D.file other.new)) }
    ensures spare { D.spare other.old ≤ D.spare other.new }
    ensures spends { Spends D.Disk 2 other.old other.new result }
{
    match cut_durably(other, 1) {
        Ok(()) => Ok(()),
        Err(e) => Err(e),
    }
}

/// Clears the other disk: it is left with one byte that isn't the version 2. No image has a
/// generation but the old one.
fn clear<D: Disk>(other: &mut D) -> Result<(), Failed>
    requires settled { Settled (D.tells other.old) (D.file other.old) }
    requires room { 1 ≤ D.spare other.old }
    ensures ok { OnOk result (IsTrue (D.tells other.old) → IsUnversioned (D.file other.new) []) }
    ensures stopped { OnErr result (IsTrue (D.tells other.old) →
        LeavesStale (generation (D.file other.old).seen) (D.file other.new)) }
    ensures spare { D.spare other.old ≤ D.spare other.new + 1 }
    ensures spends { Spends D.Disk 2 other.old other.new result ⊎ Spends D.Disk 4 other.old other.new result }
{
    match first_byte(other) {
        Ok(None) => clear_empty(other),
        Ok(Some(1)) => clear_first(other),
        Ok(Some(2)) => clear_second(other),
        Ok(Some(version)) => clear_unknown(other, version),
        Err(e) => Err(e),
    }
}

/// Writes a file of version 2 into a cleared one: what stands behind its version first.
fn write_cleared<D: Disk>(other: &mut D, filling: &[u8]) -> Result<(), Failed>
    requires cleared { IsTrue (D.tells other.old) → IsUnversioned (D.file other.old) [] }
    requires room { length filling.now + 1 ≤ D.spare other.old }
    ensures settled { OnOk result (IsTrue (D.tells other.old) → IsSettled (D.file other.new)) }
    ensures seen { OnOk result (IsTrue (D.tells other.old) → (D.file other.new).seen ≡ 2 ∷ filling.now) }
    ensures stopped { OnErr result (IsTrue (D.tells other.old) →
        LeavesStaleOr None (2 ∷ filling.now) (D.file other.new)) }
    ensures early { OnErr result (IsTrue (D.tells other.old) → (k : ℕ) → D.left other.old ≡ Some k → k ≤ 2 →
        LeavesStale None (D.file other.new)) }
    ensures spare { D.spare other.old ≤ D.spare other.new + (length filling.now + 1) }
    ensures spends { Spends D.Disk 4 other.old other.new result }
{
    match fill(other, filling) {
        Ok(()) => {}
        Err(e) => return Err(e),
    }
    match open_version(other) {
        Ok(()) => Ok(()),
        Err(e) => Err(e),
    }
}

/// Writes a file of version 2 into the other disk with six or eight device calls: clears it, fills
/// it, and opens it by its version. No image has a generation but the old one or is the new file,
/// which none is before the fifth call.
pub(crate) fn compact_into<D: Disk>(other: &mut D, filling: &[u8]) -> Result<(), Failed>
    requires settled { Settled (D.tells other.old) (D.file other.old) }
    requires room { length filling.now + 2 ≤ D.spare other.old }
    ensures settled { OnOk result (IsTrue (D.tells other.old) → IsSettled (D.file other.new)) }
    ensures seen { OnOk result (IsTrue (D.tells other.old) → (D.file other.new).seen ≡ 2 ∷ filling.now) }
    ensures stopped { OnErr result (IsTrue (D.tells other.old) →
        LeavesStaleOr (generation (D.file other.old).seen) (2 ∷ filling.now) (D.file other.new)) }
    ensures early { OnErr result (IsTrue (D.tells other.old) → (k : ℕ) → D.left other.old ≡ Some k → k ≤ 4 →
        LeavesStale (generation (D.file other.old).seen) (D.file other.new)) }
    ensures spare { D.spare other.old ≤ D.spare other.new + (length filling.now + 2) }
    ensures spends { Spends D.Disk 6 other.old other.new result ⊎ Spends D.Disk 8 other.old other.new result }
{
    match clear(other) {
        Ok(()) => {}
        Err(e) => return Err(e),
    }
    match write_cleared(other, filling) {
        Ok(()) => Ok(()),
        Err(e) => Err(e),
    }
}
