//! A journal on a disk: opened, written record by record, stopped.
ghost use Rattle.std.specs.Prelude.{◌≡◌, ◌≢◌, ◌⊎◌, ℕ, ◌+◌, ◌<◌, ◌≤◌, ◌^◌, ◌++◌, List, [], ◌∷◌, Some, None, Ok, Err, length, vec_capacity, IsTrue, IfOk, IfErr, OnOk, OnErr, All};
ghost use Rattle.score_base.specs.declared.records.Record.{Record};
ghost use Rattle.score_disk.specs.Files.{Settled, IsSettled, synced, written};
ghost use Rattle.score_disk.specs.Counts.{Counted};
ghost use Rattle.journal_records.specs.Records.{record_bytes, CanEncode, IsRecord};
ghost use Rattle.node_journal.specs.Calls.{HasRoom, lowered};
ghost use Rattle.node_journal.specs.Ends.{MatchEnd};
ghost use Rattle.node_journal.specs.Log.{IsLog, framed, generation, log, records_of};
ghost use Rattle.node_journal.specs.Spending.{Spent, Halted, Untouched};
ghost use Rattle.node_journal.specs.Sets.{IsLog-prop};
ghost use Rattle.node_journal.specs.Torn.{IsAtRest, LeavesOld, LeavesOldOrNew, LeavesShort, LeavesVersion};

use crate::ends::{OpenEnd, Stopped};
use crate::kept::Kept;
use crate::opening::load;
use crate::reading::ReadEnd;
use crate::writing::{append_at, put_frame};
use score_base::{Memory, Record};
use score_disk::{CrashDisk, Disk, Fused};
use std::alloc::Global;

/// The longest body of a record.
const LONGEST_BODY: usize = 4096;

/// A record's length, its longest body, and the gates before and behind it.
const LONGEST_BLOCK: u64 = 4100;

/// A gate log on a disk, open for appending. Where the disk tells its file, the file is settled and
/// its log is a list of records.
#[derive(Drop)]
pub struct Journal<D: Disk> {
    disk: D,
    gate: u64,
    count: u64,
    scratch: Vec<u8>,
    body: Vec<u8>,
    frame: Vec<u8>,
    ghost settled: { Settled (D.tells disk) (D.file disk) },
    ghost is_log: { IsTrue (D.tells disk) → IsLog (D.file disk).seen (records_of (log (D.file disk).seen)) gate } by { Prim.hlevel IsLog-prop },
    ghost counted: { IsTrue (D.tells disk) → count ≡ length (records_of (log (D.file disk).seen)) },
    ghost few: { count ≤ gate },
    ghost small: { gate < 2 ^ 63 },
}

impl<D: Disk> Journal<D> {
    /// Opens the log on a settled disk, and gives its records in the order of time. A file of at
    /// most two bytes is made anew with one write and one sync; any other file gets no write, cut
    /// or sync. All memory for making anew is taken before the write, so after [`OpenEnd::Memory`]
    /// the disk is as before but for room.
    pub fn open(alloc: Global, disk: D) -> Result<(Journal<D>, Vec<Record>), OpenEnd<D>>
        requires settled { Settled (D.tells disk) (D.file disk) }
        ensures log { IfOk result (λ x. IsTrue (D.tells disk) → log (D.file disk).seen ≡ Ok x.1.items) }
        ensures now { IfOk result (λ x. IsTrue (D.tells disk) → IsAtRest (D.file x.0.disk) x.1.items) }
        ensures count { IfOk result (λ x. x.0.count ≡ length x.1.items) }
        ensures fit { IfOk result (λ x. All IsRecord x.1.items) }
        ensures kept { IfOk result (λ x. IsTrue (D.tells disk) → 2 < length (D.file disk).seen → D.file x.0.disk ≡ D.file disk) }
        ensures anew { IfOk result (λ x. IsTrue (D.tells disk) → length (D.file disk).seen ≤ 2
            → D.file x.0.disk ≡ synced (written 0 (1 ∷ 0 ∷ []) (D.file disk))) }
        ensures opened { IfOk result (λ x.
            Untouched D.Disk disk x.0.disk ⊎ ((x.1.items ≡ []) × Spent D.Disk 2 disk x.0.disk)) }
        ensures tells { IfOk result (λ x. D.tells x.0.disk ≡ D.tells disk) }
        ensures left_kept { IfOk result (λ x. IsTrue (D.tells disk) → 2 < length (D.file disk).seen → D.left x.0.disk ≡ D.left disk) }
        ensures left_anew { IfOk result
            (λ x. IsTrue (D.tells disk) → length (D.file disk).seen ≤ 2 → D.left x.0.disk ≡ lowered 2 (D.left disk)) }
        ensures left { IfOk result (λ x. (D.left x.0.disk ≡ D.left disk)
            ⊎ ((D.left x.0.disk ≡ lowered 2 (D.left disk)) × (D.left x.0.disk ≢ Some 0))) }
        ensures faults { IfOk result (λ x. D.faults x.0.disk ≡ D.faults disk) }
        ensures own { IfOk result (λ x. D.own x.0.disk ≡ D.own disk) }
        ensures end { IfErr result (λ e. MatchEnd e
            (λ d. Halted D.Disk 2 disk d
            × (IsTrue (D.tells disk) → 2 < length (D.file disk).seen → (D.file d ≡ D.file disk) × (D.left d ≡ D.left disk))
            × (IsTrue (D.tells disk) → length (D.file disk).seen ≤ 2 → LeavesShort 2 (D.file d)))
            (λ d at. Untouched D.Disk disk d
            × (IsTrue (D.tells disk) → log (D.file disk).seen ≡ Err at))
            (λ d. Untouched D.Disk disk d)) }
    {
        let mut disk = disk;
        match load(alloc, &mut disk) {
            Ok((records, gate)) => Ok((
                Journal {
                    disk,
                    gate,
                    count: records.len() as u64,
                    scratch: Vec::new(alloc),
                    body: Vec::new(alloc),
                    frame: Vec::new(alloc),
                },
                records,
            )),
            Err(ReadEnd::Failed) => Err(OpenEnd::Failed(disk)),
            Err(ReadEnd::Bad(place)) => Err(OpenEnd::NotJournal(disk, place)),
            Err(ReadEnd::Memory) => Err(OpenEnd::Memory(disk)),
        }
    }

    /// The number of records.
    pub fn count(&self) -> u64
        ensures value { result ≡ self.now.count }
        ensures log { IsTrue (D.tells self.now.disk) → result ≡ length (records_of (log (D.file self.now.disk).seen)) }
    {
        self.count
    }

    /// Gives up the journal for its disk, which is settled.
    pub fn stop(self) -> D
        ensures disk { result ≡ self.disk }
        ensures settled { Settled (D.tells result) (D.file result) }
    {
        let Journal {
            disk,
            gate: _,
            count: _,
            scratch: _,
            body: _,
            frame: _,
        } = self;
        disk
    }

    /// Puts the journal on another disk, whose log has this closed gate and so many records, and gives
    /// back the disk that it leaves.
    pub(crate) fn move_to(self, other: D, place: u64, records: u64) -> (Journal<D>, D)
        requires settled { Settled (D.tells other) (D.file other) }
        requires is_log { IsTrue (D.tells other) → IsLog (D.file other).seen (records_of (log (D.file other).seen)) place }
        requires counted { IsTrue (D.tells other) → records ≡ length (records_of (log (D.file other).seen)) }
        requires few { records ≤ place }
        requires small { place < 2 ^ 63 }
        ensures disk { result.0.disk ≡ other }
        ensures count { result.0.count ≡ records }
        ensures left_disk { result.1 ≡ self.disk }
    {
        let Journal {
            disk,
            gate: _,
            count: _,
            scratch,
            body,
            frame,
        } = self;
        (
            Journal {
                disk: other,
                gate: place,
                count: records,
                scratch,
                body,
                frame,
            },
            disk,
        )
    }

    /// The frame of the record that was appended last.
    pub(crate) fn last_frame(&self) -> &[u8]
        ensures { result.now ≡ self.now.frame.items }
    {
        self.frame.as_slice()
    }

    /// Makes room for one record: afterwards it may be appended. A log that ends less than its
    /// longest block below 2^63 bytes has no room; no memory holds more. All else is as before,
    /// also after [`Memory`].
    pub fn room(&mut self) -> Result<(), Memory>
        ensures room { OnOk result (HasRoom (D.spare self.new.disk) (vec_capacity self.new.scratch)
            (vec_capacity self.new.body) (vec_capacity self.new.frame) self.new.gate) }
        ensures untouched { Untouched D.Disk self.old.disk self.new.disk }
        ensures count { self.new.count ≡ self.old.count }
    {
        if self.gate > (1 << 63) - LONGEST_BLOCK {
            return Err(Memory);
        }
        self.scratch.clear();
        self.body.clear();
        self.frame.clear();
        self.scratch.reserve(LONGEST_BODY)?;
        self.body.reserve(LONGEST_BODY)?;
        self.frame.reserve(LONGEST_BLOCK as usize)?;
        self.disk.room(LONGEST_BLOCK)
    }

    /// Appends a record with four device calls: write and sync of its frame behind the closed gate,
    /// write and sync of the open gate. It takes no memory. [`Stopped`] comes only where the disk's
    /// count of faults rose; then every image of the disk is a log of the old records, or of these
    /// and the new one.
    pub fn append(self, rec: Record) -> Result<(Journal<D>, Kept), Stopped<D>>
        requires room { HasRoom (D.spare self.disk) (vec_capacity self.scratch) (vec_capacity self.body)
            (vec_capacity self.frame) self.gate }
        requires fit { CanEncode rec }
        ensures kept { IfOk result (λ x. x.1.rec ≡ rec) }
        ensures appended { IfOk result (λ x. IsTrue (D.tells self.disk) → (records : List Record)
            → log (D.file self.disk).seen ≡ Ok records → IsAtRest (D.file x.0.disk) (records ++ rec ∷ [])) }
        ensures counts { IfOk result (λ x. x.0.count ≡ self.count + 1) }
        ensures frame { IfOk result (λ x. x.0.frame.items ≡ framed (record_bytes rec) ++ 0 ∷ []) }
        ensures is { IfOk result (λ x. IsRecord rec) }
        ensures short { IfOk result (λ x. length (record_bytes rec) ≤ 4096) }
        ensures version { IfOk result
            (λ x. IsTrue (D.tells self.disk) → generation (D.file x.0.disk).seen ≡ generation (D.file self.disk).seen) }
        ensures spent { IfOk result (λ x. Spent D.Disk 4 self.disk x.0.disk) }
        ensures stopped { IfErr result (λ s. IsTrue (D.tells self.disk) → (records : List Record)
            → log (D.file self.disk).seen ≡ Ok records → LeavesOldOrNew records rec (D.file s.disk)) }
        ensures early { IfErr result (λ s. IsTrue (D.tells self.disk) → (k : ℕ) → D.left self.disk ≡ Some k → k ≤ 2
            → (records : List Record) → log (D.file self.disk).seen ≡ Ok records → LeavesOld records (D.file s.disk)) }
        ensures rec { IfErr result (λ s. s.rec ≡ rec) }
        ensures version_stopped { IfErr result
            (λ s. IsTrue (D.tells self.disk) → LeavesVersion (generation (D.file self.disk).seen) (D.file s.disk)) }
        ensures halted { IfErr result (λ s. Halted D.Disk 4 self.disk s.disk) }
    {
        let Journal {
            mut disk,
            gate,
            count,
            mut scratch,
            mut body,
            mut frame,
        } = self;
        put_frame(&mut frame, &mut body, &mut scratch, &rec);
        match append_at(&mut disk, gate, frame.as_slice()) {
            Ok(()) => Ok((
                Journal {
                    disk,
                    gate: gate + (body.len() as u64 + 3),
                    count: count + 1,
                    scratch,
                    body,
                    frame,
                },
                Kept::made(rec),
            )),
            Err(_) => Err(Stopped { disk, rec }),
        }
    }
}

impl<D: CrashDisk> Journal<Fused<D>> {
    /// Arms the fuse of the journal's disk with `k`, at least 1. All else is as before.
    pub fn arm(&mut self, k: u64)
        requires { 1 ≤ k }
        ensures disk { self.new.disk ≡ record self.old.disk { left = Some k } }
        ensures gate { self.new.gate ≡ self.old.gate }
        ensures count { self.new.count ≡ self.old.count }
        ensures scratch { self.new.scratch ≡ self.old.scratch }
        ensures body { self.new.body ≡ self.old.body }
        ensures frame { self.new.frame ≡ self.old.frame }
    {
        self.disk.arm(k);
    }

    /// Disarms the fuse of the journal's disk. All else is as before.
    pub fn disarm(&mut self)
        ensures disk { self.new.disk ≡ record self.old.disk { left = None } }
        ensures gate { self.new.gate ≡ self.old.gate }
        ensures count { self.new.count ≡ self.old.count }
        ensures scratch { self.new.scratch ≡ self.old.scratch }
        ensures body { self.new.body ≡ self.old.body }
        ensures frame { self.new.frame ≡ self.old.frame }
    {
        self.disk.disarm();
    }
}
