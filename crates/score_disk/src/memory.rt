//! A disk in memory that fails at the calls it is told.
ghost use Rattle.std.specs.Prelude.{◌≡◌, ◌≤◌, ◌+◌, ◌-◌, ◌^◌, ◌<◌, ◌↔◌, ℕ, [], length, min, vec_len, vec_capacity, IsTrue};
ghost use Rattle.std.specs.Prelude.{MatchBool, Contains};
ghost use Rattle.score_base.specs.Faults.{Rose};
ghost use Rattle.score_disk.specs.Copies.{Copies};

use crate::cells::{garble, lengthen, mark, put_bytes, replace, unmark};
use crate::disk::{CrashDisk, Disk};
use score_base::{Failed, Memory};
use std::alloc::Global;

/// A disk in memory, which tells its file. Its writes, cuts and syncs are numbered from 1 on in one
/// row, and those whose numbers were given to [`MemDisk::new`] fail: a failing write still puts its
/// bytes, a failing cut still cuts, and a failing sync settles nothing.
#[derive(Drop)]
pub struct MemDisk {
    bytes: Vec<u8>,
    settled: Vec<u8>,
    marks: Vec<bool>,
    least: usize,
    spare: usize,
    calls: u64,
    fails: Vec<u64>,
    faults: u64,
    ghost copies: { Copies bytes.items settled.items marks.items least },
    ghost bounded: { vec_len marks + spare < 2 ^ 63 },
    ghost bytes_room: { vec_len marks + spare ≤ vec_capacity bytes },
    ghost settled_room: { vec_len marks + spare ≤ vec_capacity settled },
    ghost marks_room: { vec_len marks + spare ≤ vec_capacity marks },
}

impl MemDisk {
    ghost use Rattle.score_disk.specs.MemoryFile.{memory_file};
    ghost use Rattle.score_disk.specs.Files.{IsSettled};

    /// An empty disk, settled, of count 0, whose calls of these numbers fail.
    pub fn new(alloc: Global, fails: Vec<u64>) -> MemDisk
        ensures empty { (memory_file result).seen ≡ [] }
        ensures settled { IsSettled (memory_file result) }
        ensures tells { IsTrue (⟦<MemDisk as Disk>⟧.tells result) }
        ensures spare { result.spare ≡ 0 }
        ensures calls { result.calls ≡ 0 }
        ensures fails { result.fails ≡ fails }
        ensures faults { result.faults ≡ 0 }
    {
        MemDisk {
            bytes: Vec::new(alloc),
            settled: Vec::new(alloc),
            marks: Vec::new(alloc),
            least: 0,
            spare: 0,
            calls: 0,
            fails,
            faults: 0,
        }
    }

    /// What a read gives.
    pub fn bytes(&self) -> &[u8]
        ensures { result.now ≡ (memory_file self.now).seen }
    {
        self.bytes.as_slice()
    }

    /// Counts a call, and says whether it fails.
    fn counted(&mut self) -> bool
        ensures same { self.new ≡ record self.old { calls = self.new.calls; faults = self.new.faults } }
        ensures number { self.new.calls ≡ min (self.old.calls + 1) (2 ^ 64 - 1) }
        ensures fails { IsTrue result ↔ Contains self.old.fails.items self.new.calls }
        ensures count { MatchBool result (Rose self.old.faults self.new.faults) (self.new.faults ≡ self.old.faults) }
        ensures later { self.old.faults ≤ self.new.faults }
    {
        self.calls = self.calls.saturating_add(1);
        let fails = self.fails.contains(&self.calls);
        if fails {
            self.faults = self.faults.saturating_add(1);
        }
        fails
    }
}

impl Disk for MemDisk {
    ghost use Rattle.std.specs.Prelude.{true, None, OnOk, OnErr, IsTrue};
    ghost use Rattle.score_disk.specs.Counts.{Counted, Burns};
    ghost use Rattle.score_disk.specs.Files.{written, cut_to, synced, Missed, Unsynced};
    ghost use Rattle.score_disk.specs.MemoryFile.{memory_file, memory_sound, memory_bounded, IsNumbered};

    ghost tells = { λ _. true };

    ghost file = { memory_file };

    ghost spare = { λ d. d.spare };

    ghost left = { λ _. None };

    ghost own = { λ d. d.faults };

    ghost faults = { λ d. d.faults };

    ghost sound = { λ d _. memory_sound d };

    ghost bounded = { λ d _. memory_bounded d };

    fn room(&mut self, n: u64) -> Result<(), Memory> {
        let long = self.marks.len();
        if n <= self.spare as u64 {
            return Ok(());
        }
        if n >= (1 << 63) - long as u64 {
            return Err(Memory);
        }
        let n = n as usize;
        let total = long + n;
        let bytes = self.bytes.reserve(total - self.bytes.len());
        let settled = self.settled.reserve(total - self.settled.len());
        let marks = self.marks.reserve(n);
        if bytes.is_err() || settled.is_err() || marks.is_err() {
            return Err(Memory);
        }
        self.spare = n;
        Ok(())
    }

    fn len(&mut self) -> Result<u64, Failed> {
        Ok(self.bytes.len() as u64)
    }

    fn read(&mut self, at: u64, buf: &mut [u8]) -> Result<(), Failed> {
        let at = at as usize;
        buf.copy_from_slice(&self.bytes[at..at + buf.len()]);
        Ok(())
    }

    fn write(&mut self, at: u64, bytes: &[u8]) -> Result<(), Failed>
        requires within { IsTrue true → at ≤ length (memory_file self.old).seen }
        requires room { length bytes.now ≤ self.old.spare }
        ensures puts { memory_file self.new ≡ written at bytes.now (memory_file self.old) }
        ensures settled { self.new.settled.items ≡ self.old.settled.items }
        ensures numbered { IsNumbered self.old self.new result }
        ensures missed { OnErr result (IsTrue true
            → Missed (memory_file self.old) (written at bytes.now (memory_file self.old)) (memory_file self.new)) }
        ensures spare { self.old.spare ≤ self.new.spare + length bytes.now }
        ensures counted { Counted self.old.faults self.new.faults self.old.faults self.new.faults None result }
    {
        let at = at as usize;
        let before = self.marks.len();
        put_bytes(&mut self.bytes, at, bytes);
        mark(&mut self.marks, at, bytes.len());
        self.spare -= self.marks.len() - before;
        if self.counted() { Err(Failed) } else { Ok(()) }
    }

    fn cut(&mut self, at: u64) -> Result<(), Failed>
        requires within { IsTrue true → at ≤ length (memory_file self.old).seen }
        ensures cuts { memory_file self.new ≡ cut_to at (memory_file self.old) }
        ensures settled { self.new.settled.items ≡ self.old.settled.items }
        ensures numbered { IsNumbered self.old self.new result }
        ensures missed { OnErr result
            (IsTrue true → Missed (memory_file self.old) (cut_to at (memory_file self.old)) (memory_file self.new)) }
        ensures spare { self.old.spare ≤ self.new.spare }
        ensures counted { Counted self.old.faults self.new.faults self.old.faults self.new.faults None result }
    {
        let at = at as usize;
        self.bytes.truncate(at);
        let long = self.marks.len();
        mark(&mut self.marks, at, long - at);
        self.least = self.least.min(at);
        if self.counted() { Err(Failed) } else { Ok(()) }
    }

    fn sync(&mut self) -> Result<(), Failed>
        ensures synced { OnOk result (memory_file self.new ≡ synced (memory_file self.old)) }
        ensures settled { OnOk result (self.new.settled.items ≡ self.old.bytes.items) }
        ensures err { OnErr result (memory_file self.new ≡ memory_file self.old) }
        ensures err_settled { OnErr result (self.new.settled.items ≡ self.old.settled.items) }
        ensures numbered { IsNumbered self.old self.new result }
        ensures unsynced { OnErr result (IsTrue true → Unsynced (memory_file self.old) (memory_file self.new)) }
        ensures spare { self.old.spare ≤ self.new.spare }
        ensures counted { Counted self.old.faults self.new.faults self.old.faults self.new.faults None result }
    {
        if self.counted() {
            return Err(Failed);
        }
        replace(&mut self.settled, self.bytes.as_slice());
        let gone = self.marks.len() - self.bytes.len();
        unmark(&mut self.marks, self.bytes.len());
        self.spare += gone;
        self.least = self.bytes.len();
        Ok(())
    }
}

impl CrashDisk for MemDisk {
    ghost use Rattle.std.specs.Prelude.{◌≡◌, ◌<◌, ◌%◌, ◌/◌, ℕ, length, max, true, IsTrue, slice_index, if◌then◌else◌};
    ghost use Rattle.score_disk.specs.MemoryFile.{memory_file};
    ghost use Rattle.score_disk.specs.Files.{IsCrash};
    ghost use Rattle.score_disk.specs.Copies.{is_marked};

    /// Where `how mod 3` is 0, the file is as it was settled; where it is 1, as a read gives now;
    /// where `how` is `3q + 2`, its length is the greater of these two, each touched place holds the
    /// byte `q mod 256`, and each other place what a read gives.
    fn crash(&mut self, how: u64)
        ensures crash { IsTrue true → IsCrash (memory_file self.old) (memory_file self.new) }
        ensures tells { true ≡ true }
        ensures own { self.new.faults ≡ self.old.faults }
        ensures faults { self.new.faults ≡ self.old.faults }
        ensures settled { how % 3 ≡ 0 → self.new.bytes.items ≡ self.old.settled.items }
        ensures now { how % 3 ≡ 1 → self.new.bytes.items ≡ self.old.bytes.items }
        ensures long { how % 3 ≡ 2
            → length self.new.bytes.items ≡ max (length self.old.bytes.items) (length self.old.settled.items) }
        ensures torn { how % 3 ≡ 2 → (i : ℕ) → i < length self.new.bytes.items → slice_index self.new.bytes.items i
            ≡ (if is_marked self.old.marks.items i then how / 3 % 256 else slice_index self.old.bytes.items i) }
        ensures calls { self.new.calls ≡ self.old.calls }
        ensures fails { self.new.fails.items ≡ self.old.fails.items }
    {
        let kind = how % 3;
        if kind == 0 {
            replace(&mut self.bytes, self.settled.as_slice());
        } else if kind == 2 {
            let byte = (how / 3 % 256) as u8;
            lengthen(&mut self.bytes, self.settled.len(), byte);
            garble(&mut self.bytes, self.marks.as_slice(), byte);
        }
        replace(&mut self.settled, self.bytes.as_slice());
        let gone = self.marks.len() - self.bytes.len();
        unmark(&mut self.marks, self.bytes.len());
        self.spare += gone;
        self.least = self.bytes.len();
    }
}
