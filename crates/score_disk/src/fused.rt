//! A disk that stops at a call set beforehand.
ghost use Rattle.std.specs.Prelude.{◌≡◌, ◌≢◌, ◌≤◌, ◌+◌, ◌-◌, ◌<◌, ◌^◌, ℕ, Some, None, length, slice_range, IsTrue, IsErr, IfOk, OnOk, OnErr, ◌↔◌};
ghost use Rattle.std.specs.Option.{option_map};
ghost use Rattle.score_base.specs.Faults.{Rose};
ghost use Rattle.score_disk.specs.Files.{File, IsCrash, Missed, Unsynced, written, cut_to, synced};
ghost use Rattle.score_disk.specs.Counts.{Counted, Burns};

use crate::disk::{CrashDisk, Disk};
use score_base::{Failed, Memory};

/// A disk with a fuse: once it is armed with `k`, the `k`-th write, cut or sync fails, and so does
/// every later call but [`Disk::room`] and [`CrashDisk::crash`], until a crash disarms it. A write or
/// cut that is stopped is passed on first; a sync that is stopped, and every call behind the stop, is
/// not passed on. Its `own` is the count of the disk inside.
#[derive(Drop)]
pub struct Fused<D> {
    inner: D,
    left: Option<u64>,
    stops: u64,
}

impl<D: CrashDisk> Fused<D> {
    /// The disk with a fuse that isn't armed.
    pub fn new(disk: D) -> Fused<D>
        ensures inner { result.inner ≡ disk }
        ensures left { result.left ≡ None }
        ensures stops { result.stops ≡ 0 }
    {
        Fused {
            inner: disk,
            left: None,
            stops: 0,
        }
    }

    /// Arms the fuse: the `k`-th write, cut or sync from now on stops, for `k` at least 1.
    pub fn arm(&mut self, k: u64)
        requires { 1 ≤ k }
        ensures { self.new ≡ record self.old { left = Some k } }
    {
        self.left = Some(k);
    }

    /// Disarms the fuse, also where it has stopped a call.
    pub fn disarm(&mut self)
        ensures { self.new ≡ record self.old { left = None } }
    {
        self.left = None;
    }

    /// Whether the fuse has stopped a call since it was armed.
    pub fn stopped(&self) -> bool
        ensures { IsTrue result ↔ (self.now.left ≡ Some 0) }
    {
        self.left == Some(0)
    }

    /// The disk inside.
    pub fn into_disk(self) -> D
        ensures { result ≡ self.inner }
    {
        let Fused {
            inner,
            left: _,
            stops: _,
        } = self;
        inner
    }
}

fn lowered(left: Option<u64>) -> Option<u64>
    ensures { result ≡ option_map (λ k. k - 1) left }
{
    match left {
        Some(k) => Some(k.saturating_sub(1)),
        None => None,
    }
}

impl<D: CrashDisk> Disk for Fused<D> {
    ghost tells = { λ s. D.tells s.inner };

    ghost file = { λ s. D.file s.inner };

    ghost spare = { λ s. D.spare s.inner };

    ghost left = { λ s. s.left };

    ghost own = { λ s. D.faults s.inner };

    ghost faults = { λ s. D.faults s.inner + s.stops };

    ghost sound = { λ s told. D.sound s.inner told };

    ghost bounded = { λ s told. D.bounded s.inner told };

    fn room(&mut self, n: u64) -> Result<(), Memory> {
        self.inner.room(n)
    }

    fn len(&mut self) -> Result<u64, Failed>
        ensures len { IfOk result (λ n. IsTrue (D.tells self.old.inner) → n ≡ length (D.file self.old.inner).seen) }
        ensures bounded { IfOk result (λ n. n < 2 ^ 63) }
        ensures file { D.file self.new.inner ≡ D.file self.old.inner }
        ensures tells { D.tells self.new.inner ≡ D.tells self.old.inner }
        ensures spare { D.spare self.new.inner ≡ D.spare self.old.inner }
        ensures left { self.new.left ≡ self.old.left }
        ensures counted { Counted (D.faults self.old.inner + self.old.stops) (D.faults self.new.inner + self.new.stops)
            (D.faults self.old.inner) (D.faults self.new.inner) self.new.left result }
        ensures behind { self.old.left ≡ Some 0 → IsErr result × (self.new.inner ≡ self.old.inner) }
    {
        if self.left == Some(0) {
            self.stops = self.stops.saturating_add(1);
            return Err(Failed);
        }
        self.inner.len()
    }

    fn read(&mut self, at: u64, buf: &mut [u8]) -> Result<(), Failed>
        requires { IsTrue (D.tells self.old.inner) → at + length buf.old ≤ length (D.file self.old.inner).seen }
        ensures bytes { OnOk result (IsTrue (D.tells self.old.inner)
            → buf.new ≡ slice_range (D.file self.old.inner).seen at (at + length buf.old)) }
        ensures file { D.file self.new.inner ≡ D.file self.old.inner }
        ensures tells { D.tells self.new.inner ≡ D.tells self.old.inner }
        ensures spare { D.spare self.new.inner ≡ D.spare self.old.inner }
        ensures left { self.new.left ≡ self.old.left }
        ensures counted { Counted (D.faults self.old.inner + self.old.stops) (D.faults self.new.inner + self.new.stops)
            (D.faults self.old.inner) (D.faults self.new.inner) self.new.left result }
        ensures behind { self.old.left ≡ Some 0 → IsErr result × (self.new.inner ≡ self.old.inner) }
    {
        if self.left == Some(0) {
            self.stops = self.stops.saturating_add(1);
            return Err(Failed);
        }
        self.inner.read(at, buf)
    }

    fn write(&mut self, at: u64, bytes: &[u8]) -> Result<(), Failed>
        requires within { IsTrue (D.tells self.old.inner) → at ≤ length (D.file self.old.inner).seen }
        requires room { length bytes.now ≤ D.spare self.old.inner }
        ensures written { OnOk result
            (IsTrue (D.tells self.old.inner) → D.file self.new.inner ≡ written at bytes.now (D.file self.old.inner)) }
        ensures missed { OnErr result (IsTrue (D.tells self.old.inner)
            → Missed (D.file self.old.inner) (written at bytes.now (D.file self.old.inner)) (D.file self.new.inner)) }
        ensures tells { D.tells self.new.inner ≡ D.tells self.old.inner }
        ensures spare { D.spare self.old.inner ≤ D.spare self.new.inner + length bytes.now }
        ensures burns { Burns self.old.left self.new.left result }
        ensures counted { Counted (D.faults self.old.inner + self.old.stops) (D.faults self.new.inner + self.new.stops)
            (D.faults self.old.inner) (D.faults self.new.inner) self.new.left result }
        ensures behind { self.old.left ≡ Some 0 → self.new.inner ≡ self.old.inner }
        ensures passed { self.old.left ≢ Some 0 → ¬ Rose (D.faults self.old.inner) (D.faults self.new.inner)
            → IsTrue (D.tells self.old.inner) → D.file self.new.inner ≡ written at bytes.now (D.file self.old.inner) }
    {
        if self.left == Some(0) {
            self.stops = self.stops.saturating_add(1);
            return Err(Failed);
        }
        self.left = lowered(self.left);
        let result = self.inner.write(at, bytes);
        if self.left == Some(0) {
            self.stops = self.stops.saturating_add(1);
            return Err(Failed);
        }
        result
    }

    fn cut(&mut self, at: u64) -> Result<(), Failed>
        requires within { IsTrue (D.tells self.old.inner) → at ≤ length (D.file self.old.inner).seen }
        ensures cut { OnOk result (IsTrue (D.tells self.old.inner) → D.file self.new.inner ≡ cut_to at (D.file self.old.inner)) }
        ensures missed { OnErr result (IsTrue (D.tells self.old.inner)
            → Missed (D.file self.old.inner) (cut_to at (D.file self.old.inner)) (D.file self.new.inner)) }
        ensures tells { D.tells self.new.inner ≡ D.tells self.old.inner }
        ensures spare { D.spare self.old.inner ≤ D.spare self.new.inner }
        ensures burns { Burns self.old.left self.new.left result }
        ensures counted { Counted (D.faults self.old.inner + self.old.stops) (D.faults self.new.inner + self.new.stops)
            (D.faults self.old.inner) (D.faults self.new.inner) self.new.left result }
        ensures behind { self.old.left ≡ Some 0 → self.new.inner ≡ self.old.inner }
        ensures passed { self.old.left ≢ Some 0 → ¬ Rose (D.faults self.old.inner) (D.faults self.new.inner)
            → IsTrue (D.tells self.old.inner) → D.file self.new.inner ≡ cut_to at (D.file self.old.inner) }
    {
        if self.left == Some(0) {
            self.stops = self.stops.saturating_add(1);
            return Err(Failed);
        }
        self.left = lowered(self.left);
        let result = self.inner.cut(at);
        if self.left == Some(0) {
            self.stops = self.stops.saturating_add(1);
            return Err(Failed);
        }
        result
    }

    fn sync(&mut self) -> Result<(), Failed>
        ensures synced { OnOk result (IsTrue (D.tells self.old.inner) → D.file self.new.inner ≡ synced (D.file self.old.inner)) }
        ensures unsynced { OnErr result (IsTrue (D.tells self.old.inner) → Unsynced (D.file self.old.inner) (D.file self.new.inner)) }
        ensures tells { D.tells self.new.inner ≡ D.tells self.old.inner }
        ensures spare { D.spare self.old.inner ≤ D.spare self.new.inner }
        ensures burns { Burns self.old.left self.new.left result }
        ensures counted { Counted (D.faults self.old.inner + self.old.stops) (D.faults self.new.inner + self.new.stops)
            (D.faults self.old.inner) (D.faults self.new.inner) self.new.left result }
        ensures stopped { self.new.left ≡ Some 0 → self.new.inner ≡ self.old.inner }
    {
        if self.left == Some(0) {
            self.stops = self.stops.saturating_add(1);
            return Err(Failed);
        }
        self.left = lowered(self.left);
        if self.left == Some(0) {
            self.stops = self.stops.saturating_add(1);
            return Err(Failed);
        }
        self.inner.sync()
    }
}

impl<D: CrashDisk> CrashDisk for Fused<D> {
    fn crash(&mut self, how: u64)
        ensures crash { IsTrue (D.tells self.old.inner) → IsCrash (D.file self.old.inner) (D.file self.new.inner) }
        ensures tells { D.tells self.new.inner ≡ D.tells self.old.inner }
        ensures own { D.faults self.new.inner ≡ D.faults self.old.inner }
        ensures faults { D.faults self.new.inner + self.new.stops ≡ D.faults self.old.inner + self.old.stops }
        ensures disarmed { self.new.left ≡ None }
    {
        self.inner.crash(how);
        self.left = None;
    }
}
