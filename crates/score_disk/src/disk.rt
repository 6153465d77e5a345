//! What a disk does, how it may fail, and what a crash may leave.
ghost use Rattle.std.specs.Prelude.{◌≡◌, ◌≤◌, ◌<◌, ◌^◌, ℕ, ◌+◌, length, slice_range, Option, Bool, IsTrue, IfOk, OnOk, OnErr};
ghost use Rattle.score_disk.specs.Files.{File, IsSound, written, cut_to, synced, Missed, Unsynced, IsCrash};
ghost use Rattle.score_disk.specs.Counts.{Counted, Burns};

use score_base::{Failed, Memory};

/// A file of bytes whose calls may fail.
///
/// Whatever the disk: a call answers [`Failed`] only where the count of faults rose in that call,
/// and a call that answers Ok leaves both counts. Where `left` is a number, each write, cut and sync
/// lowers it by one, down to 0, and fails where it is 0 afterwards; no other call but a crash moves
/// it. Whether a disk tells its file never changes.
pub trait Disk: Drop {
    /// Whether the file is told.
    ghost tells: { Self → Bool };

    /// The file. Where it isn't told, this says nothing.
    ghost file: { Self → File };

    /// How many bytes writes may still use.
    ghost spare: { Self → ℕ };

    /// How many writes, cuts and syncs are left before the fuse stops one, or none.
    ghost left: { Self → Option ℕ };

    /// The count of faults without a fuse's own.
    ghost own: { Self → ℕ };

    /// The count of faults.
    ghost faults: { Self → ℕ };

    /// Makes room for `n` bytes: afterwards `spare` is at least `n`. The length and `spare` together
    /// stay below 2^63; no memory holds more, so a request for more is a want of memory like any
    /// other. After [`Memory`] all is as before.
    fn room(&mut self, n: u64) -> Result<(), Memory>
        ensures room { OnOk result (n ≤ spare self.new) }
        ensures grows { spare self.old ≤ spare self.new }
        ensures err { OnErr result (spare self.new ≡ spare self.old) }
        ensures file { file self.new ≡ file self.old }
        ensures tells { tells self.new ≡ tells self.old }
        ensures left { left self.new ≡ left self.old }
        ensures own { own self.new ≡ own self.old }
        ensures faults { faults self.new ≡ faults self.old };

    /// The number of bytes. After [`Failed`] the disk is as before but for the count.
    fn len(&mut self) -> Result<u64, Failed>
        ensures len { IfOk result (λ n. IsTrue (tells self.old) → n ≡ length (file self.old).seen) }
        ensures bounded { IfOk result (λ n. n < 2 ^ 63) }
        ensures file { file self.new ≡ file self.old }
        ensures tells { tells self.new ≡ tells self.old }
        ensures spare { spare self.new ≡ spare self.old }
        ensures left { left self.new ≡ left self.old }
        ensures counted { Counted (faults self.old) (faults self.new) (own self.old) (own self.new) (left self.new) result };

    /// The bytes from `at` on, as many as `buf` has. After [`Failed`] the disk is as before but for
    /// the count, and nothing is said of `buf`.
    fn read(&mut self, at: u64, buf: &mut [u8]) -> Result<(), Failed>
        requires { IsTrue (tells self.old) → at + length buf.old ≤ length (file self.old).seen }
        ensures bytes { OnOk result
            (IsTrue (tells self.old) → buf.new ≡ slice_range (file self.old).seen at (at + length buf.old)) }
        ensures file { file self.new ≡ file self.old }
        ensures tells { tells self.new ≡ tells self.old }
        ensures spare { spare self.new ≡ spare self.old }
        ensures left { left self.new ≡ left self.old }
        ensures counted { Counted (faults self.old) (faults self.new) (own self.old) (own self.new) (left self.new) result };

    /// Puts the bytes at `at`, over those that are there and past the end. The places are touched,
    /// also after [`Failed`], when a read gives at each untouched place what it gave before.
    fn write(&mut self, at: u64, bytes: &[u8]) -> Result<(), Failed>
        requires within { IsTrue (tells self.old) → at ≤ length (file self.old).seen }
        requires room { length bytes.now ≤ spare self.old }
        ensures written { OnOk result (IsTrue (tells self.old) → file self.new ≡ written at bytes.now (file self.old)) }
        ensures missed { OnErr result
            (IsTrue (tells self.old) → Missed (file self.old) (written at bytes.now (file self.old)) (file self.new)) }
        ensures tells { tells self.new ≡ tells self.old }
        ensures spare { spare self.old ≤ spare self.new + length bytes.now }
        ensures burns { Burns (left self.old) (left self.new) result }
        ensures counted { Counted (faults self.old) (faults self.new) (own self.old) (own self.new) (left self.new) result };

    /// Ends the file at `at`. The places from there up to the greatest length are touched, also
    /// after [`Failed`], when a read gives at each untouched place what it gave before.
    fn cut(&mut self, at: u64) -> Result<(), Failed>
        requires within { IsTrue (tells self.old) → at ≤ length (file self.old).seen }
        ensures cut { OnOk result (IsTrue (tells self.old) → file self.new ≡ cut_to at (file self.old)) }
        ensures missed { OnErr result
            (IsTrue (tells self.old) → Missed (file self.old) (cut_to at (file self.old)) (file self.new)) }
        ensures tells { tells self.new ≡ tells self.old }
        ensures spare { spare self.old ≤ spare self.new }
        ensures burns { Burns (left self.old) (left self.new) result }
        ensures counted { Counted (faults self.old) (faults self.new) (own self.old) (own self.new) (left self.new) result };

    /// Settles the disk: a crash leaves then what a read gives, and nothing else. After [`Failed`]
    /// the touched places and the two lengths are as before, and a read gives at each untouched
    /// place what it gave before.
    fn sync(&mut self) -> Result<(), Failed>
        ensures synced { OnOk result (IsTrue (tells self.old) → file self.new ≡ synced (file self.old)) }
        ensures unsynced { OnErr result (IsTrue (tells self.old) → Unsynced (file self.old) (file self.new)) }
        ensures tells { tells self.new ≡ tells self.old }
        ensures spare { spare self.old ≤ spare self.new }
        ensures burns { Burns (left self.old) (left self.new) result }
        ensures counted { Counted (faults self.old) (faults self.new) (own self.old) (own self.new) (left self.new) result };

    /// The length lies between the least and the greatest, and each place past the least is touched.
    ghost sound: { (d : Self) → IsTrue (tells d) → IsSound (file d) };

    /// The length and `spare` together stay below 2^63.
    ghost bounded: { (d : Self) → IsTrue (tells d) → length (file d).seen + spare d < 2 ^ 63 };
}

/// A disk that may crash.
pub trait CrashDisk: Disk {
    /// Leaves one of the images; which one, `how` may tell. Afterwards a read gives that image, and
    /// the disk is settled. It takes no memory and can't fail.
    fn crash(&mut self, how: u64)
        ensures crash { IsTrue (Self.tells self.old) → IsCrash (Self.file self.old) (Self.file self.new) }
        ensures tells { Self.tells self.new ≡ Self.tells self.old }
        ensures own { Self.own self.new ≡ Self.own self.old }
        ensures faults { Self.faults self.new ≡ Self.faults self.old };
}
