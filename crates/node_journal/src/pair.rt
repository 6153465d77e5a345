//! The two disks of a node: a journal on the live one, which a compaction turns to the other.
ghost use Rattle.std.specs.Prelude.{◌≡◌, ◌≢◌, ◌⊎◌, ℕ, ◌+◌, ◌-◌, ◌<◌, ◌≤◌, ◌^◌, ◌++◌, Bool, List, [], ◌∷◌, Some, None, Ok, Err, length, vec_len, vec_capacity, not, true, false, IsTrue, IfOk, IfErr, OnOk, OnErr, All};
ghost use Rattle.score_base.specs.declared.records.Record.{Record};
ghost use Rattle.score_disk.specs.Files.{Settled, IsSettled, synced, written};
ghost use Rattle.journal_records.specs.Records.{CanEncode};
ghost use Rattle.node_journal.specs.Calls.{HasRoom};
ghost use Rattle.node_journal.specs.Ends.{MatchPairEnd};
ghost use Rattle.node_journal.specs.Log.{generation, log};
ghost use Rattle.node_journal.specs.Torn.{LeavesAsBefore, LeavesVersion};
ghost use Rattle.node_journal.specs.Pairs.{in_order, IsListed, IsLive, listed_in, number_of};
ghost use Rattle.node_journal.specs.Sets.{IsLog-prop};

use crate::compacting::compact_into;
use crate::ends::{Compacting, OpenEnd, PairEnd, PairStopped, Stopped};
use crate::journal::Journal;
use crate::kept::Kept;
use crate::listing::{put_listed, records_in};
use crate::pair_opening::{generation_of, is_younger, number};
use crate::spelling::{respell, spell};
use journal_words::records::small;
use score_base::{Memory, Record};
use score_disk::{CrashDisk, Disk, Fused};
use std::alloc::Global;

/// A record's length, its longest body, and the gates before and behind it.
const LONGEST_BLOCK: usize = 4100;

/// A log of so many bytes has no room; no memory holds more.
const LONGEST_FILE: usize = 1 << 62;

/// The two disks of a node: a journal on the live one, and the other beside it.
#[derive(Drop)]
pub struct Pair<D: Disk> {
    live: Journal<D>,
    other: D,
    second: bool,
    number: u64,
    /// The live log as a file of version 2, without its version.
    listed: Vec<u8>,
    /// The file that a compaction is to write, without its version.
    spelled: Vec<u8>,
    ghost settled: { Settled (D.tells other) (D.file other) },
    ghost is_live: { IsTrue (D.tells live.disk) → IsTrue (D.tells other) →
        IsLive second (D.file live.disk).seen (D.file other).seen },
    ghost numbered: { IsTrue (D.tells live.disk) → number_of (generation (D.file live.disk).seen) ≡ number },
    ghost is_listed: { IsListed listed.items } by { Prim.hlevel IsLog-prop },
    ghost same: { IsTrue (D.tells live.disk) → log (D.file live.disk).seen ≡ Ok (listed_in listed.items) },
    ghost counted: { live.count ≡ length (listed_in listed.items) },
}

/// The two disks, each in its place.
fn in_places<D: Drop>(live: D, other: D, second: bool) -> (D, D)
    ensures first { result.0 ≡ in_order second (λ first _. first) live other }
    ensures last { result.1 ≡ in_order second (λ _ last. last) live other }
{
    if second { (other, live) } else { (live, other) }
}

impl<D: Disk> Pair<D> {
    ghost use Rattle.node_journal.specs.PairDisks.{TellsBoth, first_of, last_of, list_of, pair_log_of};
    ghost use Rattle.node_journal.specs.PairDisks.{HasPairRoom, IsPairAtRest, IsReady, PairFailed};
    ghost use Rattle.journal_words.specs.Small.{small_in_time};
    ghost use Rattle.node_journal.specs.Pairs.{pair_log, second_lives, LeavesPair, LeavesPairOneOf, LeavesLog, LeavesLogOr};
    ghost use Rattle.node_journal.specs.Spending.{Spent, Halted, Untouched, Opened};

    /// Opens the journal on the live disk of the two.
    fn open_live(
        alloc: Global,
        live: D,
        other: D,
        second: bool,
        number: u64,
    ) -> Result<(Pair<D>, Vec<Record>), PairEnd<D>>
        requires live { Settled (D.tells live) (D.file live) }
        requires other { Settled (D.tells other) (D.file other) }
        requires is_live { IsTrue (D.tells live) → IsTrue (D.tells other) →
            IsLive second (D.file live).seen (D.file other).seen }
        requires numbered { IsTrue (D.tells live) → number_of (generation (D.file live).seen) ≡ number }
        ensures log { IfOk result (λ x. IsTrue (D.tells live) → log (D.file live).seen ≡ Ok x.1.items) }
        ensures list { IfOk result (λ x. list_of x.0 ≡ x.1.items) }
        ensures rest { IfOk result (λ x. IsTrue (D.tells live) → IsTrue (D.tells other) → IsPairAtRest x.0 x.1.items) }
        ensures turned { IfOk result (λ x. x.0.second ≡ second) }
        ensures opened { IfOk result (λ x. Opened D.Disk live x.0.live.disk) }
        ensures kept { IfOk result (λ x. IsTrue (D.tells live) → 2 < length (D.file live).seen →
            Untouched D.Disk live x.0.live.disk) }
        ensures anew { IfOk result (λ x. IsTrue (D.tells live) → length (D.file live).seen ≤ 2 →
            D.file x.0.live.disk ≡ synced (written 0 (1 ∷ 0 ∷ []) (D.file live))) }
        ensures other { IfOk result (λ x. x.0.other ≡ other) }
        ensures end_left { IfErr result (λ e. MatchPairEnd e
            (λ a b. IsTrue (D.tells live) → 2 < length (D.file live).seen →
            D.left (in_order second (λ live _. live) a b) ≡ D.left live) (λ a b at. Unit {0}) (λ a b. Unit {0})) }
        ensures end { IfErr result (λ e. MatchPairEnd e
            (λ a b. Halted D.Disk 2 live (in_order second (λ live _. live) a b)
            × (in_order second (λ _ other. other) a b ≡ other)
            × (IsTrue (D.tells live) → LeavesAsBefore (D.file live) (D.file (in_order second (λ live _. live) a b))))
            (λ a b at. Untouched D.Disk live (in_order second (λ live _. live) a b)
            × (in_order second (λ _ other. other) a b ≡ other)
            × (IsTrue (D.tells live) → log (D.file live).seen ≡ Err at))
            (λ a b. Untouched D.Disk live (in_order second (λ live _. live) a b)
            × (in_order second (λ _ other. other) a b ≡ other))) }
    {
        let mut listed = Vec::new(alloc);
        if spell(&mut listed, number, &[]).is_err() {
            let (first, last) = in_places(live, other, second);
            return Err(PairEnd::Memory(first, last));
        }
        match Journal::open(alloc, live) {
            Ok((live, records)) => match respell(&mut listed, number, records.as_slice()) {
                Ok(()) => Ok((
                    Pair {
                        live,
                        other,
                        second,
                        number,
                        listed,
                        spelled: Vec::new(alloc),
                    },
                    records,
                )),
                Err(_) => {
                    let (first, last) = in_places(live.stop(), other, second);
                    Err(PairEnd::Memory(first, last))
                }
            },
            Err(OpenEnd::Failed(disk)) => {
                let (first, last) = in_places(disk, other, second);
                Err(PairEnd::Failed(first, last))
            }
            Err(OpenEnd::NotJournal(disk, place)) => {
                let (first, last) = in_places(disk, other, second);
                Err(PairEnd::NotJournal(first, last, place))
            }
            Err(OpenEnd::Memory(disk)) => {
                let (first, last) = in_places(disk, other, second);
                Err(PairEnd::Memory(first, last))
            }
        }
    }

    /// Opens the two disks, both settled, and gives the records of the live one. The first is made anew
    /// with one write and one sync where neither file has a generation and the first has at most two
    /// bytes; else neither disk gets a write, cut or sync. All memory for making anew is taken before
    /// the write, so after [`PairEnd::Memory`] both disks are as before but for room.
    pub fn open(alloc: Global, first: D, second: D) -> Result<(Pair<D>, Vec<Record>), PairEnd<D>>
        requires first { Settled (D.tells first) (D.file first) }
        requires second { Settled (D.tells second) (D.file second) }
        ensures list { IfOk result (λ x. list_of x.0 ≡ x.1.items) }
        ensures log { IfOk result (λ x. IsTrue (D.tells first) → IsTrue (D.tells second) →
            pair_log (D.file first).seen (D.file second).seen ≡ Ok x.1.items) }
        ensures rest { IfOk result (λ x. IsTrue (D.tells first) → IsTrue (D.tells second) →
            IsPairAtRest x.0 x.1.items) }
        ensures opened { IfOk result (λ x.
            (Opened D.Disk first (first_of x.0) × Untouched D.Disk second (last_of x.0))
            ⊎ (Untouched D.Disk first (first_of x.0) × Opened D.Disk second (last_of x.0))) }
        ensures first_only { IfOk result (λ x. IsTrue (D.tells first) → IsTrue (D.tells second) →
            Opened D.Disk first (first_of x.0) × Untouched D.Disk second (last_of x.0)) }
        ensures kept { IfOk result (λ x. IsTrue (D.tells first) → IsTrue (D.tells second) →
            (second_lives (D.file first).seen (D.file second).seen ≡ true) ⊎ (2 < length (D.file first).seen) →
            Untouched D.Disk first (first_of x.0) × Untouched D.Disk second (last_of x.0)) }
        ensures anew { IfOk result (λ x. IsTrue (D.tells first) → IsTrue (D.tells second) →
            second_lives (D.file first).seen (D.file second).seen ≡ false → length (D.file first).seen ≤ 2 →
            D.file (first_of x.0) ≡ synced (written 0 (1 ∷ 0 ∷ []) (D.file first))) }
        ensures failed { IfErr result (λ e. IsTrue (D.tells first) → IsTrue (D.tells second) → MatchPairEnd e
            (λ a b. PairFailed D.Disk first second a b) (λ a b at. Unit {0}) (λ a b. Unit {0})) }
        ensures end { IfErr result (λ e. MatchPairEnd e
            (λ a b. ((Halted D.Disk 2 first a × Untouched D.Disk second b)
            ⊎ (Untouched D.Disk first a × Halted D.Disk 2 second b))
            × (IsTrue (D.tells first) → IsTrue (D.tells second) →
            LeavesAsBefore (D.file first) (D.file a) × (D.file b ≡ D.file second)))
            (λ a b at. Untouched D.Disk first a × Untouched D.Disk second b
            × (IsTrue (D.tells first) → IsTrue (D.tells second) →
            pair_log (D.file first).seen (D.file second).seen ≡ Err at))
            (λ a b. Untouched D.Disk first a × Untouched D.Disk second b)) }
    {
        let mut first = first;
        let mut second = second;
        let one = match generation_of(&mut first) {
            Ok(one) => one,
            Err(_) => return Err(PairEnd::Failed(first, second)),
        };
        let two = match generation_of(&mut second) {
            Ok(two) => two,
            Err(_) => return Err(PairEnd::Failed(first, second)),
        };
        if is_younger(one, two) {
            Pair::open_live(alloc, second, first, true, number(two))
        } else {
            Pair::open_live(alloc, first, second, false, number(one))
        }
    }

    /// The generation of the live file; 0 where it is of version 1.
    pub fn generation(&self) -> u64
        ensures value { result ≡ self.now.number }
        ensures live { IsTrue (D.tells self.now.live.disk) →
            result ≡ number_of (generation (D.file self.now.live.disk).seen) }
    {
        self.number
    }

    /// The number of records of the live file.
    pub fn count(&self) -> u64
        ensures { result ≡ length (list_of self.now) }
    {
        self.live.count()
    }

    /// What a compaction keeps of the pair's list: the records that the opening gave, or that the last
    /// compaction wrote, with those that were appended since. It makes no device call.
    pub fn small(&self) -> Result<Vec<Record>, Memory>
        ensures small { IfOk result (λ records. records.items ≡ small_in_time (list_of self.now)) }
        ensures fit { IfOk result (λ records. All CanEncode records.items) }
    {
        small(records_in(*self.listed.allocator(), self.listed.as_slice())?)
    }

    /// Makes room for one record, on the live disk and in memory, as [`Journal::room`].
    pub fn room(&mut self) -> Result<(), Memory>
        ensures room { OnOk result (HasPairRoom self.new) }
        ensures live { Untouched D.Disk self.old.live.disk self.new.live.disk }
        ensures other { self.new.other ≡ self.old.other }
        ensures second { self.new.second ≡ self.old.second }
        ensures number { self.new.number ≡ self.old.number }
        ensures list { list_of self.new ≡ list_of self.old }
    {
        self.listed.reserve(LONGEST_BLOCK)?;
        self.live.room()
    }

    /// Gives up the pair for its disks, which are settled.
    pub fn stop(self) -> (D, D)
        ensures settled_first { Settled (D.tells result.0) (D.file result.0) }
        ensures settled_last { Settled (D.tells result.1) (D.file result.1) }
        ensures log { TellsBoth self → pair_log (D.file result.0).seen (D.file result.1).seen ≡ Ok (list_of self) }
        ensures first { result.0 ≡ in_order self.second (λ first _. first) self.live.disk self.other }
        ensures last { result.1 ≡ in_order self.second (λ _ last. last) self.live.disk self.other }
    {
        let Pair {
            live,
            other,
            second,
            number: _,
            listed: _,
            spelled: _,
        } = self;
        in_places(live.stop(), other, second)
    }

    /// Appends a record to the journal on the live disk, as [`Journal::append`]; the other disk is
    /// untouched.
    pub fn append(self, rec: Record) -> Result<(Pair<D>, Kept), PairStopped<D>>
        requires room { HasPairRoom self }
        requires fit { CanEncode rec }
        ensures kept { IfOk result (λ x. x.1.rec ≡ rec) }
        ensures list { IfOk result (λ x. list_of x.0 ≡ list_of self ++ rec ∷ []) }
        ensures appended { IfOk result (λ x. TellsBoth self → IsPairAtRest x.0 (list_of self ++ rec ∷ [])) }
        ensures other { IfOk result (λ x. x.0.other ≡ self.other) }
        ensures live { IfOk result (λ x. x.0.second ≡ self.second) }
        ensures number { IfOk result (λ x. x.0.number ≡ self.number) }
        ensures spent { IfOk result (λ x. Spent D.Disk 4 self.live.disk x.0.live.disk) }
        ensures stopped { IfErr result (λ s. TellsBoth self →
            LeavesPairOneOf (list_of self) (list_of self ++ rec ∷ []) (D.file s.first) (D.file s.second)) }
        ensures early { IfErr result (λ s. TellsBoth self → (k : ℕ) → D.left self.live.disk ≡ Some k → k ≤ 2 →
            LeavesPair (list_of self) (D.file s.first) (D.file s.second)) }
        ensures version { IfErr result (λ s. TellsBoth self → LeavesVersion (generation (D.file self.live.disk).seen)
            (D.file (in_order self.second (λ live _. live) s.first s.second))) }
        ensures rec { IfErr result (λ s. s.rec ≡ rec) }
        ensures other_kept { IfErr result (λ s. in_order self.second (λ _ other. other) s.first s.second ≡ self.other) }
        ensures halted { IfErr result
            (λ s. Halted D.Disk 4 self.live.disk (in_order self.second (λ live _. live) s.first s.second)) }
    {
        let Pair {
            live,
            other,
            second,
            number,
            mut listed,
            spelled,
        } = self;
        match live.append(rec) {
            Ok((live, kept)) => {
                put_listed(&mut listed, live.last_frame());
                Ok((
                    Pair {
                        live,
                        other,
                        second,
                        number,
                        listed,
                        spelled,
                    },
                    kept,
                ))
            }
            Err(stopped) => {
                let Stopped { disk, rec } = stopped;
                let (first, last) = in_places(disk, other, second);
                Err(PairStopped {
                    first,
                    second: last,
                    rec,
                })
            }
        }
    }

    /// Spells the records under the next generation, and makes room for them on the other disk. All
    /// else is as before, also after [`Memory`].
    pub fn room_for(&mut self, records: &Vec<Record>) -> Result<(), Memory>
        requires fit { All CanEncode records.now.items }
        requires below { self.old.number < 2 ^ 64 - 1 }
        ensures ready { OnOk result (IsReady self.new records.now.items) }
        ensures live { self.new.live ≡ self.old.live }
        ensures number { self.new.number ≡ self.old.number }
        ensures second { self.new.second ≡ self.old.second }
        ensures list { list_of self.new ≡ list_of self.old }
        ensures other { Untouched D.Disk self.old.other self.new.other }
    {
        spell(&mut self.spelled, self.number + 1, records)?;
        if self.spelled.len() >= LONGEST_FILE {
            return Err(Memory);
        }
        self.other.room(self.spelled.len() as u64 + 2)
    }

    /// Writes the records, what a compaction keeps of the pair's log, into the other disk under the
    /// next generation, with six or eight device calls; from then on that disk is the live one. It
    /// takes no memory, and the live disk isn't written. [`Compacting`] comes only where the other
    /// disk's count of faults rose; then every pair of images is a log of the old records or of these.
    pub fn compact(self, records: &Vec<Record>) -> Result<Pair<D>, Compacting<D>>
        requires small { records.now.items ≡ small_in_time (list_of self) }
        requires ready { IsReady self records.now.items }
        requires below { self.number < 2 ^ 64 - 1 }
        ensures list { IfOk result (λ p. list_of p ≡ records.now.items) }
        ensures compacted { IfOk result (λ p. TellsBoth self → IsPairAtRest p records.now.items) }
        ensures number { IfOk result (λ p. p.number ≡ self.number + 1) }
        ensures turned { IfOk result (λ p. p.second ≡ not self.second) }
        ensures live_left { IfOk result (λ p. p.other ≡ self.live.disk) }
        ensures spent { IfOk result
            (λ p. Spent D.Disk 6 self.other p.live.disk ⊎ Spent D.Disk 8 self.other p.live.disk) }
        ensures stopped { IfErr result (λ c. TellsBoth self →
            LeavesPairOneOf (list_of self) (small_in_time (list_of self)) (D.file c.first) (D.file c.second)) }
        ensures early { IfErr result (λ c. TellsBoth self → (k : ℕ) → D.left self.other ≡ Some k → k ≤ 4 →
            LeavesPair (list_of self) (D.file c.first) (D.file c.second)) }
        ensures stopped_log { IfErr result (λ c. TellsBoth self →
            LeavesLogOr (list_of self) self.number (small_in_time (list_of self)) (self.number + 1)
            (D.file c.first) (D.file c.second)) }
        ensures early_log { IfErr result (λ c. TellsBoth self → (k : ℕ) → D.left self.other ≡ Some k → k ≤ 4 →
            LeavesLog (list_of self) self.number (D.file c.first) (D.file c.second)) }
        ensures live_kept { IfErr result (λ c. in_order self.second (λ live _. live) c.first c.second
            ≡ self.live.disk) }
        ensures halted { IfErr result
            (λ c. Halted D.Disk 8 self.other (in_order self.second (λ _ other. other) c.first c.second)) }
    {
        let Pair {
            live,
            mut other,
            second,
            number,
            listed,
            spelled,
        } = self;
        match compact_into(&mut other, spelled.as_slice()) {
            Ok(()) => {
                let (live, left) = live.move_to(other, spelled.len() as u64, records.len() as u64);
                Ok(Pair {
                    live,
                    other: left,
                    second: !second,
                    number: number + 1,
                    listed: spelled,
                    spelled: listed,
                })
            }
            Err(_) => {
                let (first, last) = in_places(live.stop(), other, second);
                Err(Compacting {
                    first,
                    second: last,
                })
            }
        }
    }
}

impl<D: CrashDisk> Pair<Fused<D>> {
    /// Arms the fuses of both disks with `k`, at least 1. All else is as before.
    pub fn arm(&mut self, k: u64)
        requires { 1 ≤ k }
        ensures live { self.new.live.disk ≡ record self.old.live.disk { left = Some k } }
        ensures other { self.new.other ≡ record self.old.other { left = Some k } }
        ensures gate { self.new.live.gate ≡ self.old.live.gate }
        ensures scratch { self.new.live.scratch ≡ self.old.live.scratch }
        ensures body { self.new.live.body ≡ self.old.live.body }
        ensures frame { self.new.live.frame ≡ self.old.live.frame }
        ensures listed { self.new.listed ≡ self.old.listed }
        ensures spelled { self.new.spelled ≡ self.old.spelled }
        ensures second { self.new.second ≡ self.old.second }
        ensures number { self.new.number ≡ self.old.number }
    {
        self.live.arm(k);
        self.other.arm(k);
    }

    /// Disarms the fuses of both disks. All else is as before.
    pub fn disarm(&mut self)
        ensures live { self.new.live.disk ≡ record self.old.live.disk { left = None } }
        ensures other { self.new.other ≡ record self.old.other { left = None } }
        ensures gate { self.new.live.gate ≡ self.old.live.gate }
        ensures scratch { self.new.live.scratch ≡ self.old.live.scratch }
        ensures body { self.new.live.body ≡ self.old.live.body }
        ensures frame { self.new.live.frame ≡ self.old.live.frame }
        ensures listed { self.new.listed ≡ self.old.listed }
        ensures spelled { self.new.spelled ≡ self.old.spelled }
        ensures second { self.new.second ≡ self.old.second }
        ensures number { self.new.number ≡ self.old.number }
    {
        self.live.disarm();
        self.other.disarm();
    }
}
