//! A log as it is written is a log as it is read, and so are two files while a compaction writes one of them.
ghost use Rattle.std.specs.Prelude.{◌≡◌, ◌≤◌, ◌<◌, ◌^◌, ℕ, Bool, List, [], ◌∷◌, ◌++◌, Ok, Some, length, All};
ghost use Rattle.score_base.specs.declared.records.Record.{Record};
ghost use Rattle.node_journal.specs.Log.{generation, IsLog, log};
ghost use Rattle.score_disk.specs.Files.{File, IsSettled};
ghost use Rattle.journal_records.specs.Records.{IsRecord};
ghost use Rattle.node_journal.specs.Pairs.{age, filling, in_order, IsLive, LeavesPair, LeavesPairOneOf, LeavesStale, LeavesStaleOr};

/// The form of a log by which it is written, with the place of its closed gate, is the form by which
/// it is read. A file of at most two bytes holds no record.
pub fn law_log()
    ensures forms { (bytes : List ℕ) (records : List Record) (gate : ℕ) → IsLog bytes records gate → log bytes ≡ Ok records }
    ensures short { (bytes : List ℕ) → length bytes ≤ 2 → log bytes ≡ Ok [] }
{}

/// A file of version 2 as a compaction writes it has its generation and is a log of its records.
/// While it is written over the other of two files, the two stay a log of the old records or, from
/// the opening of its version on, of the new.
pub fn law_compaction()
    ensures generation { (g : ℕ) (records : List Record) → g < 2 ^ 64 → generation (2 ∷ filling g records) ≡ Some g }
    ensures log { (g : ℕ) (records : List Record) → All IsRecord records → log (2 ∷ filling g records) ≡ Ok records }
    ensures torn { (second : Bool) (live other now : File) (bytes : List ℕ) (old new : List Record) →
        IsSettled live → log live.seen ≡ Ok old → IsLive second live.seen other.seen →
        age (generation live.seen) < age (generation bytes) → log bytes ≡ Ok new →
        LeavesStaleOr (generation other.seen) bytes now → in_order second (LeavesPairOneOf old new) live now }
    ensures early { (second : Bool) (live other now : File) (old : List Record) →
        IsSettled live → log live.seen ≡ Ok old → IsLive second live.seen other.seen →
        LeavesStale (generation other.seen) now → in_order second (LeavesPair old) live now }
{}
