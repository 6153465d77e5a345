//! What stands of the two disks of a node that is up, call by call.
ghost use Rattle.std.specs.Prelude.{◌≡◌, ◌≤◌, ℕ, ◌+◌, IsTrue, List, ◌∷◌, Some, None, reverse};
ghost use Rattle.score_base.specs.declared.ids.NodeId.{NodeId};
ghost use Rattle.score_base.specs.declared.records.Record.{Record};
ghost use Rattle.grid_model.specs.declared.acts.Act.{Act};
ghost use Rattle.grid_model.specs.declared.acts.Act.TheVariants as act;
ghost use Rattle.grid_model.specs.declared.acts.Head.{Head};
ghost use Rattle.grid_model.specs.declared.acts.Head.TheVariants as head;
ghost use Rattle.grid_model.specs.Documents.{DocumentData};
ghost use Rattle.grid_model.specs.Nodes.{Writes, change, got, record_of};
ghost use Rattle.grid_model.specs.Disks.{disklog};
ghost use Rattle.grid_model.specs.Fuses.{is_record_at};
ghost use Rattle.disk_laws.specs.Shown.{Shown, Seats, first_seat, second_seat};
ghost use Rattle.disk_laws.specs.Calls.{HasAppended, HasCompacted, HasCrashed, WasCut, WasCutSmall, both_armed};
ghost use Rattle.disk_laws.specs.Seats.{StandsUp, UpBehind, DownBehind};

/// The disks of a node that is up stand, and promise their act, behind a record that was kept, behind a stop in a
/// record with the crash of both, behind a compaction with the fuses disarmed, behind a stop in one with the crash
/// of both, behind a crash, and behind an arming.
pub fn law_seats_up()
    ensures keeps { (d : DocumentData) (past : List Act) (n : NodeId) (a : Act) (x : Record) (number : ℕ)
        (s t : Seats) → StandsUp d past n number s → IsTrue (is_record_at d a n) →
        change d (got past) a n ≡ Writes (Some x) →
        HasAppended (reverse (disklog d past n)) x number s t →
        UpBehind d past n a number (first_seat s) (second_seat s) t }
    ensures stops { (d : DocumentData) (past : List Act) (n : NodeId) (number : ℕ) (h : Head) (x : Record) (s : Seats)
        (a b first second : Shown) → StandsUp d past n number s → record_of d (got past) h ≡ Some x →
        WasCut (reverse (disklog d past n)) x number s a b → HasCrashed a first → HasCrashed b second →
        DownBehind d past n (act.Down n (Some h)) number (first_seat s) (second_seat s) first second }
    ensures compacts { (d : DocumentData) (past : List Act) (n : NodeId) (number : ℕ) (s t : Seats) →
        StandsUp d past n number s → HasCompacted (reverse (disklog d past n)) number s t →
        UpBehind d past n (act.Compacted n) (number + 1) (first_seat s) (second_seat s) (both_armed None t) }
    ensures stops_small { (d : DocumentData) (past : List Act) (n : NodeId) (number : ℕ) (s : Seats)
        (a b first second : Shown) → StandsUp d past n number s →
        WasCutSmall (reverse (disklog d past n)) number s a b → HasCrashed a first → HasCrashed b second →
        DownBehind d past n (act.Down n (Some head.Compact)) number (first_seat s) (second_seat s) first second }
    ensures crashes { (d : DocumentData) (past : List Act) (n : NodeId) (number : ℕ) (s : Seats)
        (first second : Shown) → StandsUp d past n number s → HasCrashed (first_seat s) first →
        HasCrashed (second_seat s) second →
        DownBehind d past n (act.Down n None) number (first_seat s) (second_seat s) first second }
    ensures arms { (d : DocumentData) (past : List Act) (n : NodeId) (number k how : ℕ) (s : Seats) →
        StandsUp d past n number s → 1 ≤ k →
        UpBehind d past n (act.Armed n k how) number (first_seat s) (second_seat s) (both_armed (Some k) s) }
{}
