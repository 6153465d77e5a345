//! What stands of the two disks of a node that is down, call by call.
ghost use Rattle.std.specs.Prelude.{◌≤◌, ℕ, List, ◌∷◌, Some, length};
ghost use Rattle.score_base.specs.declared.ids.NodeId.{NodeId};
ghost use Rattle.score_base.specs.declared.records.Record.{Record};
ghost use Rattle.grid_model.specs.declared.acts.Act.{Act};
ghost use Rattle.grid_model.specs.declared.acts.Act.TheVariants as act;
ghost use Rattle.grid_model.specs.Documents.{DocumentData};
ghost use Rattle.disk_laws.specs.Shown.{Shown, Seats};
ghost use Rattle.disk_laws.specs.Calls.{CameUp, FailedToOpen, HasCrashed, armed};
ghost use Rattle.disk_laws.specs.Seats.{StandsDown, UpBehind, DownBehind, flag_by};

/// The disks of a node that is down stand, and promise their act, behind an arming, behind an opening that comes
/// up, which tells by the generation and the number of its records what it found, and behind one that fails with
/// the crash of both.
pub fn law_seats_down()
    ensures arms { (d : DocumentData) (past : List Act) (n : NodeId) (number k how : ℕ) (first second : Shown) →
        StandsDown d past n number first second → 1 ≤ k →
        DownBehind d past n (act.Armed n k how) number first second (armed (Some k) first) (armed (Some k) second) }
    ensures opens { (d : DocumentData) (past : List Act) (n : NodeId) (number number' : ℕ) (records : List Record)
        (first second : Shown) (t : Seats) → StandsDown d past n number first second →
        CameUp records number' first second t →
        UpBehind d past n (act.Up n (flag_by d past n number number' (length records))) number' first second t }
    ensures fails { (d : DocumentData) (past : List Act) (n : NodeId) (number : ℕ) (first second a b : Shown)
        (first' second' : Shown) → StandsDown d past n number first second → FailedToOpen first second a b →
        HasCrashed a first' → HasCrashed b second' →
        DownBehind d past n (act.StillDown n) number first second first' second' }
{}
