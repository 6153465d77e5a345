//! What stands of the two disks of a node at the start.
ghost use Rattle.std.specs.Prelude.{◌≢◌, ◌≤◌, ℕ, IsTrue, List, [], ◌∷◌};
ghost use Rattle.score_base.specs.declared.ids.NodeId.{NodeId};
ghost use Rattle.score_base.specs.declared.records.Record.{Record};
ghost use Rattle.grid_model.specs.declared.acts.Act.{Act};
ghost use Rattle.grid_model.specs.declared.acts.Act.TheVariants as act;
ghost use Rattle.grid_model.specs.declared.acts.Flag.TheVariants as flag;
ghost use Rattle.grid_model.specs.Documents.{DocumentData};
ghost use Rattle.disk_laws.specs.DiskActs.{is_of_disk};
ghost use Rattle.disk_laws.specs.Shown.{Shown, Seats};
ghost use Rattle.disk_laws.specs.Calls.{CameUp, FailedToOpen, HasCrashed, IsNew};
ghost use Rattle.disk_laws.specs.Seats.{StandsNew, UpBehind, DownBehind};

/// Two new disks are those of a node that was never opened, and stay so behind the acts of other nodes. Its first
/// opening comes up with nothing in doubt, or fails, and then a count rose.
pub fn law_seats_new()
    ensures empty { (d : DocumentData) (n : NodeId) (first second : Shown) →
        IsNew first → IsNew second → StandsNew d [] n first second }
    ensures others { (d : DocumentData) (past : List Act) (a : Act) (m n : NodeId) (first second : Shown) →
        IsTrue (is_of_disk d m a) → m ≢ n → StandsNew d past n first second → StandsNew d (a ∷ past) n first second }
    ensures opens { (d : DocumentData) (past : List Act) (n : NodeId) (number : ℕ) (records : List Record)
        (first second : Shown) (t : Seats) → StandsNew d past n first second → CameUp records number first second t →
        UpBehind d past n (act.Up n flag.Untouched) number first second t }
    ensures fails { (d : DocumentData) (past : List Act) (n : NodeId) (first second a b first' second' : Shown) →
        StandsNew d past n first second → FailedToOpen first second a b → HasCrashed a first' → HasCrashed b second' →
        (x : DownBehind d past n (act.StillDown n) 0 first second first' second') × (1 ≤ x.turn.more) }
{}
