//! A run so far stays lawful, event by event.
ghost use Rattle.std.specs.Prelude.{◌≡◌, ◌≤◌, ℕ, ◌+◌, Bool, IsTrue, List, [], ◌∷◌, ◌++◌, drop, sum_by};
ghost use Rattle.std.specs.List.{list_all};
ghost use Rattle.score_base.specs.declared.ids.NodeId.{NodeId};
ghost use Rattle.grid_model.specs.declared.acts.Act.{Act};
ghost use Rattle.grid_model.specs.declared.items.Item.{Item};
ghost use Rattle.grid_model.specs.Documents.{DocumentData, events_of};
ghost use Rattle.grid_model.specs.Histories.{after};
ghost use Rattle.grid_model.specs.Schedules.{Choice, row, start_row};
ghost use Rattle.grid_model.specs.Runs.{Lawful, faults};
ghost use Rattle.grid_model.specs.Cuts.{events, IsCutFront};
ghost use Rattle.disk_laws.specs.DiskActs.{is_quiet, IsDiskEvent};
ghost use Rattle.disk_laws.specs.SoFar.{HasOpened, LawfulSoFar, risen};

/// A run so far is lawful behind the start, and stays so with one event more, by what the disks with a part in it
/// promise. Behind all events it is lawful of the document. And of a lawful run each front is lawful so far, where the
/// counts rose by its faults.
pub fn law_lawful()
    ensures start { (d : DocumentData) (opens : NodeId → Bool) (rise : NodeId → ℕ) →
        HasOpened d.cluster.nodes opens rise → LawfulSoFar d 0 (start_row d.cluster.nodes opens) rise }
    ensures disk { (d : DocumentData) (e : ℕ) (h : List Act) (rise : NodeId → ℕ) (x : Item) (later : List Item)
        (c : Choice) (n : NodeId) (more : ℕ) → LawfulSoFar d e h rise → drop e (events d) ≡ x ∷ later →
        IsDiskEvent d (after [] h) (row d (after [] h) x c) n more →
        LawfulSoFar d (e + 1) (h ++ row d (after [] h) x c) (risen rise n more) }
    ensures quiet { (d : DocumentData) (e : ℕ) (h : List Act) (rise : NodeId → ℕ) (x : Item) (later : List Item)
        (c : Choice) → LawfulSoFar d e h rise → drop e (events d) ≡ x ∷ later →
        IsTrue (list_all is_quiet (row d (after [] h) x c)) →
        LawfulSoFar d (e + 1) (h ++ row d (after [] h) x c) rise }
    ensures whole { (d : DocumentData) (e : ℕ) (h : List Act) (rise : NodeId → ℕ) →
        sum_by events_of d.items ≤ e → LawfulSoFar d e h rise → Lawful d h rise }
    ensures front { (d : DocumentData) (e : ℕ) (acts h : List Act) (rise : NodeId → ℕ) →
        Lawful d h rise → IsCutFront d e acts h →
        LawfulSoFar d e acts (faults d (after [] acts)) × ((n : NodeId) → faults d (after [] acts) n ≤ rise n) }
{}
