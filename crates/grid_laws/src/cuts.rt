//! Laws of documents that are cut behind an event, and of their runs.
ghost use Rattle.std.specs.Prelude.{◌≡◌, ◌≤◌, ℕ, ◌+◌, Bool, List, [], ◌∷◌, ◌++◌, Option, take, drop, sum_by};
ghost use Rattle.score_base.specs.declared.ids.NodeId.{NodeId};
ghost use Rattle.score_base.specs.declared.ids.TxId.{TxId};
ghost use Rattle.grid_model.specs.declared.acts.Act.{Act};
ghost use Rattle.grid_model.specs.declared.items.Item.{Item};
ghost use Rattle.grid_model.specs.declared.stories.Story.{Story};
ghost use Rattle.grid_model.specs.Documents.{DocumentData, IsOne, events_of};
ghost use Rattle.grid_model.specs.Histories.{after};
ghost use Rattle.grid_model.specs.Nodes.{Node, node};
ghost use Rattle.grid_model.specs.Stories.{story};
ghost use Rattle.grid_model.specs.Schedules.{Choice, row, start_row};
ghost use Rattle.grid_model.specs.Runs.{IsRun, Lawful, Explains, faults};
ghost use Rattle.grid_model.specs.Cuts.{events, cut, IsCutRun, IsCutFront, AreRowsOf};

/// A document that is cut behind an event is one, and its events are the first ones of the document. Its
/// nodes, its transactions and its rows are those of the document behind the same acts.
pub fn law_cut_document()
    ensures one { (d : DocumentData) (e : ℕ) → IsOne d → IsOne (cut e d) }
    ensures events { (d : DocumentData) (e : ℕ) → events (cut e d) ≡ take e (events d) }
    ensures nodes { (d : DocumentData) (e : ℕ) (past : List Act) (n : NodeId) → node (cut e d) past n ≡ node d past n }
    ensures stories { (d : DocumentData) (e : ℕ) (past : List Act) (t : TxId) → story (cut e d) past t ≡ story d past t }
    ensures rows { (d : DocumentData) (e : ℕ) (past : List Act) (x : Item) (c : Choice) →
        row (cut e d) past x c ≡ row d past x c }
{}

/// The runs of the document cut behind e events, made one event after the other: the start row is the run
/// of no event, the row of the next event goes behind, and behind the last event they are the runs of the
/// document.
pub fn law_cut_runs()
    ensures start { (d : DocumentData) (opens : NodeId → Bool) → IsCutRun d 0 (start_row d.cluster.nodes opens) }
    ensures more { (d : DocumentData) (e : ℕ) (h : List Act) (x : Item) (behind : List Item) (c : Choice) →
        IsCutRun d e h → drop e (events d) ≡ x ∷ behind → IsCutRun d (e + 1) (h ++ row d (after [] h) x c) }
    ensures whole { (d : DocumentData) (e : ℕ) (h : List Act) →
        sum_by events_of d.items ≤ e → IsCutRun d e h → IsRun d d.items h }
{}

/// The runs of the document cut behind e events are the fronts of its runs.
pub fn law_cut_fronts()
    ensures of_run { (d : DocumentData) (e : ℕ) (h : List Act) →
        IsRun d d.items h → (acts : List Act) × IsCutFront d e acts h }
    ensures of_cut { (d : DocumentData) (e : ℕ) (acts : List Act) →
        IsCutRun d e acts → (h : List Act) × IsRun d d.items h × IsCutFront d e acts h }
{}

/// Each run is the start row and a row for each event.
pub fn law_run_rows()
    ensures { (d : DocumentData) (h : List Act) →
        IsRun d d.items h → (rows : List (List Act)) × AreRowsOf d h rows }
{}

/// The front of a lawful run is lawful of the cut document, by any counts that explain its stops; those of
/// its faults do, and are no more than those of the whole.
pub fn law_cut_lawful()
    ensures front { (d : DocumentData) (e : ℕ) (acts h : List Act) (rise now : NodeId → ℕ) →
        Lawful d h rise → IsCutFront d e acts h →
        ((n : NodeId) → Explains (cut e d) (after [] acts) n (now n)) → Lawful (cut e d) acts now }
    ensures least { (d : DocumentData) (e : ℕ) (acts h : List Act) (rise : NodeId → ℕ) →
        Lawful d h rise → IsCutFront d e acts h →
        Lawful (cut e d) acts (faults d (after [] acts)) × ((n : NodeId) → faults d (after [] acts) n ≤ rise n) }
    ensures faultless { (d : DocumentData) (e : ℕ) (acts h : List Act) →
        Lawful d h (λ n. 0) → IsCutFront d e acts h → Lawful (cut e d) acts (λ n. 0) }
    ensures whole { (d : DocumentData) (e : ℕ) (h : List Act) (rise : NodeId → ℕ) →
        sum_by events_of d.items ≤ e → Lawful (cut e d) h rise → Lawful d h rise }
{}
