//! What the acts of one node leave of the others.
ghost use Rattle.std.specs.Prelude.{◌≡◌, ◌≢◌, ℕ, Bool, List, ◌∷◌, Option};
ghost use Rattle.score_base.specs.declared.ids.NodeId.{NodeId};
ghost use Rattle.grid_model.specs.declared.acts.Act.{Act};
ghost use Rattle.grid_model.specs.declared.acts.Act.TheVariants as act;
ghost use Rattle.grid_model.specs.declared.acts.Flag.{Flag};
ghost use Rattle.grid_model.specs.declared.acts.Head.{Head};
ghost use Rattle.grid_model.specs.declared.events.Event.{Event};
ghost use Rattle.grid_model.specs.Documents.{DocumentData};
ghost use Rattle.grid_model.specs.Histories.{after};
ghost use Rattle.grid_model.specs.NextViews.{Comes, brought};
ghost use Rattle.grid_model.specs.Rows.{outs_of};
ghost use Rattle.grid_model.specs.Schedules.{kept, numbered, opened_row};
ghost use Rattle.grid_model.specs.Views.{view};
ghost use Rattle.view_laws.specs.Unmoved.{IsUnmoved};

/// The acts of an event of node n leave each other node as it was, whether its disk keeps the record or fails; and so
/// do its stop, its opening with the losses, an opening that fails, a fuse and a compaction. A message that is missed
/// or dropped, and an event that is void, leave every node.
pub fn law_other_views()
    ensures event { (d : DocumentData) (past : List Act) (n k i : ℕ) (e : Event) (keeps : Bool) (m : NodeId) →
        Comes d past n k e → n ≢ m →
        IsUnmoved d past (after (brought k e past) (numbered i n (kept keeps n (outs_of n (view d past n) e)))) m }
    ensures opened { (d : DocumentData) (past : List Act) (n : NodeId) (f : Flag) (m : NodeId) → n ≢ m →
        IsUnmoved d past (after past (opened_row d past n f)) m }
    ensures down { (d : DocumentData) (past : List Act) (n : NodeId) (h : Option Head) (m : NodeId) → n ≢ m →
        IsUnmoved d past (act.Down n h ∷ past) m }
    ensures still_down { (d : DocumentData) (past : List Act) (n m : NodeId) → n ≢ m →
        IsUnmoved d past (act.StillDown n ∷ past) m }
    ensures armed { (d : DocumentData) (past : List Act) (n : NodeId) (k how : ℕ) (m : NodeId) → n ≢ m →
        IsUnmoved d past (act.Armed n k how ∷ past) m }
    ensures compacted { (d : DocumentData) (past : List Act) (n m : NodeId) → n ≢ m →
        IsUnmoved d past (act.Compacted n ∷ past) m }
    ensures missed { (d : DocumentData) (past : List Act) (k : ℕ) (m : NodeId) →
        IsUnmoved d past (act.Missed k ∷ past) m }
    ensures dropped { (d : DocumentData) (past : List Act) (k : ℕ) (m : NodeId) →
        IsUnmoved d past (act.Dropped k ∷ past) m }
    ensures void { (d : DocumentData) (past : List Act) (code : ℕ) (m : NodeId) →
        IsUnmoved d past (act.Void code ∷ past) m }
{}
