//! The part that the disks of a node have in an event of it.
ghost use Rattle.std.specs.Prelude.{◌≡◌, ℕ, Bool, true, List, ◌∷◌, Option};
ghost use Rattle.std.specs.List.{list_all};
ghost use Rattle.score_base.specs.declared.ids.NodeId.{NodeId};
ghost use Rattle.score_base.specs.declared.records.Record.{Record};
ghost use Rattle.grid_model.specs.declared.acts.Act.{Act};
ghost use Rattle.grid_model.specs.declared.events.Event.{Event};
ghost use Rattle.grid_model.specs.declared.events.Event.TheVariants as event;
ghost use Rattle.grid_model.specs.Documents.{DocumentData};
ghost use Rattle.grid_model.specs.Histories.{after};
ghost use Rattle.grid_model.specs.NextViews.{Comes, brought};
ghost use Rattle.grid_model.specs.Nodes.{journal, written};
ghost use Rattle.grid_model.specs.Rows.{outs_of};
ghost use Rattle.grid_model.specs.Schedules.{kept, numbered};
ghost use Rattle.grid_model.specs.Views.{View, view};
ghost use Rattle.view_laws.specs.RowActs.{came};
ghost use Rattle.view_laws.specs.RowRecords.{journal_behind};
ghost use Rattle.view_laws.specs.Turns.{is_quiet, HasTurn, LeavesDisks};

/// An event that writes nothing, and is no compaction, has quiet acts alone. Of one that writes a record the first act
/// stands for it, and the others are quiet. Behind an event whose record, where there is one, is kept, the journal and
/// the list of the live file have it, the fuse counts it, and nothing else that is said of the disks has changed.
pub fn law_row_turns()
    ensures came { (m : ℕ) (e : Event) → list_all is_quiet (came m e) ≡ true }
    ensures quiet { (k : ℕ) (n : NodeId) (v : View) (e : Event) (keeps : Bool) → (e ≡ event.Compact → ⊥) →
        journal_behind n v e ≡ v.journal →
        list_all is_quiet (numbered k n (kept keeps n (outs_of n v e))) ≡ true }
    ensures turn { (d : DocumentData) (past : List Act) (n m k : ℕ) (e : Event) (x : Record) → Comes d past n m e →
        journal_behind n (view d past n) e ≡ x ∷ journal d past n →
        HasTurn d (brought m e past) n x (numbered k n (outs_of n (view d past n) e)) }
    ensures leaves { (d : DocumentData) (past : List Act) (n m k : ℕ) (e : Event) (x : Option Record) →
        Comes d past n m e → (e ≡ event.Compact → ⊥) →
        journal_behind n (view d past n) e ≡ written x (journal d past n) →
        LeavesDisks d past (after (brought m e past) (numbered k n (outs_of n (view d past n) e))) n x }
{}
