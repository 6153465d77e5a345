//! The record of an event: its row writes at most one, by its first act, and stops there where the disk fails.
ghost use Rattle.std.specs.Prelude.{◌≡◌, ℕ, Bool, true, false, List, [], ◌∷◌, Option, Some};
ghost use Rattle.score_base.specs.declared.ids.NodeId.{NodeId};
ghost use Rattle.score_base.specs.declared.records.Record.{Record};
ghost use Rattle.journal_words.specs.Small.{AreAlike};
ghost use Rattle.grid_model.specs.declared.acts.Act.{Act};
ghost use Rattle.grid_model.specs.declared.acts.Act.TheVariants as act;
ghost use Rattle.grid_model.specs.declared.acts.Head.TheVariants as head;
ghost use Rattle.grid_model.specs.declared.events.Event.{Event};
ghost use Rattle.grid_model.specs.declared.events.Event.TheVariants as event;
ghost use Rattle.grid_model.specs.declared.events.Out.{Out};
ghost use Rattle.grid_model.specs.declared.events.Out.TheVariants as out;
ghost use Rattle.grid_model.specs.Documents.{DocumentData};
ghost use Rattle.grid_model.specs.NextViews.{Comes, brought};
ghost use Rattle.grid_model.specs.Nodes.{journal, node};
ghost use Rattle.grid_model.specs.Rows.{outs_of};
ghost use Rattle.grid_model.specs.Schedules.{kept};
ghost use Rattle.grid_model.specs.Views.{View, view};
ghost use Rattle.node_core.specs.Heads.{head_of};
ghost use Rattle.view_laws.specs.RowRecords.{RowWrites, journal_behind};

/// The row of an event writes nothing, one record, or is a compaction. Views with alike journals write the same
/// record. Where the disk fails, the row of an event that writes a record is the stop at its head, and behind that
/// stop the record is the one in doubt; an event that writes nothing has the same row.
pub fn law_same_records()
    ensures row { (n : NodeId) (v : View) (e : Event) → RowWrites n v e }
    ensures same { (n : NodeId) (v : View) (r : List Record) (e : Event) (x : Record) → AreAlike r v.journal →
        journal_behind n (record v { journal = r }) e ≡ x ∷ r → journal_behind n v e ≡ x ∷ v.journal }
    ensures stop { (n : NodeId) (v : View) (e : Event) (x : Record) → journal_behind n v e ≡ x ∷ v.journal →
        kept false n (outs_of n v e) ≡ out.Act (act.Down n (Some (head_of x))) ∷ [] }
    ensures doubt { (d : DocumentData) (past : List Act) (n : NodeId) (m : ℕ) (e : Event) (x : Record) →
        Comes d past n m e → journal_behind n (view d past n) e ≡ x ∷ journal d past n →
        (node d (act.Down n (Some (head_of x)) ∷ brought m e past) n).doubt ≡ Some x }
    ensures silent { (n : NodeId) (v : View) (e : Event) → (e ≡ event.Compact → ⊥) →
        journal_behind n v e ≡ v.journal → kept false n (outs_of n v e) ≡ outs_of n v e }
    ensures compaction { (n : NodeId) (v : View) →
        kept false n (outs_of n v event.Compact) ≡ out.Act (act.Down n (Some head.Compact)) ∷ [] }
    ensures keeps { (n : NodeId) (os : List Out) → kept true n os ≡ os }
{}
