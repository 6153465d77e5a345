//! The view of a node that was opened.
ghost use Rattle.std.specs.Prelude.{◌≡◌, Bool, false, List, [], ◌∷◌};
ghost use Rattle.score_base.specs.declared.ids.NodeId.{NodeId};
ghost use Rattle.score_base.specs.declared.records.Record.{Record};
ghost use Rattle.placement.specs.Clusters.{ClusterData};
ghost use Rattle.journal_words.specs.Small.{AreAlike};
ghost use Rattle.grid_model.specs.declared.acts.Act.{Act};
ghost use Rattle.grid_model.specs.declared.acts.Act.TheVariants as act;
ghost use Rattle.grid_model.specs.declared.acts.Flag.{Flag};
ghost use Rattle.grid_model.specs.declared.items.Item.{Item};
ghost use Rattle.grid_model.specs.Documents.{DocumentData};
ghost use Rattle.grid_model.specs.Histories.{after};
ghost use Rattle.grid_model.specs.Nodes.{journal, node};
ghost use Rattle.grid_model.specs.Runs.{IsRun};
ghost use Rattle.grid_model.specs.Schedules.{opened_row, start_row};
ghost use Rattle.grid_model.specs.Views.{view};
ghost use Rattle.presumed_abort.specs.Views.{opened_view};

/// A node that is down behind a run shows, behind its opening and the losses of its transactions, the view of its
/// records and nothing that a stop forgets, whatever was in doubt and whether it was found. Behind the start each
/// node shows the view of no records. Opened on alike lists, views differ in their journals alone.
pub fn law_opened_view()
    ensures opened { (d : DocumentData) (items : List Item) (h : List Act) (n : NodeId) (f : Flag) →
        IsRun d items h → (node d (after [] h) n).up ≡ false →
        view d (after (after [] h) (opened_row d (after [] h) n f)) n
        ≡ opened_view d.cluster (journal d (act.Up n f ∷ after [] h) n) }
    ensures start { (d : DocumentData) (opens : NodeId → Bool) (n : NodeId) →
        view d (after [] (start_row d.cluster.nodes opens)) n ≡ opened_view d.cluster [] }
    ensures alike { (c : ClusterData) (r j : List Record) → AreAlike r j →
        opened_view c r ≡ record (opened_view c j) { journal = r } }
{}
