//! The law of counts: of all rows and all free choices of the disks, stops and restarts included.
ghost use Rattle.std.specs.Prelude.{◌≤◌, ◌+◌, ℕ, List, []};
ghost use Rattle.grid_model.specs.declared.acts.Act.{Act};
ghost use Rattle.grid_model.specs.declared.events.Event.{Event};
ghost use Rattle.grid_model.specs.Cuts.{IsCutRun};
ghost use Rattle.grid_model.specs.Documents.{DocumentData};
ghost use Rattle.grid_model.specs.Histories.{after};
ghost use Rattle.grid_model.specs.Rows.{outs_of};
ghost use Rattle.grid_model.specs.Views.{view};
ghost use Rattle.count_laws.specs.Few.{sends, IsFew};

/// Behind at most 50,000 events of a run few messages were sent and few reads are held; and where at most
/// k reads are held at a node, an event of it sends at most 16 messages beside the answers to these.
pub fn law_few()
    ensures run { (d : DocumentData) (e : ℕ) (h : List Act) → e ≤ 50000 → IsCutRun d e h → IsFew d (after [] h) e }
    ensures outs { (d : DocumentData) (past : List Act) (n k : ℕ) (e : Event) → IsFew d past k
        → sends (outs_of n (view d past n) e) ≤ 16 + k }
{}
