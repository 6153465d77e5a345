//! Views that differ in their journals alone, where these are alike.
ghost use Rattle.std.specs.Prelude.{◌≡◌, ℕ, List, Option};
ghost use Rattle.score_base.specs.declared.ids.NodeId.{NodeId};
ghost use Rattle.score_base.specs.declared.records.Record.{Record};
ghost use Rattle.journal_words.specs.Small.{AreAlike};
ghost use Rattle.grid_model.specs.declared.acts.Act.{Act};
ghost use Rattle.grid_model.specs.declared.events.Event.{Event};
ghost use Rattle.grid_model.specs.declared.events.Out.{Out};
ghost use Rattle.grid_model.specs.Documents.{DocumentData};
ghost use Rattle.grid_model.specs.Histories.{after};
ghost use Rattle.grid_model.specs.NextViews.{Comes, brought};
ghost use Rattle.grid_model.specs.Nodes.{journal, written};
ghost use Rattle.grid_model.specs.Rows.{outs_of};
ghost use Rattle.grid_model.specs.Schedules.{numbered};
ghost use Rattle.grid_model.specs.Views.{View, view};
ghost use Rattle.view_laws.specs.AlikeViews.{IsNextAlike, IsShownNext};
ghost use Rattle.view_laws.specs.RowRecords.{journal_behind};

/// A view with an alike list in the place of its journal has the same outs at each event; and behind any outs the
/// same records are written on both, so that the next views are again alike, and differ in their journals alone. So
/// a node that shows the view behind a run in this way gives its rows, and goes on to show it so.
pub fn law_alike_views()
    ensures rows { (n : NodeId) (v : View) (r : List Record) (e : Event) → AreAlike r v.journal →
        outs_of n (record v { journal = r }) e ≡ outs_of n v e }
    ensures next { (n : NodeId) (v : View) (r : List Record) (e : Event) (os : List Out) → AreAlike r v.journal →
        IsNextAlike n v r e os }
    ensures shown { (d : DocumentData) (past : List Act) (n m k : ℕ) (e : Event) (r : List Record) (x : Option Record) →
        Comes d past n m e → AreAlike r (journal d past n) →
        journal_behind n (view d past n) e ≡ written x (journal d past n) →
        IsShownNext d past (after (brought m e past) (numbered k n (outs_of n (view d past n) e))) n e r x }
{}
