//! What stands behind the acts of one event more.
ghost use Rattle.std.specs.Prelude.{◌≡◌, ℕ, Bool, true, false, List, [], ◌∷◌, ◌++◌, Some};
ghost use Rattle.score_base.specs.declared.ids.NodeId.{NodeId};
ghost use Rattle.score_base.specs.declared.records.Record.{Record};
ghost use Rattle.grid_model.specs.declared.acts.Act.{Act};
ghost use Rattle.grid_model.specs.declared.acts.Act.TheVariants as act;
ghost use Rattle.grid_model.specs.declared.events.Event.{Event};
ghost use Rattle.grid_model.specs.Documents.{DocumentData};
ghost use Rattle.grid_model.specs.Histories.{after, sent};
ghost use Rattle.grid_model.specs.NextViews.{Comes, brought, next_view};
ghost use Rattle.grid_model.specs.Nodes.{journal, node};
ghost use Rattle.grid_model.specs.Rows.{outs_of};
ghost use Rattle.grid_model.specs.Schedules.{kept, numbered};
ghost use Rattle.grid_model.specs.States.{state_after, state_of, view_in};
ghost use Rattle.grid_model.specs.Views.{View, view};
ghost use Rattle.node_core.specs.Heads.{head_of};
ghost use Rattle.node_core.specs.Links.{posts};
ghost use Rattle.view_laws.specs.RowActs.{came, envelopes};
ghost use Rattle.view_laws.specs.RowRecords.{journal_behind};

/// The past of a history with more acts, its views by the state, and its messages: those of an event are the posts of
/// its outs. Behind an event whose record is kept its node shows the next view. Where the record fails, the acts are
/// the stop at its head, and behind them the journal is as before, with the record in doubt.
pub fn law_behind_rows()
    ensures past { (h acts : List Act) → after [] (h ++ acts) ≡ after (after [] h) acts }
    ensures came { (past acts : List Act) (m : ℕ) (e : Event) →
        after past (came m e ++ acts) ≡ after (brought m e past) acts }
    ensures view { (d : DocumentData) (h acts : List Act) (n : NodeId) →
        view d (after [] (h ++ acts)) n ≡ view_in d (state_after d (state_of d (after [] h)) acts) n }
    ensures sent { (past acts : List Act) → sent (after past acts) ≡ sent past ++ envelopes acts }
    ensures posts { (k : ℕ) (n : NodeId) (v : View) (e : Event) (keeps : Bool) →
        envelopes (numbered k n (kept keeps n (outs_of n v e))) ≡ posts n (kept keeps n (outs_of n v e)) }
    ensures kept { (d : DocumentData) (h : List Act) (n m k : ℕ) (e : Event) → Comes d (after [] h) n m e →
        view d (after [] (h ++ (came m e ++ numbered k n (kept true n (outs_of n (view d (after [] h) n) e))))) n
        ≡ next_view n (view d (after [] h) n) e (outs_of n (view d (after [] h) n) e) }
    ensures stop { (d : DocumentData) (h : List Act) (n m k : ℕ) (e : Event) (x : Record) →
        journal_behind n (view d (after [] h) n) e ≡ x ∷ journal d (after [] h) n →
        h ++ (came m e ++ numbered k n (kept false n (outs_of n (view d (after [] h) n) e)))
        ≡ h ++ (came m e ++ act.Down n (Some (head_of x)) ∷ []) }
    ensures stopped { (d : DocumentData) (h : List Act) (n m : ℕ) (e : Event) (x : Record) →
        Comes d (after [] h) n m e → journal_behind n (view d (after [] h) n) e ≡ x ∷ journal d (after [] h) n →
        node d (after [] (h ++ (came m e ++ act.Down n (Some (head_of x)) ∷ []))) n
        ≡ record (node d (after [] h) n) { doubt = Some x; held = []; up = false } }
{}
