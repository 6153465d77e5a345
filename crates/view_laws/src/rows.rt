//! The rows of items as the rows of events on the views of nodes.
ghost use Rattle.std.specs.Prelude.{◌≡◌, ℕ, Bool, true, false, List, [], ◌∷◌, Option, Some, None, is_some};
ghost use Rattle.score_base.specs.declared.ids.TxId.{TxId};
ghost use Rattle.score_base.specs.declared.ids.NodeId.{NodeId};
ghost use Rattle.score_base.specs.declared.ids.Ident.{Ident};
ghost use Rattle.script_lang.specs.Scripts.{ScriptData};
ghost use Rattle.journal_words.specs.Journals.{pending};
ghost use Rattle.grid_model.specs.declared.acts.Act.{Act};
ghost use Rattle.grid_model.specs.declared.acts.Act.TheVariants as act;
ghost use Rattle.grid_model.specs.declared.events.Event.{Event};
ghost use Rattle.grid_model.specs.declared.events.Event.TheVariants as event;
ghost use Rattle.grid_model.specs.declared.items.Item.{Item};
ghost use Rattle.grid_model.specs.declared.items.Item.TheVariants as item;
ghost use Rattle.grid_model.specs.declared.messages.Envelope.{Envelope};
ghost use Rattle.grid_model.specs.declared.voids.Void.TheVariants as void;
ghost use Rattle.grid_model.specs.Documents.{DocumentData, IsOne};
ghost use Rattle.grid_model.specs.Histories.{after, sent, sent_at};
ghost use Rattle.grid_model.specs.NextViews.{Comes};
ghost use Rattle.grid_model.specs.Nodes.{journal, node, script_of};
ghost use Rattle.grid_model.specs.Rows.{outs_of};
ghost use Rattle.grid_model.specs.Runs.{IsRun};
ghost use Rattle.grid_model.specs.Schedules.{Choice, acts_of, next_left, or_void, row};
ghost use Rattle.grid_model.specs.Sessions.{floor_at, is_busy_at};
ghost use Rattle.grid_model.specs.Stories.{story};
ghost use Rattle.grid_model.specs.Views.{view};
ghost use Rattle.grid_model.specs.Voids.{void_code, voided};
ghost use Rattle.view_laws.specs.RowActs.{event_row};

/// The row of an item at a node that is up is the row of its event on the view of the node, with a void code where it
/// gives nothing to do; and behind a run each such event may come to the node.
pub fn law_row_equations()
    ensures begin { (d : DocumentData) (h : List Act) (t m : ℕ) (s : ScriptData) (c : Choice) →
        IsOne d → IsRun d d.items h → script_of t d.scripts ≡ Some s → story d (after [] h) t ≡ None →
        (node d (after [] h) s.home).up ≡ true → is_busy_at d (after [] h) s ≡ false →
        row d (after [] h) (item.Begin t) c
        ≡ event_row d (after [] h) c s.home m (event.Begin s (floor_at d (after [] h) s)) }
    ensures deliver { (d : DocumentData) (past : List Act) (m : ℕ) (e : Envelope) (c : Choice) →
        sent_at m (sent past) ≡ Some e → (node d past e.to).up ≡ true →
        row d past (item.Deliver m) c ≡ event_row d past c e.to m (event.Deliver e.from e.message) }
    ensures next { (d : DocumentData) (past : List Act) (m k : ℕ) (c : Choice) → next_left past ≡ Some m →
        row d past (item.Next k) c ≡ row d past (item.Deliver m) c }
    ensures retry { (d : DocumentData) (past : List Act) (t m : ℕ) (s : ScriptData) (c : Choice) →
        script_of t d.scripts ≡ Some s → (node d past s.home).up ≡ true →
        row d past (item.Retry t) c
        ≡ or_void (void_code void.NothingOwed) (outs_of s.home (view d past s.home) (event.Retry t))
        (event_row d past c s.home m (event.Retry t)) }
    ensures ask { (d : DocumentData) (past : List Act) (n : NodeId) (t m : ℕ) (c : Choice) → (node d past n).up ≡ true →
        row d past (item.Ask n t) c
        ≡ or_void (void_code void.NotPending) (outs_of n (view d past n) (event.Ask t))
        (event_row d past c n m (event.Ask t)) }
    ensures peer { (d : DocumentData) (past : List Act) (n : NodeId) (t : ℕ) (y : NodeId) (m : ℕ) (c : Choice) →
        (node d past n).up ≡ true → is_some (pending t (journal d past n)) ≡ true →
        row d past (item.AskPeer n t y) c
        ≡ or_void (void_code void.NotPart) (outs_of n (view d past n) (event.AskPeer t y))
        (event_row d past c n m (event.AskPeer t y)) }
    ensures peer_none { (d : DocumentData) (past : List Act) (n : NodeId) (t : ℕ) (y : NodeId) (c : Choice) →
        is_some (pending t (journal d past n)) ≡ false →
        (row d past (item.AskPeer n t y) c ≡ voided void.NotPending)
        × (outs_of n (view d past n) (event.AskPeer t y) ≡ []) }
    ensures compact { (d : DocumentData) (past : List Act) (n : NodeId) (m : ℕ) (c : Choice) →
        (node d past n).up ≡ true → row d past (item.Compact n) c ≡ event_row d past c n m event.Compact }
    ensures begin_comes { (d : DocumentData) (past : List Act) (t m : ℕ) (s : ScriptData) (floor : ℕ) →
        script_of t d.scripts ≡ Some s → Comes d past s.home m (event.Begin s floor) }
    ensures deliver_comes { (d : DocumentData) (items : List Item) (h : List Act) (m : ℕ) (e : Envelope) →
        IsRun d items h → sent_at m (sent (after [] h)) ≡ Some e →
        Comes d (after [] h) e.to m (event.Deliver e.from e.message) }
    ensures others_come { (d : DocumentData) (past : List Act) (n m : ℕ) (t : ℕ) (y : NodeId) →
        Comes d past n m (event.Retry t) × Comes d past n m (event.Ask t) × Comes d past n m (event.AskPeer t y)
        × Comes d past n m event.Compact }
{}
