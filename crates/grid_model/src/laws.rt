//! How what a node knows, and the state of a run, follow from what was before.
ghost use Rattle.std.specs.Prelude.{◌≡◌, ℕ, true, List, [], ◌∷◌, ◌++◌};
ghost use Rattle.journal_words.specs.Journals.{all_fit};
ghost use Rattle.journal_words.specs.Small.{small, AreAlike};
ghost use Rattle.grid_model.specs.declared.acts.Act.{Act};
ghost use Rattle.grid_model.specs.declared.acts.Act.TheVariants as act;
ghost use Rattle.grid_model.specs.declared.events.Event.{Event};
ghost use Rattle.grid_model.specs.declared.items.Item.{Item};
ghost use Rattle.grid_model.specs.Documents.{DocumentData};
ghost use Rattle.grid_model.specs.Histories.{after};
ghost use Rattle.grid_model.specs.Nodes.{journal};
ghost use Rattle.grid_model.specs.Disks.{disklog};
ghost use Rattle.grid_model.specs.Views.{view};
ghost use Rattle.grid_model.specs.Rows.{outs_of};
ghost use Rattle.grid_model.specs.Schedules.{Choice, numbered, row, row_on};
ghost use Rattle.grid_model.specs.States.{state_of, state_behind, state_after};
ghost use Rattle.grid_model.specs.NextViews.{Comes, brought, next_view};

/// The view of a node behind an event is its next view: it follows from the view before, the event and
/// the outs. The message is one that was sent to the node, or the script is one of the document; each
/// record is kept.
pub fn law_next_view()
    ensures { (d : DocumentData) (past : List Act) (n m k : ℕ) (e : Event) → Comes d past n m e
        → view d (after (brought m e past) (numbered k n (outs_of n (view d past n) e))) n
        ≡ next_view n (view d past n) e (outs_of n (view d past n) e) }
{}

/// Behind each list of acts the disk list of a node and its journal have the same Small; and where each
/// record of the journal fits those before it, each of the disk list does, and no word of a node tells the
/// two apart. A compaction leaves the view of each node as it is.
pub fn law_disklog()
    ensures small { (d : DocumentData) (past : List Act) (n : ℕ) →
        small (disklog d past n) ≡ small (journal d past n) }
    ensures fit { (d : DocumentData) (past : List Act) (n : ℕ) →
        all_fit d.cluster n (journal d past n) ≡ true → all_fit d.cluster n (disklog d past n) ≡ true }
    ensures alike { (d : DocumentData) (past : List Act) (n : ℕ) →
        all_fit d.cluster n (journal d past n) ≡ true → AreAlike (disklog d past n) (journal d past n) }
    ensures view { (d : DocumentData) (past : List Act) (n m : ℕ) →
        view d (act.Compacted m ∷ past) n ≡ view d past n }
{}

/// The state behind one act more is what the act leaves of the state; the state behind a run with more
/// acts is the state behind these acts.
pub fn law_state()
    ensures row { (d : DocumentData) (past : List Act) (i : Item) (c : Choice) → row d past i c ≡ row_on d (state_of d past) i c }
    ensures step { (d : DocumentData) (past : List Act) (a : Act) → state_of d (a ∷ past) ≡ state_behind d (state_of d past) a }
    ensures behind { (d : DocumentData) (h acts : List Act)
        → state_of d (after [] (h ++ acts)) ≡ state_after d (state_of d (after [] h)) acts }
{}
