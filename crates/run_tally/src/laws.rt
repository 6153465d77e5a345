//! The laws of tallies.
ghost use Rattle.std.specs.Prelude.{◌≡◌, ℕ, List, [], ◌++◌};
ghost use Rattle.grid_model.specs.declared.acts.Act.{Act};
ghost use Rattle.grid_model.specs.declared.items.Item.{Item};
ghost use Rattle.grid_model.specs.Documents.{DocumentData};
ghost use Rattle.grid_model.specs.Histories.{after};
ghost use Rattle.grid_model.specs.Runs.{IsRun};
ghost use Rattle.grid_model.specs.Cuts.{IsCutRun};
ghost use Rattle.history_print.specs.Text.{summary_text};
ghost use Rattle.run_tally.specs.Tallies.{tally_of};
ghost use Rattle.run_tally.specs.Phases.{TellsPhases};
ghost use Rattle.run_tally.specs.Texts.{TallyText};

/// Behind the first acts of a run, here at any act, the text of the tally is the summary of these acts: of
/// every run of the document, whatever its items, and so of every run of the document cut behind its start
/// row or one of its events.
pub fn law_tally()
    ensures run { (d : DocumentData) (items : List Item) (acts later : List Act) →
        IsRun d items (acts ++ later) → TallyText d (tally_of d acts) ≡ summary_text d acts }
    ensures cut { (d : DocumentData) (e : ℕ) (acts later : List Act) →
        IsCutRun d e (acts ++ later) → TallyText d (tally_of d acts) ≡ summary_text d acts }
{}

/// Behind the first acts of a run, here at any act, the tally says what the model says: which transactions were
/// begun, which are open, which sessions are busy, what a session has seen, and which transactions are lost
/// where their home is opened.
pub fn law_tally_phases()
    ensures run { (d : DocumentData) (items : List Item) (acts later : List Act) →
        IsRun d items (acts ++ later) → TellsPhases d (tally_of d acts) (after [] acts) }
    ensures cut { (d : DocumentData) (e : ℕ) (acts later : List Act) →
        IsCutRun d e (acts ++ later) → TellsPhases d (tally_of d acts) (after [] acts) }
{}
