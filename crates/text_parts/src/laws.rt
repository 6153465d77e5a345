//! Laws of the parts of a text, and of what a sink got of them.
ghost use Rattle.std.specs.Prelude.{◌≡◌, ℕ, ◌+◌, Bool, List, [], ◌∷◌, ◌++◌, Option, drop, sum_by};
ghost use Rattle.std.specs.Io.KnownBytes.{Appends};
ghost use Rattle.std.specs.List.{flat_map};
ghost use Rattle.score_base.specs.declared.ids.NodeId.{NodeId};
ghost use Rattle.score_io.specs.Streams.{AppendsPart};
ghost use Rattle.grid_model.specs.declared.acts.Act.{Act};
ghost use Rattle.grid_model.specs.declared.items.Item.{Item};
ghost use Rattle.grid_model.specs.Documents.{DocumentData, events_of};
ghost use Rattle.grid_model.specs.Histories.{after};
ghost use Rattle.grid_model.specs.Schedules.{Choice, row, start_row};
ghost use Rattle.grid_model.specs.Runs.{IsRun};
ghost use Rattle.grid_model.specs.Cuts.{events, IsCutRun, AreRowsOf};
ghost use Rattle.history_print.specs.Text.{summary_text, text};
ghost use Rattle.run_tally.specs.Tallies.{tally_of};
ghost use Rattle.run_tally.specs.Texts.{TallyText};
ghost use Rattle.text_parts.specs.Parts.{act_lines, text_parts, IsPart, IsPlaced};
ghost use Rattle.text_parts.specs.Streams.{AppendsBehind};

/// The text of a run is its parts, one behind the other: the lines of the start row and of each event, and
/// the summary. Each run has rows that make it up.
pub fn law_text_parts()
    ensures rows { (d : DocumentData) (rows : List (List Act)) →
        text (flat_map (λ r. r) rows) d ≡ flat_map (λ p. p) (text_parts d rows) }
    ensures run { (d : DocumentData) (h : List Act) → IsRun d d.items h →
        (rows : List (List Act)) × AreRowsOf d h rows × (text h d ≡ flat_map (λ p. p) (text_parts d rows)) }
    ensures lines { (old new : List Act) → act_lines (old ++ new) ≡ act_lines old ++ act_lines new }
{}

/// The lines of the start row, of the event that comes next, and the summary behind all events are parts; the
/// summary is the text of the tally. The acts of a part are a run of the document cut behind its events, and
/// those of the first part are a start row; the part stands among the parts of the text of that run, and what
/// stands before it are the parts before.
pub fn law_parts()
    ensures start { (d : DocumentData) (h : List Act) → IsCutRun d 0 h → IsPart d 0 h [] (act_lines h) }
    ensures event { (d : DocumentData) (e : ℕ) (h : List Act) (x : Item) (later : List Item) (c : Choice) →
        IsCutRun d e h → drop e (events d) ≡ x ∷ later →
        IsPart d (e + 1) (h ++ row d (after [] h) x c) (act_lines h) (act_lines (row d (after [] h) x c)) }
    ensures summary { (d : DocumentData) (h : List Act) → IsCutRun d (sum_by events_of d.items) h →
        IsPart d (sum_by events_of d.items) h (act_lines h) (summary_text d h) }
    ensures tally { (d : DocumentData) (h : List Act) → IsCutRun d (sum_by events_of d.items) h →
        IsPart d (sum_by events_of d.items) h (act_lines h) (TallyText d (tally_of d h)) }
    ensures run { (d : DocumentData) (e : ℕ) (h : List Act) (before part : List ℕ) →
        IsPart d e h before part → IsCutRun d e h }
    ensures placed { (d : DocumentData) (e : ℕ) (h : List Act) (before part : List ℕ) →
        IsPart d e h before part → IsPlaced d e h before part }
    ensures first { (d : DocumentData) (h : List Act) → IsCutRun d 0 h →
        (opens : NodeId → Bool) × (h ≡ start_row d.cluster.nodes opens) }
{}

/// What a sink got of a part goes behind what it got before: the part whole, or a proper prefix of it. The first
/// part has nothing before it.
pub fn law_appends_behind()
    ensures whole { (old mid new : Option (List ℕ)) (whole part : List ℕ) →
        Appends old mid whole → Appends mid new part → Appends old new (whole ++ part) }
    ensures part { (old mid new : Option (List ℕ)) (whole part : List ℕ) →
        Appends old mid whole → AppendsPart mid new part → AppendsBehind old new whole part }
    ensures first { (old new : Option (List ℕ)) (part : List ℕ) →
        AppendsPart old new part → AppendsBehind old new [] part }
{}
