//! Each field of a record has one spelling.
ghost use Rattle.std.specs.Prelude.{◌≡◌, ℕ, ◌++◌, List};
ghost use Rattle.score_base.specs.declared.causes.Outcome.{Outcome};
ghost use Rattle.score_base.specs.declared.causes.Ballot.{Ballot};
ghost use Rattle.score_base.specs.declared.causes.Date.{Date};
ghost use Rattle.score_fields.specs.declared.fields.Field.{Field};
ghost use Rattle.score_fields.specs.Spelling.{AreNodes, nodes_bytes, AreKeys, keys_bytes, AreWrites, writes_bytes, IsOutcome, outcome_bytes, IsBallot, ballot_bytes, IsDate, date_bytes};
ghost use Rattle.score_fields.specs.Fields.{Meaning, AllFit, layout_bytes};

/// No spelling begins another: where two spellings, each with something behind it, are the same
/// bytes, the values are the same, and so is what is behind them. This holds of every table and of
/// each kind of field whose bytes a span gives.
pub fn law_field_spelling()
    ensures layouts { (tag : ℕ) (fields : List Field) (a b : List Meaning) (x y : List ℕ) → AllFit fields a → AllFit fields b
        → layout_bytes tag fields a ++ x ≡ layout_bytes tag fields b ++ y → (a ≡ b) × (x ≡ y) }
    ensures nodes { (a b : List ℕ) (x y : List ℕ) → AreNodes a → AreNodes b → nodes_bytes a ++ x ≡ nodes_bytes b ++ y
        → (a ≡ b) × (x ≡ y) }
    ensures keys { (a b : List (List ℕ)) (x y : List ℕ) → AreKeys a → AreKeys b → keys_bytes a ++ x ≡ keys_bytes b ++ y
        → (a ≡ b) × (x ≡ y) }
    ensures writes { (a b : List (List ℕ × ℕ)) (x y : List ℕ) → AreWrites a → AreWrites b
        → writes_bytes a ++ x ≡ writes_bytes b ++ y → (a ≡ b) × (x ≡ y) }
    ensures outcomes { (a b : Outcome) (x y : List ℕ) → IsOutcome a → IsOutcome b
        → outcome_bytes a ++ x ≡ outcome_bytes b ++ y → (a ≡ b) × (x ≡ y) }
    ensures ballots { (a b : Ballot) (x y : List ℕ) → IsBallot a → IsBallot b
        → ballot_bytes a ++ x ≡ ballot_bytes b ++ y → (a ≡ b) × (x ≡ y) }
    ensures dates { (a b : Date) (x y : List ℕ) → IsDate a → IsDate b → date_bytes a ++ x ≡ date_bytes b ++ y → (a ≡ b) × (x ≡ y) }
{}
