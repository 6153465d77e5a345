//! How each transaction ended, behind one more record.

ghost use Rattle.std.specs.Prelude.{◌≡◌, ◌≤◌, ◌+◌, ◌∷◌, List};
ghost use Rattle.score_base.specs.declared.records.Record.{Record};
ghost use Rattle.grid_store.specs.Keeping.{KeepsOutcomes, CanEnd};

use crate::tables::give;
use score_base::{Ordered, Outcome, Record, TxId};

/// The outcome of an Ended is noted.
pub(crate) fn end(outcomes: &mut Ordered<TxId, Outcome>, rec: &Record)
    requires { CanEnd outcomes.old rec.now }
    ensures { (r : List Record) →
        KeepsOutcomes outcomes.old.pairs r → KeepsOutcomes outcomes.new.pairs (rec.now ∷ r) }
{
    if let Record::Ended { t, outcome } = rec {
        give(outcomes, *t, *outcome);
    }
}
