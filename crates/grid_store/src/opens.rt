//! Which transactions are decided and not closed, behind one more record.

ghost use Rattle.std.specs.Prelude.{◌≡◌, ◌≤◌, ◌+◌, ◌∷◌, List};
ghost use Rattle.score_base.specs.declared.records.Record.{Record};
ghost use Rattle.grid_store.specs.Keeping.{KeepsOpen, CanOpen};

use crate::tables::{give, lose};
use score_base::{Ordered, Record, TxId};

/// A transaction is open from its Decided to its Closed.
pub(crate) fn mark(opened: &mut Ordered<TxId, ()>, rec: &Record)
    requires { CanOpen opened.old rec.now }
    ensures { (r : List Record) → KeepsOpen opened.old.pairs r → KeepsOpen opened.new.pairs (rec.now ∷ r) }
{
    match rec {
        Record::Decided { t, .. } => give(opened, *t, ()),
        Record::Closed { t } => lose(opened, *t),
        _ => {}
    }
}
