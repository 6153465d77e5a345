//! Where the Prepared of each transaction stands among the records, behind one more record.

ghost use Rattle.std.specs.Prelude.{◌≡◌, ◌≤◌, ◌+◌, ◌++◌, ◌∷◌, [], List, length};
ghost use Rattle.score_base.specs.declared.records.Record.{Record};
ghost use Rattle.grid_store.specs.Keeping.{KeepsPlaces, CanPlace};

use crate::tables::give;
use score_base::{Ordered, Record, TxId};

/// A record goes to the place `at`; that of a Prepared is noted.
pub(crate) fn place(places: &mut Ordered<TxId, usize>, at: usize, rec: &Record)
    requires { CanPlace places.old rec.now }
    ensures { (rs : List Record) →
        at ≡ length rs → KeepsPlaces places.old.pairs rs → KeepsPlaces places.new.pairs (rs ++ rec.now ∷ []) }
{
    if let Record::Prepared { t, .. } = rec {
        give(places, *t, at);
    }
}
