//! The greatest number that was given to a transaction, behind one more record.

ghost use Rattle.std.specs.Prelude.{◌≡◌, ◌∷◌, max, List};
ghost use Rattle.score_base.specs.declared.records.Record.{Record};
ghost use Rattle.grid_store.specs.Keeping.{highest};

use score_base::{Ident, Outcome, Record};

/// A proposal and a final identifier count.
pub(crate) fn rise(top: &mut Ident, rec: &Record)
    ensures { (r : List Record) → top.old ≡ highest r → top.new ≡ highest (rec.now ∷ r) }
{
    match rec {
        Record::Prepared { p, .. } => *top = (*top).max(*p),
        Record::Ended {
            outcome: Outcome::Commit(f),
            ..
        } => *top = (*top).max(*f),
        _ => {}
    }
}
