//! The pending queue, behind one more record.

ghost use Rattle.std.specs.Prelude.{◌∷◌, ◌≤◌, ◌+◌, List};
ghost use Rattle.score_base.specs.declared.records.Record.{Record};
ghost use Rattle.grid_store.specs.Keeping.{KeepsPending, CanPend};

use pending_queue::Pending;
use score_base::Record;

/// A Prepared is pending, until its transaction ends.
pub(crate) fn pend(pending: &mut Pending, rec: &Record)
    requires { CanPend pending.old rec.now }
    ensures { (r : List Record) →
        KeepsPending pending.old.proposals r → KeepsPending pending.new.proposals (rec.now ∷ r) }
{
    match rec {
        Record::Prepared { t, p, .. } => pending.add(*t, *p),
        Record::Ended { t, .. } => {
            let _ = pending.end(*t);
        }
        _ => {}
    }
}
