//! The head of a record.

ghost use Rattle.std.specs.Prelude.{◌≡◌};
ghost use Rattle.node_core.specs.Heads.{head_of};

use grid_model::Head;
use score_base::Record;

/// What a record begins with, enough to name it.
pub fn head_of(rec: &Record) -> Head
    ensures { result ≡ head_of rec.now }
{
    match rec {
        Record::Prepared { t, p, .. } => Head::Prepared(*t, *p),
        Record::Ended { t, outcome } => Head::Ended(*t, *outcome),
        Record::Ceiling { c } => Head::Ceiling(*c),
        Record::Decided { t, f, .. } => Head::Decided(*t, *f),
        Record::Closed { t } => Head::Closed(*t),
    }
}
