//! The headline of a run, put together from the laws of runs.
ghost use Rattle.std.specs.Prelude.{ℕ, List};
ghost use Rattle.score_base.specs.declared.ids.NodeId.{NodeId};
ghost use Rattle.grid_model.specs.declared.acts.Act.{Act};
ghost use Rattle.grid_model.specs.Documents.{DocumentData, IsOne};
ghost use Rattle.grid_model.specs.Runs.{Lawful};
ghost use Rattle.score_cli.specs.Headline.{Headline};

use cause_laws::{law_caused, law_excused, law_genuine};
use copy_laws::{law_atomic, law_kept, law_one_copy};
use session_laws::law_sessions;

/// The headline holds of each lawful run of a document, whatever the disks did in it.
pub fn law_headline()
    ensures { (d : DocumentData) (h : List Act) (rise : NodeId → ℕ) → IsOne d → Lawful d h rise → Headline d h rise }
{
    law_one_copy();
    law_atomic();
    law_kept();
    law_genuine();
    law_caused();
    law_excused();
    law_sessions();
}
