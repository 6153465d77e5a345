//! The desk that a journal leaves.

ghost use Rattle.std.specs.Prelude.{◌≡◌, ◌∷◌, List, reverse, IfOk, OnOk};
ghost use Rattle.score_base.specs.declared.records.Record.{Record};
ghost use Rattle.presumed_abort.specs.Replays.{decided_desk};

use crate::desks::Desk;
use crate::stands::Stand;
use crate::states::Committed;
use score_base::{Memory, NodeList, Record, TryCopy};
use std::alloc::Global;

impl Desk {
    /// A desk of the decided transactions that these records, the oldest first, leave open.
    #[tactic(auto, using(crate::proofs::Newest::newest_more))]
    pub fn replay(alloc: Global, records: &[Record]) -> Result<Desk, Memory>
        ensures { IfOk result (λ desk. desk ≡ decided_desk (reverse records.now)) }
    {
        let mut desk = Desk::new(alloc);
        for rec in records {
            desk.replay_one(alloc, rec)?;
        }
        Ok(desk)
    }

    /// One record more: a Decided adds its transaction or replaces it, and a Closed takes it out.
    fn replay_one(&mut self, alloc: Global, rec: &Record) -> Result<(), Memory>
        ensures { OnOk result ((r : List Record) → self.old ≡ decided_desk r → self.new ≡ decided_desk (rec.now ∷ r)) }
    {
        match rec {
            Record::Decided { t, f, parts } => {
                let tx = Committed {
                    t: *t,
                    f: *f,
                    parts: parts.copy()?,
                    acks: NodeList::new(alloc),
                };
                self.stands.insert(*t, Stand::Committed(tx))?;
                Ok(())
            }
            Record::Closed { t } => {
                self.remove(*t);
                Ok(())
            }
            _ => Ok(()),
        }
    }
}
