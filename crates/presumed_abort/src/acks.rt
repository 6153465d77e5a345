//! Acknowledgements at a desk.

ghost use Rattle.std.specs.Prelude.{◌≡◌, ◌++◌, ◌∷◌, [], ℕ, List, Some, is_some, true, false, IfOk, OnErr};
ghost use Rattle.placement.specs.Places.{is_among};
ghost use Rattle.presumed_abort.specs.Stands.{standing};
ghost use Rattle.presumed_abort.specs.Tallies.{ack_tally_turn};
ghost use Rattle.presumed_abort.specs.Turns.{Turn, Keeps, ack_turn, acked_turn, changed};
ghost use Rattle.presumed_abort.specs.Typed.{IsAcked};
ghost use Rattle.presumed_abort.specs.Dues.{IsTurn};
ghost use Rattle.presumed_abort.specs.declared.states.Committed.{Committed};
ghost use Rattle.presumed_abort.specs.declared.stands.Stand.{Stand};
ghost use Rattle.presumed_abort.specs.declared.stands.Stand.TheVariants as stand;

use crate::desks::Desk;
use crate::dues::{DeskDue, DeskTurn, Due};
use crate::stands::Stand;
use crate::tallies::AckTally;
use crate::turns::Acked;
use journal_words::records::is_among;
use score_base::{Memory, NodeId, TxId};
use std::alloc::Global;

impl Desk {
    /// An acknowledgement from `from`. The last one is due on the Closed record; until that is
    /// released or stopped its transaction is away from the desk.
    pub fn ack(&mut self, alloc: Global, from: NodeId, t: TxId) -> Result<DeskTurn, Memory>
        ensures turn { IfOk result (IsTurn (ack_turn from (standing self.old t)) t self.old self.new) }
        ensures err { OnErr result (self.new ≡ self.old) }
    {
        let Some(Stand::Committed(tx)) = self.get(t) else {
            return Ok(DeskTurn::Outs(Vec::new(alloc)));
        };
        if is_among(from, tx.acks.as_slice()) {
            return Ok(DeskTurn::Outs(Vec::new(alloc)));
        }
        let tally = tx.tally(alloc, from)?;
        Ok(self.take_ack(alloc, from, t, tally))
    }

    /// An acknowledgement that is the first of its node, of a decided transaction, which was counted.
    fn take_ack(&mut self, alloc: Global, from: NodeId, t: TxId, tally: AckTally) -> DeskTurn
        requires there { is_some (standing self.old t) ≡ true }
        requires first { (c : Committed) → standing self.old t ≡ Some (stand.Committed c)
            → is_among from c.acks ≡ false }
        requires counted { (c : Committed) → standing self.old t ≡ Some (stand.Committed c)
            → ack_tally_turn c tally ≡ acked_turn c (c.acks ++ from ∷ []) }
        ensures { (c : Committed) → standing self.old t ≡ Some (stand.Committed c)
            → IsTurn (acked_turn c (c.acks ++ from ∷ [])) t self.old self.new result }
    {
        match self.take(t) {
            Some(Stand::Committed(tx)) => {
                let acked = tx.ack(from, tally);
                self.acked(alloc, t, acked)
            }
            _other => DeskTurn::Outs(Vec::new(alloc)),
        }
    }

    /// What an acknowledgement made of a transaction that was taken away.
    fn acked(&mut self, alloc: Global, t: TxId, acked: Acked) -> DeskTurn
        requires { standing self.old t ≡ Some stand.Away }
        ensures { (x : Turn) (desk : List (ℕ × Stand)) → IsAcked x acked → is_some (standing desk t) ≡ true
            → self.old ≡ changed t (Keeps stand.Away) desk → IsTurn x t desk self.new result }
    {
        match acked {
            Acked::More(tx) => {
                self.put(t, Stand::Committed(tx));
                DeskTurn::Outs(Vec::new(alloc))
            }
            Acked::Last(tx, rec) => {
                let (closing, outs) = tx.part(alloc);
                let due = Due::Close(closing);
                DeskTurn::Due(DeskDue { t, due, outs }, rec)
            }
        }
    }
}
