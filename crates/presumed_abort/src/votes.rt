//! Votes at a desk.

ghost use Rattle.std.specs.Prelude.{◌≡◌, ℕ, List, Some, is_some, true, false, IfOk, OnErr};
ghost use Rattle.grid_model.specs.Stories.{has_voted};
ghost use Rattle.presumed_abort.specs.Stands.{standing};
ghost use Rattle.presumed_abort.specs.Tallies.{tally_turn};
ghost use Rattle.presumed_abort.specs.Turns.{Turn, Keeps, ballot_turn, changed, vote_turn};
ghost use Rattle.presumed_abort.specs.Typed.{IsVoted};
ghost use Rattle.presumed_abort.specs.Dues.{IsTurn};
ghost use Rattle.presumed_abort.specs.declared.states.Collecting.{Collecting};
ghost use Rattle.presumed_abort.specs.declared.stands.Stand.{Stand};
ghost use Rattle.presumed_abort.specs.declared.stands.Stand.TheVariants as stand;

use crate::counts::has_voted;
use crate::desks::Desk;
use crate::dues::{DeskDue, DeskTurn, Due};
use crate::stands::Stand;
use crate::tallies::Tally;
use crate::turns::Voted;
use score_base::{Ballot, Memory, NodeId, TxId};
use std::alloc::Global;

impl Desk {
    /// A vote from `from`. A yes that completes the votes is due on its record; until that is released
    /// or stopped its transaction is away from the desk.
    pub fn vote(
        &mut self,
        alloc: Global,
        from: NodeId,
        t: TxId,
        ballot: &Ballot,
    ) -> Result<DeskTurn, Memory>
        ensures turn { IfOk result (IsTurn (vote_turn from ballot.now (standing self.old t)) t self.old self.new) }
        ensures err { OnErr result (self.new ≡ self.old) }
    {
        let Some(Stand::Collecting(tx)) = self.get(t) else {
            return Ok(DeskTurn::Outs(Vec::new(alloc)));
        };
        if has_voted(from, tx.tx.progress.votes.as_slice()) {
            return Ok(DeskTurn::Outs(Vec::new(alloc)));
        }
        let tally = tx.tally(alloc, from, ballot)?;
        Ok(self.take_vote(alloc, from, t, ballot, tally))
    }

    /// A vote that is the first of its node, on a transaction that collects, which was counted.
    fn take_vote(
        &mut self,
        alloc: Global,
        from: NodeId,
        t: TxId,
        ballot: &Ballot,
        tally: Tally,
    ) -> DeskTurn
        requires there { is_some (standing self.old t) ≡ true }
        requires first { (c : Collecting) → standing self.old t ≡ Some (stand.Collecting c)
            → has_voted from c.tx.progress.votes ≡ false }
        requires counted { (c : Collecting) → standing self.old t ≡ Some (stand.Collecting c)
            → tally_turn c tally ≡ ballot_turn c from ballot.now }
        ensures { (c : Collecting) → standing self.old t ≡ Some (stand.Collecting c)
            → IsTurn (ballot_turn c from ballot.now) t self.old self.new result }
    {
        match self.take(t) {
            Some(Stand::Collecting(tx)) => {
                let voted = tx.vote(from, ballot, tally);
                self.voted(alloc, t, voted)
            }
            _other => DeskTurn::Outs(Vec::new(alloc)),
        }
    }

    /// What a vote made of a transaction that was taken away.
    fn voted(&mut self, alloc: Global, t: TxId, voted: Voted) -> DeskTurn
        requires { standing self.old t ≡ Some stand.Away }
        ensures { (x : Turn) (desk : List (ℕ × Stand)) → IsVoted x voted → is_some (standing desk t) ≡ true
            → self.old ≡ changed t (Keeps stand.Away) desk → IsTurn x t desk self.new result }
    {
        match voted {
            Voted::More(tx) => {
                self.put(t, Stand::Collecting(tx));
                DeskTurn::Outs(Vec::new(alloc))
            }
            Voted::Full(tx, rec) => {
                let (ready, outs) = tx.part(alloc);
                let due = Due::Commit(ready);
                DeskTurn::Due(DeskDue { t, due, outs }, rec)
            }
            Voted::Refused(tx) => {
                self.remove(t);
                DeskTurn::Outs(tx.told())
            }
        }
    }
}
