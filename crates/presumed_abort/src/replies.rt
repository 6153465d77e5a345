//! A begin and a read reply at a desk.

ghost use Rattle.std.specs.Prelude.{◌≡◌, Some, None, is_some, true, IfOk, OnOk, OnErr};
ghost use Rattle.presumed_abort.specs.Stands.{standing};
ghost use Rattle.presumed_abort.specs.Turns.{changed};
ghost use Rattle.presumed_abort.specs.Becoming.{change_of};
ghost use Rattle.presumed_abort.specs.Typed.{change_then};
ghost use Rattle.presumed_abort.specs.Replies.{begin_turn, taken_turn, reply_turn};
ghost use Rattle.presumed_abort.specs.Dues.{IsDone};
ghost use Rattle.presumed_abort.specs.declared.states.Reading.{Reading};
ghost use Rattle.presumed_abort.specs.declared.stands.Stand.TheVariants as stand;

use crate::desks::Desk;
use crate::stands::Stand;
use crate::states::Reading;
use crate::turns::{Then, Turn};
use grid_model::{Out, ReadRep};
use placement::Cluster;
use score_base::{Ident, Memory, TxId};
use script_lang::Script;
use std::alloc::Global;

/// Where a transaction stands that becomes this; none where it is over.
fn stand_of(goes: Then) -> Option<Stand>
    ensures { change_of result ≡ change_then goes }
{
    match goes {
        Then::Ask(tx) => Some(Stand::Reading(tx)),
        Then::Collect(tx) => Some(Stand::Collecting(tx)),
        Then::Answered(_) => None,
    }
}

impl Desk {
    /// A transaction of this home begins, at this identifier. It takes its place behind all others,
    /// unless it is over at once.
    pub fn begin(
        &mut self,
        alloc: Global,
        cluster: &Cluster,
        script: Script,
        sid0: Ident,
    ) -> Result<Vec<Out>, Memory>
        requires { standing self.old script.number ≡ None }
        ensures turn { IfOk result (λ outs.
            IsDone (begin_turn cluster.now script sid0) script.number self.old self.new outs.items) }
        ensures err { OnErr result (self.new ≡ self.old) }
    {
        let t = script.number;
        match Reading::start(alloc, cluster, script, sid0) {
            Ok(Turn { outs, goes }) => {
                self.admit(t, stand_of(goes))?;
                Ok(outs)
            }
            Err(_) => Err(Memory),
        }
    }

    /// The transaction comes to the desk behind all others, where it stands somewhere.
    #[tactic(auto, using(crate::proofs::Inserts::removed_absent))]
    fn admit(&mut self, t: TxId, stand: Option<Stand>) -> Result<(), Memory>
        requires { standing self.old t ≡ None }
        ensures ok { OnOk result (self.new ≡ changed t (change_of stand) self.old) }
        ensures err { OnErr result (self.new ≡ self.old) }
    {
        let Some(stand) = stand else {
            return Ok(());
        };
        match self.stands.insert(t, stand) {
            Ok(_) => Ok(()),
            Err(_) => Err(Memory),
        }
    }

    /// A read reply: where the transaction waits for it, its value is taken, and the transaction goes on.
    pub fn reply(
        &mut self,
        alloc: Global,
        cluster: &Cluster,
        q: &ReadRep,
    ) -> Result<Vec<Out>, Memory>
        ensures turn { IfOk result (λ outs.
            IsDone (reply_turn cluster.now q.now (standing self.old q.now.t)) q.now.t self.old self.new outs.items) }
        ensures err { OnErr result (self.new ≡ self.old) }
    {
        let Some(Stand::Reading(tx)) = self.get(q.t) else {
            return Ok(Vec::new(alloc));
        };
        if tx.op != q.op {
            return Ok(Vec::new(alloc));
        }
        self.go_on(alloc, cluster, q)
    }

    /// The reply that a transaction waits for.
    fn go_on(&mut self, alloc: Global, cluster: &Cluster, q: &ReadRep) -> Result<Vec<Out>, Memory>
        requires { is_some (standing self.old q.now.t) ≡ true }
        ensures turn { (r : Reading) → standing self.old q.now.t ≡ Some (stand.Reading r)
            → IfOk result (λ outs.
            IsDone (taken_turn cluster.now q.now.value q.now.sid r) q.now.t self.old self.new outs.items) }
        ensures err { (r : Reading) → standing self.old q.now.t ≡ Some (stand.Reading r)
            → OnErr result (self.new ≡ self.old) }
    {
        let Some(Stand::Reading(tx)) = self.take(q.t) else {
            return Ok(Vec::new(alloc));
        };
        match tx.take(alloc, cluster, q.value, q.sid) {
            Ok(Turn { outs, goes }) => {
                self.settle(q.t, stand_of(goes));
                Ok(outs)
            }
            Err((tx, memory)) => {
                self.put(q.t, Stand::Reading(tx));
                Err(memory)
            }
        }
    }

    /// A transaction that was taken away stands so in its place, or is taken out.
    fn settle(&mut self, t: TxId, stand: Option<Stand>)
        requires { is_some (standing self.old t) ≡ true }
        ensures { self.new ≡ changed t (change_of stand) self.old }
    {
        match stand {
            Some(stand) => self.put(t, stand),
            None => self.remove(t),
        }
    }
}
