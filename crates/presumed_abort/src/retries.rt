//! What a desk sends again, and what it answers where it is asked.

ghost use Rattle.std.specs.Prelude.{◌≡◌, ◌<◌, ◌++◌, [], Some, is_some, true, IfOk, OnErr, vec_len, vec_capacity};
ghost use Rattle.grid_model.specs.Advances.{request, prepares};
ghost use Rattle.grid_model.specs.Rows.{tells, not_voted, not_among};
ghost use Rattle.presumed_abort.specs.Stands.{standing};
ghost use Rattle.presumed_abort.specs.Replies.{request_sent};
ghost use Rattle.presumed_abort.specs.Retries.{retry_turn, asked_again, told_of};
ghost use Rattle.presumed_abort.specs.Dues.{IsDone};
ghost use Rattle.presumed_abort.specs.declared.states.Reading.{Reading};
ghost use Rattle.presumed_abort.specs.declared.stands.Stand.TheVariants as stand;
ghost use Rattle.score_base.specs.declared.causes.Outcome.TheVariants as outcome;

use crate::counts::{not_among, not_voted, push_tells};
use crate::desks::Desk;
use crate::prepares::push_prepares_again;
use crate::stands::Stand;
use crate::states::{Collecting, Committed};
use grid_model::{Message, Out, ReadReq};
use placement::Cluster;
use score_base::{Memory, NodeId, Outcome, TxId, push};
use std::alloc::Global;

/// The Prepares for the parts that have not voted.
fn prepare_again(alloc: Global, cluster: &Cluster, tx: &Collecting) -> Result<Vec<Out>, Memory>
    ensures { IfOk result (λ outs.
        outs.items ≡ prepares cluster.now tx.now.tx (not_voted tx.now.parts tx.now.tx.progress.votes)) }
{
    let missing = not_voted(alloc, tx.parts.as_slice(), tx.tx.progress.votes.as_slice())?;
    let mut outs = Vec::new(alloc);
    push_prepares_again(alloc, &mut outs, cluster, &tx.tx.lend(), missing.as_slice())?;
    Ok(outs)
}

/// The commit for the parts that have not acknowledged it.
fn tell_again(alloc: Global, tx: &Committed) -> Result<Vec<Out>, Memory>
    ensures { IfOk result (λ outs.
        outs.items ≡ tells tx.now.t (outcome.Commit tx.now.f) (not_among tx.now.parts tx.now.acks)) }
{
    let missing = not_among(alloc, tx.parts.as_slice(), tx.acks.as_slice())?;
    let mut outs = Vec::new(alloc);
    push_tells(&mut outs, tx.t, &Outcome::Commit(tx.f), missing.as_slice())?;
    Ok(outs)
}

/// Adds a request, where there is one, in its room.
fn put_request(outs: &mut Vec<Out>, request: Option<(NodeId, ReadReq)>)
    requires { vec_len outs.old < vec_capacity outs.old }
    ensures { outs.new.items ≡ outs.old.items ++ request_sent request }
{
    if let Some((to, q)) = request {
        let _ = outs.push(Out::Send(to, Message::ReadReq(q)));
    }
}

/// Room for one out.
fn room_for_one(alloc: Global) -> Result<Vec<Out>, Memory>
    ensures none { IfOk result (λ outs. outs.items ≡ []) }
    ensures room { IfOk result (λ outs. vec_len outs < vec_capacity outs) }
{
    let mut outs = Vec::new(alloc);
    outs.reserve(1)?;
    Ok(outs)
}

impl Desk {
    /// Sends again what the transaction waits for; nothing where nothing is outstanding.
    pub fn retry(&mut self, alloc: Global, cluster: &Cluster, t: TxId) -> Result<Vec<Out>, Memory>
        ensures turn { IfOk result (λ outs.
            IsDone (retry_turn cluster.now (standing self.old t)) t self.old self.new outs.items) }
        ensures err { OnErr result (self.new ≡ self.old) }
    {
        match self.get(t) {
            None => Ok(Vec::new(alloc)),
            Some(Stand::Away) => Ok(Vec::new(alloc)),
            Some(Stand::Collecting(tx)) => prepare_again(alloc, cluster, tx),
            Some(Stand::Committed(tx)) => tell_again(alloc, tx),
            Some(Stand::Reading(_)) => self.ask_again(alloc, cluster, t),
        }
    }

    /// The request of a read, for the holder whose turn it is.
    fn ask_again(&mut self, alloc: Global, cluster: &Cluster, t: TxId) -> Result<Vec<Out>, Memory>
        requires { is_some (standing self.old t) ≡ true }
        ensures turn { (r : Reading) → standing self.old t ≡ Some (stand.Reading r)
            → IfOk result (λ outs.
            IsDone (asked_again cluster.now r (request cluster.now r.tx r.op r.tx.progress.turn)) t self.old self.new
            outs.items) }
        ensures err { OnErr result (self.new ≡ self.old) }
    {
        let mut outs = room_for_one(alloc)?;
        let Some(Stand::Reading(tx)) = self.take(t) else {
            return Ok(outs);
        };
        let mut tx = tx;
        let request = tx.again(cluster);
        self.put(t, Stand::Reading(tx));
        put_request(&mut outs, request);
        Ok(outs)
    }

    /// What is answered where `from` asks how the transaction ended: no record and no open transaction
    /// means abort.
    pub fn ask(&self, alloc: Global, from: NodeId, t: TxId) -> Result<Vec<Out>, Memory>
        ensures { IfOk result (λ outs. outs.items ≡ told_of t from (standing self.now t)) }
    {
        let outcome = match self.get(t) {
            None => Outcome::Abort,
            Some(Stand::Committed(tx)) => Outcome::Commit(tx.f),
            Some(_) => return Ok(Vec::new(alloc)),
        };
        let mut outs = Vec::new(alloc);
        push(&mut outs, Out::Send(from, Message::Tell { t, outcome }))?;
        Ok(outs)
    }
}
