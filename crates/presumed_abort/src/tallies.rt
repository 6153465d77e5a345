//! Votes are counted before their transaction changes, so that all memory is taken first.

ghost use Rattle.std.specs.Prelude.{◌≡◌, ◌++◌, ◌∷◌, [], IfOk};
ghost use Rattle.grid_model.specs.Rows.{decides};
ghost use Rattle.presumed_abort.specs.Turns.{yes_turn, no_turn, ballot_turn, acked_turn};
ghost use Rattle.presumed_abort.specs.Tallies.{made_turn, tally_turn, ack_tally_turn};

use crate::counts::{are_all_among, greatest_vote, have_voted, others, push_tells};
use crate::parts::Parts;
use crate::states::{Collecting, Committed};
use grid_model::{Act, Out, Voted};
use score_base::{
    Ballot, Cause, Ident, Members, Memory, NodeId, NodeList, Outcome, TryCopy, TxId, push,
};
use std::alloc::Global;

/// A vote that was counted: what it makes of its transaction, with all memory that this takes.
#[derive(Drop)]
pub struct Tally {
    pub(crate) made: Made,
}

/// What a vote makes of a transaction.
#[derive(Drop)]
pub(crate) enum Made {
    /// It is aborted, with these outs.
    No(Vec<Out>),
    /// It has these votes, and waits for more.
    More(Members<Voted>),
    /// It is full: the greatest proposal, the parts for its record, a list for the acknowledgements, and
    /// the outs.
    Full(Ident, Parts, NodeList, Vec<Out>),
}

/// The commit with the final identifier `f`.
fn decides(alloc: Global, t: TxId, f: Ident, parts: &[NodeId]) -> Result<Vec<Out>, Memory>
    ensures { IfOk result (λ outs. outs.items ≡ decides t f parts.now) }
{
    let mut outs = Vec::new(alloc);
    push(&mut outs, Out::Act(Act::Decided(t, f)))?;
    push(&mut outs, Out::Act(Act::Finished(t)))?;
    push_tells(&mut outs, t, &Outcome::Commit(f), parts)?;
    Ok(outs)
}

/// A yes.
fn count_yes(alloc: Global, tx: &Collecting, vote: Voted) -> Result<Made, Memory>
    ensures { IfOk result (λ y. made_turn tx.now y ≡ yes_turn tx.now (tx.now.tx.progress.votes ++ vote ∷ [])) }
{
    let mut votes = tx.tx.progress.votes.copy()?;
    votes.push(vote)?;
    if !have_voted(tx.parts.as_slice(), votes.as_slice()) {
        return Ok(Made::More(votes));
    }
    let f = greatest_vote(votes.as_slice());
    let outs = decides(alloc, tx.t, f, tx.parts.as_slice())?;
    Ok(Made::Full(f, tx.parts.copy()?, NodeList::new(alloc), outs))
}

/// A no.
fn count_no(alloc: Global, tx: &Collecting, from: NodeId, why: &Cause) -> Result<Made, Memory>
    ensures { IfOk result (λ y. made_turn tx.now y ≡ no_turn tx.now from why.now) }
{
    let told = others(alloc, from, tx.parts.as_slice())?;
    let mut outs = Vec::new(alloc);
    push(&mut outs, Out::Act(Act::Aborted(tx.t, from, *why)))?;
    push_tells(&mut outs, tx.t, &Outcome::Abort, told.as_slice())?;
    Ok(Made::No(outs))
}

impl Collecting {
    /// Counts a vote that is the first of its part, and changes nothing yet.
    pub fn tally(&self, alloc: Global, from: NodeId, ballot: &Ballot) -> Result<Tally, Memory>
        ensures { IfOk result (λ y. tally_turn self.now y ≡ ballot_turn self.now from ballot.now) }
    {
        let made = match ballot {
            Ballot::Yes(p) => count_yes(alloc, self, Voted { from, p: *p })?,
            Ballot::No(why) => count_no(alloc, self, from, why)?,
        };
        Ok(Tally { made })
    }
}

/// An acknowledgement that was counted: what it makes of its transaction, with all memory that this takes.
#[derive(Drop)]
pub struct AckTally {
    pub(crate) made: AckMade,
}

/// What an acknowledgement makes of a decided transaction.
#[derive(Drop)]
pub(crate) enum AckMade {
    /// It has these acknowledgements, and waits for more.
    More(NodeList),
    /// It has all, with these outs.
    Last(Vec<Out>),
}

impl Committed {
    /// Counts an acknowledgement that is the first of its part, and changes nothing yet.
    pub fn tally(&self, alloc: Global, from: NodeId) -> Result<AckTally, Memory>
        ensures { IfOk result (λ y. ack_tally_turn self.now y ≡ acked_turn self.now (self.now.acks ++ from ∷ [])) }
    {
        let mut acks = self.acks.copy()?;
        acks.push(from)?;
        if !are_all_among(self.parts.as_slice(), acks.as_slice()) {
            let made = AckMade::More(acks);
            return Ok(AckTally { made });
        }
        let mut outs = Vec::new(alloc);
        push(&mut outs, Out::Act(Act::Closed(self.t)))?;
        let made = AckMade::Last(outs);
        Ok(AckTally { made })
    }
}
