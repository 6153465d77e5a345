//! The outs of what the calls of the parts answer, each put into room that is there.

ghost use Rattle.std.specs.Prelude.{◌≡◌, ◌+◌, ◌≤◌, ◌++◌, ◌∷◌, [], vec_len, vec_capacity};
ghost use Rattle.score_base.specs.declared.causes.Ballot.TheVariants as ballot;
ghost use Rattle.grid_model.specs.declared.acts.Act.TheVariants as act;
ghost use Rattle.grid_model.specs.declared.events.Out.TheVariants as out;
ghost use Rattle.grid_model.specs.declared.messages.Message.TheVariants as message;
ghost use Rattle.grid_model.specs.Advances.{to_node};
ghost use Rattle.grid_model.specs.Rows.{refused};
ghost use Rattle.snapshot_read.specs.Outs.{raised_outs, serve_outs, hold_outs, promised_outs, ceiling_outs};
ghost use Rattle.prepare_vote.specs.Votes.{vote_outs};

use grid_model::{Act, Message, Out, ReadRep};
use score_base::{Ballot, Cause, Ident, NodeId, Outcome, Record, TxId};
use snapshot_read::{Answer, Promised, Waits};

/// The clock rose.
fn put_raised(outs: &mut Vec<Out>, n: NodeId, raised: bool, sid: Ident)
    requires { vec_len outs.old + 1 ≤ vec_capacity outs.old }
    ensures outs { outs.new.items ≡ outs.old.items ++ raised_outs n raised sid }
    ensures room { vec_capacity outs.new ≡ vec_capacity outs.old }
{
    if raised {
        outs.push_reserved(Out::Act(Act::Raised(n, sid)));
    }
}

/// A read is served.
pub(crate) fn put_served(outs: &mut Vec<Out>, n: NodeId, answer: &Answer)
    requires { vec_len outs.old + 3 ≤ vec_capacity outs.old }
    ensures outs { outs.new.items ≡ outs.old.items ++ serve_outs n answer.now }
    ensures room { vec_capacity outs.new ≡ vec_capacity outs.old }
{
    put_raised(outs, n, answer.raised, answer.sid);
    outs.push_reserved(Out::Act(Act::Served(
        n,
        answer.t,
        answer.op,
        answer.key,
        answer.sid,
        answer.vn,
        answer.value,
    )));
    outs.push_reserved(Out::Send(
        answer.to,
        Message::ReadRep(ReadRep {
            t: answer.t,
            op: answer.op,
            sid: answer.sid,
            value: answer.value,
        }),
    ));
}

/// A read is held.
pub(crate) fn put_held(outs: &mut Vec<Out>, n: NodeId, t: TxId, op: u8, waits: Waits)
    requires { vec_len outs.old + 2 ≤ vec_capacity outs.old }
    ensures outs { outs.new.items ≡ outs.old.items ++ hold_outs n t op waits }
    ensures room { vec_capacity outs.new ≡ vec_capacity outs.old }
{
    put_raised(outs, n, waits.raised, waits.sid);
    outs.push_reserved(Out::Act(Act::Held(n, t, op, waits.sid)));
}

/// A read is answered whose ceiling is kept.
pub(crate) fn put_promised(outs: &mut Vec<Out>, n: NodeId, t: TxId, op: u8, promised: &Promised)
    requires { vec_len outs.old + 3 ≤ vec_capacity outs.old }
    ensures outs { outs.new.items ≡ outs.old.items ++ promised_outs n t op promised.now }
    ensures room { vec_capacity outs.new ≡ vec_capacity outs.old }
{
    match promised {
        Promised::Hold(waits) => put_held(outs, n, t, op, *waits),
        Promised::Serve(answer) => put_served(outs, n, answer),
    }
}

/// A no, with its cause.
pub(crate) fn put_refused(outs: &mut Vec<Out>, n: NodeId, to: NodeId, t: TxId, why: &Cause)
    requires { vec_len outs.old + 2 ≤ vec_capacity outs.old }
    ensures outs { outs.new.items ≡ outs.old.items ++ refused n to t why.now }
    ensures room { vec_capacity outs.new ≡ vec_capacity outs.old }
{
    outs.push_reserved(Out::Act(Act::Refused(n, t, *why)));
    let ballot = Ballot::No(*why);
    outs.push_reserved(Out::Send(to, Message::Vote { t, ballot }));
}

/// A yes whose record is kept: to this home, with this proposal.
pub(crate) fn put_vote(outs: &mut Vec<Out>, n: NodeId, t: TxId, vote: (NodeId, Ident))
    requires { vec_len outs.old + 2 ≤ vec_capacity outs.old }
    ensures outs { outs.new.items ≡ outs.old.items ++ vote_outs n t vote }
    ensures room { vec_capacity outs.new ≡ vec_capacity outs.old }
{
    let (home, p) = vote;
    outs.push_reserved(Out::Act(Act::Prepared(n, t, p)));
    let ballot = Ballot::Yes(p);
    outs.push_reserved(Out::Send(home, Message::Vote { t, ballot }));
}

/// The record of a ceiling is kept.
pub(crate) fn put_ceiling(outs: &mut Vec<Out>, n: NodeId, rec: &Record)
    requires { vec_len outs.old + 1 ≤ vec_capacity outs.old }
    ensures outs { outs.new.items ≡ outs.old.items ++ ceiling_outs n rec.now }
    ensures room { vec_capacity outs.new ≡ vec_capacity outs.old }
{
    if let Record::Ceiling { c } = rec {
        outs.push_reserved(Out::Act(Act::Ceiling(n, *c)));
    }
}

/// A yes that is given again.
pub(crate) fn put_again(outs: &mut Vec<Out>, to: NodeId, t: TxId, p: Ident)
    requires { vec_len outs.old + 1 ≤ vec_capacity outs.old }
    ensures outs { outs.new.items ≡ outs.old.items ++ out.Send to (message.Vote t (ballot.Yes p)) ∷ [] }
    ensures room { vec_capacity outs.new ≡ vec_capacity outs.old }
{
    let ballot = Ballot::Yes(p);
    outs.push_reserved(Out::Send(to, Message::Vote { t, ballot }));
}

/// An acknowledgement.
pub(crate) fn put_ack(outs: &mut Vec<Out>, to: NodeId, t: TxId)
    requires { vec_len outs.old + 1 ≤ vec_capacity outs.old }
    ensures outs { outs.new.items ≡ outs.old.items ++ out.Send to (message.Ack t) ∷ [] }
    ensures room { vec_capacity outs.new ≡ vec_capacity outs.old }
{
    outs.push_reserved(Out::Send(to, Message::Ack { t }));
}

/// The transaction ended here, and its record is kept; a commit is acknowledged to this home.
pub(crate) fn put_end(
    outs: &mut Vec<Out>,
    n: NodeId,
    t: TxId,
    outcome: &Outcome,
    home: Option<NodeId>,
)
    requires { vec_len outs.old + 2 ≤ vec_capacity outs.old }
    ensures outs { outs.new.items ≡ outs.old.items
        ++ out.Act (act.Ended n t outcome.now) ∷ to_node home (message.Ack t) }
    ensures room { vec_capacity outs.new ≡ vec_capacity outs.old }
{
    outs.push_reserved(Out::Act(Act::Ended(n, t, *outcome)));
    if let Some(home) = home {
        put_ack(outs, home, t);
    }
}

/// A question to the home, where it is known.
pub(crate) fn put_question(outs: &mut Vec<Out>, home: Option<NodeId>, t: TxId)
    requires { vec_len outs.old + 1 ≤ vec_capacity outs.old }
    ensures outs { outs.new.items ≡ outs.old.items ++ to_node home (message.Ask t) }
    ensures room { vec_capacity outs.new ≡ vec_capacity outs.old }
{
    if let Some(home) = home {
        outs.push_reserved(Out::Send(home, Message::Ask { t }));
    }
}
