//! The states of a transaction at its home. Each is consumed by its change.

ghost use Rattle.std.specs.Prelude.{◌≡◌, false, IfOk, IfErr};
ghost use Rattle.presumed_abort.specs.Becoming.{becomes_change, step_turn};
ghost use Rattle.presumed_abort.specs.Typed.{change_then, turn_of};

use crate::advances::{Becomes, Step, begin, take_reply};
use crate::opens::Open;
use crate::parts::Parts;
use crate::requests::{holders_of, place_behind, request};
use crate::tallies::{AckMade, AckTally, Made, Tally};
use crate::turns::{Acked, Then, Turn, Voted};
use grid_model::{Out, Progress, ReadReq};
use node_journal::Kept;
use placement::Cluster;
use score_base::{Ballot, Ident, Memory, NodeId, NodeList, Record, TxId, Value};
use script_lang::Script;
use std::alloc::Global;

/// A transaction that waits for the reply to an operation.
#[derive(Drop)]
pub struct Reading {
    pub(crate) tx: Open,
    pub(crate) op: u8,
}

/// A transaction that waits for the votes of its parts.
#[derive(Drop)]
pub struct Collecting {
    pub(crate) t: TxId,
    pub(crate) tx: Open,
    pub(crate) parts: Parts,
}

/// A transaction of which each part has voted yes, with what is given of its decision. It must be spent: by the
/// receipt of that.
pub struct Ready {
    pub(crate) t: TxId,
    pub(crate) f: Ident,
    pub(crate) parts: Parts,
    /// No acknowledgement yet; the list is made here, so that a commit takes no memory.
    pub(crate) acks: NodeList,
    pub(crate) outs: Vec<Out>,
}

/// A transaction of which a part has voted no, with what is given of it. It must be spent.
pub struct Aborted {
    outs: Vec<Out>,
}

/// A transaction that is decided, with the parts that have acknowledged it.
#[derive(Drop)]
pub struct Committed {
    pub(crate) t: TxId,
    pub(crate) f: Ident,
    pub(crate) parts: NodeList,
    pub(crate) acks: NodeList,
}

/// A decided transaction that each part has acknowledged, with what is given of its end. It must be spent: by the
/// receipt of that.
pub struct Closing {
    pub(crate) t: TxId,
    pub(crate) outs: Vec<Out>,
}

/// What a transaction of this script becomes that came so far.
fn then_of(script: Script, progress: Progress, becomes: Becomes) -> Then
    ensures { change_then result
        ≡ becomes_change script.number (record { script = script; progress = progress }) becomes }
{
    let t = script.number;
    let mut tx = Open { script, progress };
    match becomes {
        Becomes::Reads(op, turn) => {
            tx.progress.turn = turn;
            Then::Ask(Reading { tx, op })
        }
        Becomes::Collects(parts) => Then::Collect(Collecting { t, tx, parts }),
        Becomes::Ends => Then::Answered(t),
    }
}

/// The turn of a transaction with this script that makes this step.
fn turn_by(script: Script, step: Step) -> Turn
    ensures { turn_of result ≡ step_turn script.number script step }
{
    let Step {
        progress,
        becomes,
        outs,
    } = step;
    let goes = then_of(script, progress, becomes);
    Turn { outs, goes }
}

impl Reading {
    ghost use Rattle.std.specs.Prelude.{IfSome, IfNone};
    ghost use Rattle.grid_model.specs.Advances.{request};
    ghost use Rattle.presumed_abort.specs.Replies.{begin_turn, taken_turn, request_sent};
    ghost use Rattle.presumed_abort.specs.Retries.{turned};

    /// A transaction of this script begins, at this identifier. Want of memory gives the script back.
    pub fn start(
        alloc: Global,
        cluster: &Cluster,
        script: Script,
        sid0: Ident,
    ) -> Result<Turn, (Script, Memory)>
        ensures turn { IfOk result (λ y. turn_of y ≡ begin_turn cluster.now script sid0) }
        ensures err { IfErr result (λ e. e.0 ≡ script) }
    {
        match begin(alloc, cluster, &script, sid0) {
            Ok(step) => Ok(turn_by(script, step)),
            Err(memory) => Err((script, memory)),
        }
    }

    /// The reply that it waits for: this value, at this identifier. The first one fixes the snapshot. Want of
    /// memory gives it back as it was.
    pub fn take(
        self,
        alloc: Global,
        cluster: &Cluster,
        value: Value,
        sid: Ident,
    ) -> Result<Turn, (Reading, Memory)>
        ensures turn { IfOk result (λ y. turn_of y ≡ taken_turn cluster.now value sid self) }
        ensures err { IfErr result (λ e. e.0 ≡ self) }
    {
        match take_reply(alloc, cluster, &self, value, sid) {
            Ok(step) => Ok(self.went(step)),
            Err(memory) => Err((self, memory)),
        }
    }

    /// The turn that makes this step.
    fn went(self, step: Step) -> Turn
        ensures { turn_of result ≡ step_turn self.tx.script.number self.tx.script step }
    {
        let Reading { tx, op: _ } = self;
        let Open {
            script,
            progress: _,
        } = tx;
        turn_by(script, step)
    }

    /// The request of its operation, to the next holder in turn; the one behind is asked next. There is none
    /// where its script has no such operation or no node holds the key, and then it stays as it was.
    pub fn again(&mut self, cluster: &Cluster) -> Option<(NodeId, ReadReq)>
        ensures sent { request_sent result
            ≡ request cluster.now self.old.tx self.old.op self.old.tx.progress.turn }
        ensures turned { IfSome result (λ p. self.new ≡ turned cluster.now self.old) }
        ensures none { IfNone result (self.new ≡ self.old) }
    {
        let (op, turn) = (self.op, self.tx.progress.turn);
        let tx = self.tx.lend();
        let Some(sent) = request(cluster, &tx, op, turn) else {
            return None;
        };
        let next = place_behind(holders_of(cluster, &tx, op), turn);
        self.tx.progress.turn = next;
        Some(sent)
    }
}

impl Collecting {
    ghost use Rattle.grid_model.specs.Stories.{has_voted};
    ghost use Rattle.presumed_abort.specs.Tallies.{made_turn, tally_turn};
    ghost use Rattle.presumed_abort.specs.Turns.{ballot_turn};
    ghost use Rattle.presumed_abort.specs.Typed.{IsVoted};

    /// A vote of a part whose vote is not taken, which was counted. It takes no memory.
    pub fn vote(self, from: NodeId, ballot: &Ballot, tally: Tally) -> Voted
        requires first { has_voted from self.tx.progress.votes ≡ false }
        requires counted { tally_turn self tally ≡ ballot_turn self from ballot.now }
        ensures { IsVoted (ballot_turn self from ballot.now) result }
    {
        let Tally { made } = tally;
        self.counted(made)
    }

    /// What a vote that was counted makes of it.
    fn counted(self, made: Made) -> Voted
        ensures { IsVoted (made_turn self made) result }
    {
        let Collecting { t, tx, parts } = self;
        match made {
            Made::No(outs) => Voted::Refused(Aborted { outs }),
            Made::More(votes) => {
                let mut tx = tx;
                tx.progress.votes = votes;
                Voted::More(Collecting { t, tx, parts })
            }
            Made::Full(f, told, acks, outs) => {
                let rec = Record::Decided {
                    t,
                    f,
                    parts: told.into_list(),
                };
                let ready = Ready {
                    t,
                    f,
                    parts,
                    acks,
                    outs,
                };
                Voted::Full(ready, rec)
            }
        }
    }
}

impl Ready {
    ghost use Rattle.presumed_abort.specs.States.{IsDecided};

    /// It is decided, since its record is kept. Its outs are given, and the record is given up for the store.
    pub fn commit(self, kept: Kept) -> (Committed, Vec<Out>, Record)
        requires { IsDecided self.t self.f kept.rec }
        ensures committed { result.0 ≡ record { t = self.t; f = self.f; parts = self.parts; acks = self.acks } }
        ensures outs { result.1 ≡ self.outs }
        ensures rec { result.2 ≡ kept.rec }
    {
        let Ready {
            t,
            f,
            parts,
            acks,
            outs,
        } = self;
        let rec = kept.spend();
        let parts = parts.into_list();
        (Committed { t, f, parts, acks }, outs, rec)
    }

    /// It gives up its outs to the due value that holds it, and has none itself.
    pub(crate) fn part(self, alloc: Global) -> (Ready, Vec<Out>)
        ensures ready { result.0 ≡ record self { outs = result.0.outs } }
        ensures outs { result.1 ≡ self.outs }
    {
        let Ready {
            t,
            f,
            parts,
            acks,
            outs,
        } = self;
        let ready = Ready {
            t,
            f,
            parts,
            acks,
            outs: Vec::new(alloc),
        };
        (ready, outs)
    }
}

impl Aborted {
    /// What is given of it: nothing rests on a record.
    pub fn told(self) -> Vec<Out>
        ensures { result ≡ self.outs }
    {
        let Aborted { outs } = self;
        outs
    }
}

impl Committed {
    ghost use Rattle.placement.specs.Places.{is_among};
    ghost use Rattle.std.specs.Prelude.{◌++◌, ◌∷◌, []};
    ghost use Rattle.presumed_abort.specs.Tallies.{ack_made_turn, ack_tally_turn};
    ghost use Rattle.presumed_abort.specs.Turns.{acked_turn};
    ghost use Rattle.presumed_abort.specs.Typed.{IsAcked};

    /// The acknowledgement of a part whose acknowledgement is not taken, which was counted. It takes no memory.
    pub fn ack(self, from: NodeId, tally: AckTally) -> Acked
        requires first { is_among from self.acks ≡ false }
        requires counted { ack_tally_turn self tally ≡ acked_turn self (self.acks ++ from ∷ []) }
        ensures { IsAcked (acked_turn self (self.acks ++ from ∷ [])) result }
    {
        let AckTally { made } = tally;
        self.counted(made)
    }

    /// What an acknowledgement that was counted makes of it.
    fn counted(self, made: AckMade) -> Acked
        ensures { IsAcked (ack_made_turn self made) result }
    {
        let mut tx = self;
        match made {
            AckMade::More(acks) => {
                tx.acks = acks;
                Acked::More(tx)
            }
            AckMade::Last(outs) => {
                let t = tx.t;
                Acked::Last(Closing { t, outs }, Record::Closed { t })
            }
        }
    }
}

impl Closing {
    ghost use Rattle.presumed_abort.specs.States.{IsClosed};

    /// It is closed, since its record is kept. Its outs are given, and the record is given up for the store.
    pub fn close(self, kept: Kept) -> (Vec<Out>, Record)
        requires { IsClosed self.t kept.rec }
        ensures outs { result.0 ≡ self.outs }
        ensures rec { result.1 ≡ kept.rec }
    {
        let Closing { t: _, outs } = self;
        (outs, kept.spend())
    }

    /// It gives up its outs to the due value that holds it, and has none itself.
    pub(crate) fn part(self, alloc: Global) -> (Closing, Vec<Out>)
        ensures closing { result.0 ≡ record self { outs = result.0.outs } }
        ensures outs { result.1 ≡ self.outs }
    {
        let Closing { t, outs } = self;
        let closing = Closing {
            t,
            outs: Vec::new(alloc),
        };
        (closing, outs)
    }
}
