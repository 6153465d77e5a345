//! Which messages and begins are fit at a node. One that is not changes nothing.

ghost use Rattle.std.specs.Prelude.{◌≡◌, ◌&&◌};
ghost use Rattle.grid_model.specs.Stories.{is_small, is_small_node, is_small_cause, is_fit_ballot};
ghost use Rattle.grid_model.specs.Fitness.{date_ident, is_fit_request, is_same_ident, is_rising, is_fit_prepare, is_at_least, is_fit_outcome, is_fit_content, is_fit, is_fit_begin, tx_in};
ghost use Rattle.grid_model.specs.Views.{View, participant, stage};
ghost use Rattle.node_core.specs.Shows.{Shows};

use crate::nodes::Node;
use grid_model::{Message, Prepare, ReadReq};
use grid_store::Store;
use score_base::{Ballot, Cause, Date, Ident, NodeId, Outcome};
use score_disk::Disk;
use script_lang::Script;

/// Identifiers are below this.
const SMALL: u64 = 1 << 22;

/// Whether an identifier is small.
fn is_small(ident: Ident) -> bool
    ensures { result ≡ is_small ident }
{
    ident.0 < SMALL
}

/// Whether both hold.
fn are_both(one: bool, other: bool) -> bool
    ensures { result ≡ (one && other) }
{
    one && other
}

/// Whether the floor and the clock are small.
fn is_small_store(store: &Store) -> bool
    ensures { result ≡ is_small_node store.now.journal store.now.next }
{
    is_small(store.floor()) && is_small(store.next())
}

/// The identifier of a date.
fn date_ident(date: Date) -> Ident
    ensures { result ≡ date_ident date }
{
    match &date {
        Date::First(sid0) => *sid0,
        Date::At(sid) => *sid,
    }
}

/// Whether a read request is fit.
fn is_fit_request(store: &Store, q: &ReadReq) -> bool
    ensures { result ≡ is_fit_request store.now.cluster store.now.node q.now }
{
    let key_here = store.cluster().places.holds(store.node(), &q.key);
    is_small(date_ident(q.date)) && 1 <= q.op && q.op <= 32 && key_here
}

/// Whether the identifier is the snapshot, where there is one.
fn is_same_ident(sid: Ident, snapshot: Option<Ident>) -> bool
    ensures { result ≡ is_same_ident sid snapshot }
{
    match snapshot {
        None => true,
        Some(other) => other == sid,
    }
}

/// Whether the nodes are rising.
fn is_rising(nodes: &[NodeId]) -> bool
    ensures { result ≡ is_rising nodes.now }
{
    let mut rest = nodes;
    while let [first, second, more @ ..] = rest {
        if *first >= *second {
            return false;
        }
        rest = &rest[1..];
    }
    true
}

/// Whether a Prepare is fit.
fn is_fit_prepare(store: &Store, q: &Prepare) -> bool
    ensures { result ≡ is_fit_prepare store.now.cluster store.now.node q.now }
{
    let (parts, reads, writes) = (q.parts.as_slice(), q.reads.as_slice(), q.writes.as_slice());
    is_small(q.sid)
        && 1 <= parts.len()
        && parts.len() <= 16
        && is_rising(parts)
        && reads.len() <= 32
        && writes.len() <= 32
        && store.are_sound(parts, reads, writes)
}

/// Whether the identifiers of a cause are small.
fn is_small_cause(cause: &Cause) -> bool
    ensures { result ≡ is_small_cause cause.now }
{
    match cause {
        Cause::Holder(_) => true,
        Cause::Newer(_, f) => is_small(*f),
    }
}

/// Whether the identifiers of a ballot are small, and the proposal of a yes is at least 1.
fn is_fit_ballot(ballot: &Ballot) -> bool
    ensures { result ≡ is_fit_ballot ballot.now }
{
    match ballot {
        Ballot::Yes(p) => is_small(*p) && 1 <= p.0,
        Ballot::No(cause) => is_small_cause(cause),
    }
}

/// Whether the identifier is at least the proposal, where there is one.
fn is_at_least(p: Option<Ident>, f: Ident) -> bool
    ensures { result ≡ is_at_least p f }
{
    match p {
        None => true,
        Some(p) => p <= f,
    }
}

/// Whether a final identifier is small, and at least the proposal where the transaction is pending.
fn is_fit_outcome(p: Option<Ident>, outcome: &Outcome) -> bool
    ensures { result ≡ is_fit_outcome p outcome.now }
{
    match outcome {
        Outcome::Commit(f) => is_small(*f) && is_at_least(p, *f),
        Outcome::Abort => true,
    }
}

impl<D: Disk> Node<D> {
    /// Whether what a message says is fit here.
    fn is_fit_content(&self, from: NodeId, message: &Message) -> bool
        ensures { (v : View) → Shows self.now.store self.now.waiting.reads self.now.desk v
            → result ≡ is_fit_content self.now.store.node (participant v) (stage v (tx_in message.now)) from message.now }
    {
        match message {
            Message::ReadReq(q) => is_fit_request(&self.store, q),
            Message::ReadRep(q) => {
                is_small(q.sid) && is_same_ident(q.sid, self.desk.snapshot(q.t, q.op))
            }
            Message::Prepare(q) => is_fit_prepare(&self.store, q),
            Message::Vote { t, ballot } => {
                is_fit_ballot(ballot) && !self.desk.stranger(*t, from)
            }
            Message::Tell { t, outcome } => is_fit_outcome(self.store.pending(*t), outcome),
            Message::Ack { t } => !self.desk.stranger(*t, from),
            Message::Ask { .. } => true,
            Message::AskPeer { .. } => true,
        }
    }

    /// Whether a message from `from` is fit here: on each view that the node shows.
    pub(crate) fn is_fit(&self, from: NodeId, message: &Message) -> bool
        ensures { (v : View) → Shows self.now.store self.now.waiting.reads self.now.desk v
            → result ≡ is_fit self.now.store.node v from message.now }
    {
        is_small_store(&self.store) && self.is_fit_content(from, message)
    }

    /// Whether a transaction whose session has this floor may begin here: on each view that the node
    /// shows.
    pub(crate) fn is_fit_begin(&self, script: &Script, floor: Ident) -> bool
        ensures { (v : View) → Shows self.now.store self.now.waiting.reads self.now.desk v
            → result ≡ is_fit_begin self.now.store.node v script.now floor }
    {
        let here = script.home == self.store.node();
        let free = !self.desk.has(script.number);
        are_both(here, are_both(is_small(floor), free))
    }
}
