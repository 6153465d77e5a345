//! A participant over a journal in memory, and the steps that it takes.

ghost use Rattle.std.specs.Prelude.{◌≡◌, true, IfOk, IfErr};
ghost use Rattle.journal_records.specs.Records.{CanEncode};
ghost use Rattle.journal_words.specs.Journals.{fits};
ghost use Rattle.grid_store.specs.Given.{HasRoom};
ghost use Rattle.prepare_vote.specs.Votes as vote;
ghost use Rattle.ordered_commit.specs.Ends as end;
ghost use Rattle.prepare_vote.specs.Votes.{CanJudge};
ghost use Rattle.ordered_commit.specs.Ends.{CanLearn};

use crate::documents::cluster;
use grid_model::Prepare;
use grid_store::Store;
use journal_words::records::{are_own_keys, is_among, keys_in};
use node_journal::{Journal, Kept, Stopped};
use ordered_commit::{EndDue, Learnt, learn};
use prepare_vote::{Due, Judged, judge};
use score_base::{Cause, Ident, Memory, NodeId, Outcome, Record, TxId};
use score_disk::MemDisk;
use std::alloc::Global;
use std::marker::Model;
use std::test::Fail;

const SMALL: u64 = 1 << 22;

/// What a participant knows, and its journal; none where it stopped.
#[derive(Drop)]
pub(crate) struct Participant {
    store: Store,
    journal: Option<Journal<MemDisk>>,
}

// Clauses see nothing of a participant, which keeps the proofs of its callers small.
impl Model for Participant {
    ghost use Rattle.std.specs.Prelude.{⊤};

    ghost Value = { ⊤ };

    ghost view = { λ _. tt };
}

impl Participant {
    /// What it knows.
    pub(crate) fn store(&self) -> &Store {
        &self.store
    }
}

/// What it said to a Prepare; to a yes that was due, by the vote.
#[derive(Clone, Copy)]
pub(crate) enum Said {
    Done,
    Again(Ident),
    No(Cause),
    Yes(NodeId, Ident),
}

/// What it said to an end; where one was due, by what settled it.
#[derive(Clone, Copy)]
pub(crate) enum Told {
    Settled(Option<NodeId>),
    Ack(NodeId),
    Ignore,
}

fn is_cause(cause: &Cause, wanted: &Cause) -> bool {
    match (cause, wanted) {
        (Cause::Holder(t), Cause::Holder(u)) => *t == *u,
        (Cause::Newer(key, f), Cause::Newer(other, g)) => *key == *other && *f == *g,
        _ => false,
    }
}

/// Whether nothing was to be said.
fn is_done(wanted: &Said) -> bool {
    match wanted {
        Said::Done => true,
        _ => false,
    }
}

/// Whether the same yes was to be said once more.
fn is_again(p: Ident, wanted: &Said) -> bool {
    match wanted {
        Said::Again(q) => p == *q,
        _ => false,
    }
}

/// Whether a no was to be said, for this cause.
fn is_no(why: Cause, wanted: &Said) -> bool {
    match wanted {
        Said::No(other) => is_cause(&why, other),
        _ => false,
    }
}

/// Whether this vote was to be given.
fn is_yes(home: NodeId, p: Ident, wanted: &Said) -> bool {
    match wanted {
        Said::Yes(other, q) => home == *other && p == *q,
        _ => false,
    }
}

/// Whether an end was to be settled so.
fn is_settled(home: Option<NodeId>, wanted: &Told) -> bool {
    match (home, wanted) {
        (None, Told::Settled(None)) => true,
        (Some(n), Told::Settled(Some(m))) => n == *m,
        _ => false,
    }
}

/// Whether an end was to be acknowledged once more.
fn is_ack(home: NodeId, wanted: &Told) -> bool {
    match wanted {
        Told::Ack(other) => home == *other,
        _ => false,
    }
}

/// Whether an end was to be ignored.
fn is_ignored(wanted: &Told) -> bool {
    match wanted {
        Told::Ignore => true,
        _ => false,
    }
}

/// A participant without records.
pub(crate) fn start(alloc: Global, me: NodeId) -> Result<Participant, Fail> {
    let store = Store::new(alloc, cluster(alloc)?, me);
    match Journal::open(alloc, MemDisk::new(alloc, Vec::new(alloc))) {
        Ok((journal, _)) => Ok(Participant {
            store,
            journal: Some(journal),
        }),
        Err(_) => Err(Fail::new("no journal")),
    }
}

/// The participant ends. Its parts are freed here alone, since each place where they are freed is
/// proved for itself.
pub(crate) fn end(node: Participant) {
    drop(node);
}

/// Whether the Prepare can be judged.
fn can_judge(alloc: Global, store: &Store, prepare: &Prepare) -> Result<bool, Memory>
    ensures { IfOk result (λ can. can ≡ true → CanJudge store.now prepare.now) }
{
    let (reads, writes) = (prepare.reads.as_slice(), prepare.writes.as_slice());
    let written = keys_in(alloc, writes)?;
    Ok(
        prepare.sid.0 < SMALL
            && store.next().0 < SMALL
            && is_among(store.node(), prepare.parts.as_slice())
            && !(reads.is_empty() && writes.is_empty())
            && are_own_keys(store.cluster(), store.node(), reads)
            && are_own_keys(store.cluster(), store.node(), written.as_slice()),
    )
}

/// Whether the record can be encoded: it has one or two parts, and short lists.
fn can_encode(rec: &Record) -> bool
    ensures { result ≡ true → CanEncode rec.now }
{
    match rec {
        Record::Prepared {
            parts,
            reads,
            writes,
            ..
        } => {
            let rise = match parts.as_slice() {
                [_] => true,
                [first, second] => first < second,
                _ => false,
            };
            rise && reads.len() <= 32 && writes.len() <= 32
        }
        Record::Ended { .. } => true,
        _ => false,
    }
}

/// Whether the end can be learnt.
fn can_learn(store: &Store, t: TxId, outcome: &Outcome) -> bool
    ensures { result ≡ true → CanLearn store.now t outcome.now }
{
    match (store.pending(t), outcome) {
        (Some(p), Outcome::Commit(f)) => p <= *f,
        _ => true,
    }
}

/// The record is kept, or given back.
fn keep(journal: &mut Option<Journal<MemDisk>>, rec: Record) -> Result<Kept, Record>
    ensures kept { IfOk result (λ kept. kept.rec ≡ rec) }
    ensures back { IfErr result (λ back. back ≡ rec) }
{
    if !can_encode(&rec) {
        return Err(rec);
    }
    let Some(mut open) = journal.take() else {
        return Err(rec);
    };
    if open.room().is_err() {
        return Err(rec);
    }
    match open.append(rec) {
        Ok((open, kept)) => {
            *journal = Some(open);
            Ok(kept)
        }
        Err(Stopped { disk: _, rec }) => Err(rec),
    }
}

/// The record of a yes is kept, and the vote given.
fn vote_on(
    journal: &mut Option<Journal<MemDisk>>,
    store: &mut Store,
    due: Due,
    rec: Record,
) -> Result<Said, Fail>
    requires of { vote.IsOf due rec }
    requires fits { fits store.old.cluster store.old.node store.old.journal rec ≡ true }
    requires room { HasRoom rec store.old.room }
{
    match keep(journal, rec) {
        Ok(kept) => {
            let (home, p) = due.vote(store, kept);
            Ok(Said::Yes(home, p))
        }
        Err(rec) => {
            due.down(rec);
            Err(Fail::new("stopped"))
        }
    }
}

/// The participant is asked to vote.
fn ask(
    alloc: Global,
    node: &mut Participant,
    from: NodeId,
    prepare: &Prepare,
) -> Result<Said, Fail> {
    if !can_judge(alloc, &node.store, prepare)? {
        return Err(Fail::new("not fit"));
    }
    match judge(&mut node.store, from, prepare)? {
        Judged::Done => Ok(Said::Done),
        Judged::Again(p) => Ok(Said::Again(p)),
        Judged::No(why) => Ok(Said::No(why)),
        Judged::Yes(due, rec) => vote_on(&mut node.journal, &mut node.store, due, rec),
    }
}

/// The record of an end is kept, and the end settled.
fn settle_on(
    journal: &mut Option<Journal<MemDisk>>,
    store: &mut Store,
    due: EndDue,
    rec: Record,
) -> Result<Told, Fail>
    requires of { end.IsOf due rec }
    requires fits { fits store.old.cluster store.old.node store.old.journal rec ≡ true }
    requires room { HasRoom rec store.old.room }
{
    match keep(journal, rec) {
        Ok(kept) => Ok(Told::Settled(due.settle(store, kept))),
        Err(rec) => {
            due.down(rec);
            Err(Fail::new("stopped"))
        }
    }
}

/// The participant is told how a transaction ended.
fn tell(node: &mut Participant, t: TxId, outcome: Outcome) -> Result<Told, Fail> {
    if !can_learn(&node.store, t, &outcome) {
        return Err(Fail::new("not fit"));
    }
    match learn(&mut node.store, t, outcome)? {
        Learnt::Ack(home) => Ok(Told::Ack(home)),
        Learnt::Ignore => Ok(Told::Ignore),
        Learnt::Due(due, rec) => settle_on(&mut node.journal, &mut node.store, due, rec),
    }
}

/// Whether it says this where it is asked to vote.
pub(crate) fn says(
    alloc: Global,
    node: &mut Participant,
    from: NodeId,
    prepare: &Prepare,
    wanted: Said,
) -> Result<bool, Fail> {
    match ask(alloc, node, from, prepare)? {
        Said::Done => Ok(is_done(&wanted)),
        Said::Again(p) => Ok(is_again(p, &wanted)),
        Said::No(why) => Ok(is_no(why, &wanted)),
        Said::Yes(home, p) => Ok(is_yes(home, p, &wanted)),
    }
}

/// Whether it answers this where it is told how a transaction ended.
pub(crate) fn hears(
    node: &mut Participant,
    t: TxId,
    outcome: Outcome,
    wanted: Told,
) -> Result<bool, Fail> {
    match tell(node, t, outcome)? {
        Told::Settled(home) => Ok(is_settled(home, &wanted)),
        Told::Ack(home) => Ok(is_ack(home, &wanted)),
        Told::Ignore => Ok(is_ignored(&wanted)),
    }
}
