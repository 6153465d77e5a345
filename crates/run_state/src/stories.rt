//! What an act tells of a transaction.
ghost use Rattle.std.specs.Prelude.{◌≡◌, ℕ, List, Some, IfOk};
ghost use Rattle.std.specs.List.{list_any};
ghost use Rattle.grid_model.specs.Stories.{at_begin, begun, progressed, with_request, with_value, with_vote, with_ack, without_answers, has_voted, is_collecting, undecided_phase, phase_at, is_small, is_small_node, is_counted_vote, is_counted_ack, heard};
ghost use Rattle.grid_model.specs.Nodes.{parts_of};

use crate::plain_nodes::PlainNode;
use crate::scripts::parts_of;
use grid_model::{Document, Message, Progress, Story, Voted};
use journal_words::records::{floor, is_closed, later_decision};
use score_base::{Ballot, Ident, Members, Memory, NodeId, NodeList, TryCopy, Value};
use script_lang::{Script, is_update};
use script_runs::first_waiting;
use std::alloc::Global;

/// How far a transaction came that is begun.
fn at_begin(alloc: Global, sid0: Ident) -> Progress
    ensures { result ≡ at_begin sid0 }
{
    Progress {
        sid0,
        turn: 0,
        sid: None,
        values: Members::new(alloc),
        votes: Members::new(alloc),
    }
}

/// A transaction that is begun where so many Decided of it are over.
pub fn begun(alloc: Global, skipped: usize, sid0: Ident) -> Story
    ensures { result ≡ begun skipped sid0 }
{
    Story {
        progress: at_begin(alloc, sid0),
        skipped,
        acks: NodeList::new(alloc),
        finished: false,
        aborted: false,
        lost: false,
    }
}

/// An equal progress.
fn copy_of_progress(progress: &Progress) -> Result<Progress, Memory>
    ensures { IfOk result (λ x. x ≡ progress.now) }
{
    Ok(Progress {
        sid0: progress.sid0,
        turn: progress.turn,
        sid: progress.sid,
        values: progress.values.copy()?,
        votes: progress.votes.copy()?,
    })
}

/// An equal story.
pub fn copy_of(story: &Story) -> Result<Story, Memory>
    ensures { IfOk result (λ x. x ≡ story.now) }
{
    Ok(Story {
        progress: copy_of_progress(&story.progress)?,
        skipped: story.skipped,
        acks: story.acks.copy()?,
        finished: story.finished,
        aborted: story.aborted,
        lost: story.lost,
    })
}

/// The story behind a request more for a key of so many holders.
pub fn with_request(holders: usize, story: &Story) -> Result<Story, Memory>
    ensures { IfOk result (λ x. x ≡ progressed (with_request holders) story.now) }
{
    let mut told = copy_of(story)?;
    let turn = story.progress.turn;
    told.progress.turn = if turn < holders && turn + 1 < holders {
        turn + 1
    } else {
        0
    };
    Ok(told)
}

/// The story behind a reply that is taken: the first fixes the snapshot.
pub fn with_value(j: u8, sid: Ident, value: Value, story: &Story) -> Result<Story, Memory>
    ensures { IfOk result (λ x. x ≡ progressed (with_value j sid value) story.now) }
{
    let mut told = copy_of(story)?;
    told.progress.turn = 0;
    if told.progress.sid.is_none() {
        told.progress.sid = Some(sid);
    }
    told.progress.values.push((j, value))?;
    Ok(told)
}

/// Whether a yes of the node was taken.
pub fn has_voted(n: NodeId, votes: &[Voted]) -> bool
    ensures { result ≡ has_voted n votes.now }
{
    votes.iter().any(|vote| vote.from == n)
}

/// The story behind a yes of the node; the first one is taken.
fn with_vote(from: NodeId, p: Ident, story: &Story) -> Result<Story, Memory>
    ensures { IfOk result (λ x. x ≡ progressed (with_vote from p) story.now) }
{
    let mut told = copy_of(story)?;
    if !has_voted(from, story.progress.votes.as_slice()) {
        told.progress.votes.push(Voted { from, p })?;
    }
    Ok(told)
}

/// The story behind an acknowledgement of the node.
fn with_ack(from: NodeId, story: &Story) -> Result<Story, Memory>
    ensures { IfOk result (λ x. x ≡ with_ack from story.now) }
{
    let mut told = copy_of(story)?;
    if !story.acks.as_slice().contains(&from) {
        told.acks.push(from)?;
    }
    Ok(told)
}

/// The story without its votes and acknowledgements.
pub fn without_answers(alloc: Global, story: Story) -> Story
    ensures { result ≡ without_answers story }
{
    let mut told = story;
    told.progress.votes = Members::new(alloc);
    told.acks = NodeList::new(alloc);
    told
}

/// Whether a transaction that is not decided is collecting.
fn is_undecided_collecting(script: &Script, story: &Story) -> bool
    ensures { result ≡ is_collecting (undecided_phase script.now.ops story.now) }
{
    if story.aborted || (story.finished && !is_update(script.ops())) {
        return false;
    }
    first_waiting(script.ops(), story.progress.values.as_slice()).is_none()
}

/// Whether a transaction is collecting, by its story and its home.
fn is_collecting(script: &Script, story: &Story, home: &PlainNode) -> bool
    ensures { result ≡ is_collecting (phase_at script.now (Some story.now) home.now) }
{
    let decided = later_decision(story.skipped, home.records.as_slice(), script.number);
    if story.lost || decided.is_some() {
        return false;
    }
    is_undecided_collecting(script, story)
}

/// Whether an identifier is below 2^22.
pub fn is_small(ident: Ident) -> bool
    ensures { result ≡ is_small ident }
{
    ident.0 < 1 << 22
}

/// Whether the floor and the clock of a node are small.
pub fn is_small_node(node: &PlainNode) -> bool
    ensures { result ≡ is_small_node node.now.journal node.now.next }
{
    is_small(floor(node.records.as_slice())) && is_small(node.next)
}

/// Whether a yes of the node counts, where these are the parts.
fn is_counted_vote(
    parts: &[NodeId],
    script: &Script,
    story: &Story,
    home: &PlainNode,
    from: NodeId,
    p: Ident,
) -> bool
    ensures { result ≡ is_counted_vote parts.now (phase_at script.now (Some story.now) home.now) home.now.journal
        home.now.next from p }
{
    is_collecting(script, story, home)
        && is_small_node(home)
        && is_small(p)
        && 1 <= p.0
        && parts.contains(&from)
}

/// Whether an acknowledgement of the node counts, where these are the parts of an open transaction.
fn is_counted_ack(script: &Script, story: &Story, home: &PlainNode, from: NodeId) -> bool
    ensures { (ns : List ℕ) → result
        ≡ is_counted_ack ns (phase_at script.now (Some story.now) home.now) home.now.journal home.now.next from }
{
    let records = home.records.as_slice();
    if story.lost || is_closed(records, script.number) {
        return false;
    }
    match later_decision(story.skipped, records, script.number) {
        None => false,
        Some(decided) => is_small_node(home) && decided.parts.as_slice().contains(&from),
    }
}

/// The story of the script's transaction behind a message that comes to its home.
pub fn heard(
    alloc: Global,
    doc: &Document,
    script: &Script,
    home: &PlainNode,
    from: NodeId,
    message: &Message,
    story: &Story,
) -> Result<Story, Memory>
    ensures { IfOk result (λ x. Some x ≡ heard (parts_of doc.now script.now)
        (phase_at script.now (Some story.now) home.now) home.now script.now.number from message.now (Some story.now)) }
{
    match message {
        Message::Vote {
            t,
            ballot: Ballot::Yes(p),
        } => {
            let parts = parts_of(alloc, doc, script)?;
            if *t == script.number
                && is_counted_vote(parts.as_slice(), script, story, home, from, *p)
            {
                return with_vote(from, *p, story);
            }
            copy_of(story)
        }
        Message::Ack { t } => {
            if *t == script.number && is_counted_ack(script, story, home, from) {
                return with_ack(from, story);
            }
            copy_of(story)
        }
        _ => copy_of(story),
    }
}
