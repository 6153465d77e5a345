//! A run so far, with what its acts tell kept beside them.
ghost use Rattle.std.specs.Prelude.{◌≡◌, ◌≤◌, ◌+◌, ◌-◌, ◌==◌, ◌||◌, ◌++◌, ◌∷◌, [], ℕ, true, IfOk, OnOk, IfSome, IfNone, length};
ghost use Rattle.std.specs.Option.{option_copied};
ghost use Rattle.grid_model.specs.Histories.{after, sent, sent_at};
ghost use Rattle.grid_model.specs.Nodes.{change, changed, is_home};
ghost use Rattle.grid_model.specs.Disks.{is_compact, compacting_behind};
ghost use Rattle.grid_model.specs.Stories.{progressed, with_value};
ghost use Rattle.grid_model.specs.Keyed.{at_key, IsPlace, IsAbsent};
ghost use Rattle.run_state.specs.Kept.{posted, got_by, going, is_number, is_marked, place_of, node_in, put_telling, forgotten, forgotten_one, retold_by};

use crate::marks::{is_marked, mark};
use crate::plain_nodes::PlainNode;
use crate::scripts::{home_of, is_home, script_of};
use crate::stories::{begun, copy_of, heard, with_request, with_value, without_answers};
use grid_model::{Act, Document, Envelope, Head, Message, Story};
use journal_words::records::times_over;
use score_base::{Ident, Memory, NodeId, TryCopy, TxId, Value, push};
use std::alloc::Global;
use std::marker::Model;

/// The run of a document so far. Contracts see the document and the acts, in the order of time.
#[derive(Drop)]
pub struct RunState<'a> {
    doc: &'a Document,
    acts: Vec<Act>,
    /// The messages that were sent.
    sent: Vec<Envelope>,
    /// For each number of a message, whether it was got, missed or dropped.
    gone: Vec<bool>,
    /// The message that was got last.
    got: Option<Envelope>,
    /// The nodes from 1 to 16.
    nodes: Vec<PlainNode>,
    stories: Vec<(TxId, Story)>,
}

impl<'a> Model for RunState<'a> {
    ghost use Rattle.run_state.specs.Kept.{RunData, Keeps};
    ghost use Rattle.grid_model.specs.Histories.{after};
    ghost use Rattle.std.specs.Prelude.{[]};

    ghost Value = { RunData };

    ghost view = { λ r. record { doc = r.doc.now; acts = r.acts.items } };

    ghost invariant = { λ r. Keeps r.doc.now (after [] r.acts.items) r.sent.items r.gone.items r.got r.nodes.items r.stories.items };
}

/// A message by its number.
fn envelope_at(sent: &[Envelope], m: u32) -> Option<&Envelope>
    ensures { option_copied result ≡ sent_at m sent.now }
{
    if m == 0 {
        return None;
    }
    sent.get(m as usize - 1)
}

/// The message that was got last, behind one act more.
fn got_by(act: &Act, sent: &[Envelope], last: Option<Envelope>) -> Result<Option<Envelope>, Memory>
    ensures { IfOk result (λ o. o ≡ got_by act.now sent.now last) }
{
    let Act::Got(m) = act else {
        return Ok(last);
    };
    match envelope_at(sent, *m) {
        None => Ok(None),
        Some(envelope) => Ok(Some(envelope.copy()?)),
    }
}

/// Keeps the message that an act sends.
fn post(act: &Act, sent: &mut Vec<Envelope>) -> Result<(), Memory>
    ensures { OnOk result (sent.new.items ≡ posted act.now sent.old.items) }
{
    match act {
        Act::Sent(_, from, to, message) => push(
            sent,
            Envelope {
                from: *from,
                to: *to,
                message: message.copy()?,
            },
        ),
        _ => Ok(()),
    }
}

/// Marks the message that an act takes away.
fn mark_gone(act: &Act, gone: &mut Vec<bool>) -> Result<(), Memory>
    ensures { OnOk result
        ((k : ℕ) → is_marked gone.new.items k ≡ (is_number (going act.now) k || is_marked gone.old.items k)) }
{
    match act {
        Act::Got(m) => mark(gone, *m),
        Act::Missed(m) => mark(gone, *m),
        Act::Dropped(m) => mark(gone, *m),
        _ => Ok(()),
    }
}

/// The node that an act is of.
fn place_of(doc: &Document, act: &Act) -> Option<NodeId>
    ensures { result ≡ place_of doc.now act.now }
{
    match act {
        Act::Prepared(n, _, _) => Some(*n),
        Act::Ended(n, _, _) => Some(*n),
        Act::Ceiling(n, _) => Some(*n),
        Act::Decided(t, _) => home_of(doc, *t),
        Act::Closed(t) => home_of(doc, *t),
        Act::Raised(n, _) => Some(*n),
        Act::Held(n, _, _, _) => Some(*n),
        Act::Served(n, _, _, _, _, _, _) => Some(*n),
        Act::Down(n, _) => Some(*n),
        Act::Up(n, _) => Some(*n),
        Act::StillDown(n) => Some(*n),
        _ => None,
    }
}

/// Whether a node that stopped with this head stopped in a compaction.
fn is_compact(head: &Option<Head>) -> bool
    ensures { result ≡ is_compact head.now }
{
    match head {
        Some(Head::Compact) => true,
        _ => false,
    }
}

/// Whether a compaction of node `n` is in doubt behind an act, where it was or was not before.
fn compacting_behind(act: &Act, n: NodeId, was: bool) -> bool
    ensures { result ≡ compacting_behind act.now n was }
{
    match act {
        Act::Down(m, head) if *m == n => is_compact(head),
        Act::Up(m, _) if *m == n => false,
        _ => was,
    }
}

/// Keeps what an act changes at its node, behind the message that was got last.
fn keep_node(
    alloc: Global,
    doc: &Document,
    last: Option<&Envelope>,
    act: &Act,
    nodes: &mut Vec<PlainNode>,
) -> Result<(), Memory>
    requires { length nodes.old.items ≡ 16 }
    ensures count { OnOk result (length nodes.new.items ≡ 16) }
    ensures each { OnOk result ((n : ℕ) → 1 ≤ n → n ≤ 16 → node_in nodes.new.items n
        ≡ changed (change doc.now (option_copied last.entry) act.now n) (node_in nodes.old.items n)) }
{
    let Some(n) = place_of(doc, act) else {
        return Ok(());
    };
    let node = &mut nodes[n.number as usize - 1];
    node.keep(alloc, doc, last, act, n)?;
    Ok(())
}

/// The place of a transaction.
fn story_place(stories: &[(TxId, Story)], t: TxId) -> Option<usize>
    ensures found { IfSome result (λ i. IsPlace t stories.now i) }
    ensures none { IfNone result (IsAbsent t stories.now) }
{
    for i in 0..stories.len() {
        if stories[i].0 == t {
            return Some(i);
        }
    }
    None
}

/// Keeps the story that is changed.
fn put_telling(
    stories: &mut Vec<(TxId, Story)>,
    telling: Option<(TxId, Story)>,
) -> Result<(), Memory>
    ensures { OnOk result (stories.new.items ≡ put_telling telling stories.old.items) }
{
    let Some((t, story)) = telling else {
        return Ok(());
    };
    match story_place(stories.as_slice(), t) {
        Some(i) => {
            stories[i] = (t, story);
            Ok(())
        }
        None => push(stories, (t, story)),
    }
}

/// A story where node `n` stops.
fn forgotten_one(alloc: Global, doc: &Document, n: NodeId, pair: (TxId, Story)) -> (TxId, Story)
    ensures { result ≡ forgotten_one doc.now n pair }
{
    let (t, story) = pair;
    if is_home(doc, t, n) {
        (t, without_answers(alloc, story))
    } else {
        (t, story)
    }
}

/// The stories where node `n` stops.
fn forgotten(
    alloc: Global,
    doc: &Document,
    n: NodeId,
    stories: Vec<(TxId, Story)>,
) -> Result<Vec<(TxId, Story)>, Memory>
    ensures { IfOk result (λ xs. xs.items ≡ forgotten doc.now n stories.items) }
{
    let mut left = Vec::new(alloc);
    for pair in stories {
        push(&mut left, forgotten_one(alloc, doc, n, pair))?;
    }
    Ok(left)
}

/// The stories behind one act more, which changes this one.
fn retold(
    alloc: Global,
    doc: &Document,
    act: &Act,
    telling: Option<(TxId, Story)>,
    stories: Vec<(TxId, Story)>,
) -> Result<Vec<(TxId, Story)>, Memory>
    ensures { IfOk result (λ xs. xs.items ≡ retold_by doc.now act.now telling stories.items) }
{
    if let Act::Down(n, _) = act {
        return forgotten(alloc, doc, *n, stories);
    }
    let mut stories = stories;
    put_telling(&mut stories, telling)?;
    Ok(stories)
}

impl<'a> RunState<'a> {
    ghost use Rattle.run_state.specs.Kept.{RunData, past, retold, hearing_at, hearing_of, hearing, asking, telling};
    ghost use Rattle.grid_model.specs.Nodes.{node, script_of};
    ghost use Rattle.grid_model.specs.Stories.{story, over_at};
    ghost use Rattle.grid_model.specs.declared.stories.Story.{Story};
    ghost use Rattle.std.specs.Fn.{FnOnceReturnsAtMut};
    ghost use Rattle.grid_model.specs.Schedules.{next_number, next_left, first_left};
    ghost use Rattle.grid_model.specs.Histories.{is_gone};
    ghost use Rattle.grid_model.specs.Disks.{is_compacting};

    /// No act yet.
    pub fn new(alloc: Global, doc: &'a Document) -> Result<RunState<'a>, Memory>
        ensures { IfOk result (λ r. r ≡ record { doc = doc.now; acts = [] }) }
    {
        let mut nodes = Vec::new(alloc);
        for n in 0..16usize {
            push(&mut nodes, PlainNode::blank(alloc))?;
        }
        Ok(RunState {
            doc,
            acts: Vec::new(alloc),
            sent: Vec::new(alloc),
            gone: Vec::new(alloc),
            got: None,
            nodes,
            stories: Vec::new(alloc),
        })
    }

    /// The document.
    pub fn doc(&self) -> &'a Document
        ensures { result.now ≡ self.now.doc }
    {
        self.doc
    }

    /// A node.
    pub fn node(&self, n: NodeId) -> &PlainNode
        ensures { result.now ≡ node self.now.doc (past self.now) n }
    {
        &self.nodes[n.number as usize - 1]
    }

    #[tactic(auto, using(crate::proofs::Compacting::compacting_all))]
    /// Whether a compaction of a node is in doubt: it stopped in one and was not opened since.
    pub fn is_compacting(&self, n: NodeId) -> bool
        ensures { result ≡ is_compacting (past self.now) n }
    {
        let mut is_in_doubt = false;
        for act in &self.acts {
            is_in_doubt = compacting_behind(act, n, is_in_doubt);
        }
        is_in_doubt
    }

    /// The story of a transaction; `None` exactly where it was not begun.
    pub fn story(&self, t: TxId) -> Option<&Story>
        ensures { option_copied result ≡ story self.now.doc (past self.now) t }
    {
        for pair in &self.stories {
            if pair.0 == t {
                return Some(&pair.1);
            }
        }
        None
    }

    /// A message by its number; `None` exactly where it was not sent.
    pub fn message(&self, m: u32) -> Option<&Envelope>
        ensures { option_copied result ≡ sent_at m (sent (past self.now)) }
    {
        envelope_at(self.sent.as_slice(), m)
    }

    /// How many messages were sent.
    pub fn count(&self) -> usize
        ensures { result ≡ length (sent (past self.now)) }
    {
        self.sent.len()
    }

    /// Whether a message was got, missed or dropped.
    pub fn is_gone(&self, m: u32) -> bool
        ensures { result ≡ is_gone (past self.now) m }
    {
        is_marked(self.gone.as_slice(), m)
    }

    /// The acts, in the order of time, given up.
    pub fn into_acts(self) -> Vec<Act>
        ensures { result.items ≡ self.entry.acts }
    {
        let RunState { acts, .. } = self;
        acts
    }

    /// How many Decided of a transaction are over at its home.
    fn over_at(&self, t: TxId) -> usize
        ensures { result ≡ over_at (node self.now.doc (past self.now)) (script_of t self.now.doc.scripts) }
    {
        match script_of(self.doc().scripts(), t) {
            None => 0,
            Some(script) => times_over(self.node(script.home).records.as_slice(), script.number),
        }
    }

    fn asking(&self, message: &Message) -> Result<Option<(TxId, Story)>, Memory>
        ensures { IfOk result (λ o. o ≡ asking self.now.doc (past self.now) message.now) }
    {
        let Message::ReadReq(q) = message else {
            return Ok(None);
        };
        let Some(story) = self.story(q.t) else {
            return Ok(None);
        };
        let holders = self.doc().cluster().places.holders(&q.key).len();
        Ok(Some((q.t, with_request(holders, story)?)))
    }

    fn hearing_at(
        &self,
        alloc: Global,
        envelope: &Envelope,
        t: TxId,
    ) -> Result<Option<(TxId, Story)>, Memory>
        ensures { IfOk result
            (λ o. o ≡ hearing_at self.now.doc (past self.now) envelope.now t (script_of t self.now.doc.scripts)) }
    {
        let doc = self.doc();
        let Some(script) = script_of(doc.scripts(), t) else {
            return Ok(None);
        };
        if envelope.to != script.home {
            return Ok(None);
        }
        let Some(story) = self.story(t) else {
            return Ok(None);
        };
        let home = self.node(script.home);
        let (from, message) = (envelope.from, &envelope.message);
        Ok(Some((t, heard(alloc, doc, script, home, from, message, story)?)))
    }

    fn hearing(&self, alloc: Global, m: u32) -> Result<Option<(TxId, Story)>, Memory>
        ensures { IfOk result (λ o. o ≡ hearing self.now.doc (past self.now) (sent_at m (sent (past self.now)))) }
    {
        let Some(envelope) = self.message(m) else {
            return Ok(None);
        };
        match &envelope.message {
            Message::Vote { t, .. } => self.hearing_at(alloc, envelope, *t),
            Message::Ack { t } => self.hearing_at(alloc, envelope, *t),
            _ => Ok(None),
        }
    }

    fn taking(
        &self,
        t: TxId,
        j: u8,
        sid: Ident,
        value: Value,
    ) -> Result<Option<(TxId, Story)>, Memory>
        ensures { IfOk result
            (λ o. o ≡ retold t (progressed (with_value j sid value)) (story self.now.doc (past self.now) t)) }
    {
        match self.story(t) {
            None => Ok(None),
            Some(story) => Ok(Some((t, with_value(j, sid, value, story)?))),
        }
    }

    /// The story of a transaction behind a change.
    fn changing<F: FnOnce(&mut Story)>(
        &self,
        t: TxId,
        change: F,
    ) -> Result<Option<(TxId, Story)>, Memory>
        requires { F.IsAlwaysCallable change }
        ensures { (f : Story → Story) → ((x y : Story) → FnOnceReturnsAtMut F.FnOnce change x tt y → y ≡ f x)
            → IfOk result (λ o. o ≡ retold t f (story self.now.doc (past self.now) t)) }
    {
        let Some(story) = self.story(t) else {
            return Ok(None);
        };
        let mut told = copy_of(story)?;
        change(&mut told);
        Ok(Some((t, told)))
    }

    /// The story that an act changes, as it is behind the act.
    fn telling(&self, alloc: Global, act: &Act) -> Result<Option<(TxId, Story)>, Memory>
        ensures { IfOk result (λ o. o ≡ telling self.now.doc (past self.now) act.now) }
    {
        match act {
            Act::Began(t, _, sid0) => Ok(Some((*t, begun(alloc, self.over_at(*t), *sid0)))),
            Act::Sent(_, _, _, message) => self.asking(message),
            Act::Got(m) => self.hearing(alloc, *m),
            Act::Taken(t, j, sid, value) => self.taking(*t, *j, *sid, *value),
            Act::Finished(t) => self.changing(*t, |told| told.finished = true),
            Act::Aborted(t, _, _) => self.changing(*t, |told| told.aborted = true),
            Act::Lost(t) => self.changing(*t, |told| told.lost = true),
            _ => Ok(None),
        }
    }

    /// Keeps one act more.
    pub fn keep(self, alloc: Global, act: Act) -> Result<RunState<'a>, Memory>
        ensures { IfOk result (λ r. r ≡ record self.entry { acts = self.entry.acts ++ act ∷ [] }) }
    {
        let telling = self.telling(alloc, &act)?;
        let RunState {
            doc,
            mut acts,
            mut sent,
            mut gone,
            got,
            mut nodes,
            stories,
        } = self;
        keep_node(alloc, doc, got.as_ref(), &act, &mut nodes)?;
        let stories = retold(alloc, doc, &act, telling, stories)?;
        let got = got_by(&act, sent.as_slice(), got)?;
        post(&act, &mut sent)?;
        mark_gone(&act, &mut gone)?;
        push(&mut acts, act)?;
        Ok(RunState {
            doc,
            acts,
            sent,
            gone,
            got,
            nodes,
            stories,
        })
    }

    /// Keeps these acts.
    pub fn keep_all(self, alloc: Global, acts: Vec<Act>) -> Result<RunState<'a>, Memory>
        ensures { IfOk result (λ r. r ≡ record self.entry { acts = self.entry.acts ++ acts.items }) }
    {
        let mut state = self;
        for act in acts {
            state = state.keep(alloc, act)?;
        }
        Ok(state)
    }
}
