//! The reads that a node holds.

ghost use Rattle.std.specs.Prelude.{◌≡◌, ◌≤◌, ◌↔◌, [], false, length, position, All, MatchOption, IsTrue, IsNone, IfOk, OnErr};
ghost use Rattle.stable_queue.specs.Commits.{is_below};
ghost use Rattle.journal_words.specs.Journals.{is_clear};
ghost use Rattle.grid_model.specs.Stories.{is_small_node};
ghost use Rattle.grid_model.specs.Fitness.{is_fit_request};
ghost use Rattle.grid_model.specs.Rows.{dated};
ghost use Rattle.grid_store.specs.Given.{IsSame};
ghost use Rattle.snapshot_read.specs.Reads.{read_at, served_or_held, arrival};
ghost use Rattle.snapshot_read.specs.Calls.{IsAnswered, Leaves};
ghost use Rattle.snapshot_read.specs.Outs.{first_answer, without_answered};

use crate::answers::{Answer, Arrived, Promised, Waits, answer_to, at_once};
use crate::dues::CeilingDue;
use grid_model::{HeldRead, ReadReq};
use grid_store::Store;
use score_base::{Date, Ident, Memory, NodeId, Record};
use std::alloc::Global;
use std::marker::Model;

/// The held reads of a node, in the order of their arrival.
#[derive(Drop, Debug)]
pub struct Waiting {
    reads: Vec<HeldRead>,
}

impl Model for Waiting {
    ghost use Rattle.std.specs.Prelude.{◌-◌, vec_len, vec_capacity};
    ghost use Rattle.snapshot_read.specs.Held.{HeldReads};

    ghost Value = { HeldReads };

    ghost view = { λ w. record { reads = w.reads.items; spare = vec_capacity w.reads - vec_len w.reads } };
}

impl Waiting {
    /// No read is held.
    pub fn new(alloc: Global) -> Waiting
        ensures { result.reads ≡ [] }
    {
        Waiting {
            reads: Vec::new(alloc),
        }
    }

    /// How many reads are held.
    pub fn len(&self) -> usize
        ensures { result ≡ length self.now.reads }
    {
        self.reads.len()
    }

    /// Lets go of all held reads, as a stop of the node does.
    pub fn drop_all(&mut self)
        ensures { self.new.reads ≡ [] }
    {
        self.reads.clear();
    }

    /// Answers a read at or below the floor: the clock is raised to it, and it is held where a pending
    /// proposal is at most its identifier, else served. It takes no memory.
    pub(crate) fn answer(&mut self, store: &mut Store, read: HeldRead) -> Promised
        requires { 1 ≤ self.old.spare }
        ensures answer { result ≡ served_or_held store.old read }
        ensures leaves { IsAnswered result read store.old self.old store.new self.new }
    {
        let free = is_below(store.least(), read.sid);
        let sid = read.sid;
        let raised = store.raise(sid);
        if free {
            return Promised::Serve(answer_to(store, &read, raised));
        }
        self.reads.push_reserved(read);
        Promised::Hold(Waits { sid, raised })
    }

    /// Takes in a read request from `from`, which is fit at the store's node. A read above the floor
    /// needs a ceiling: nothing has changed then but that there is room for its record and for one
    /// more held read. After [`Memory`] all is as before but for room.
    pub fn arrive(
        &mut self,
        store: &mut Store,
        from: NodeId,
        req: &ReadReq,
    ) -> Result<Arrived, Memory>
        requires node { IsTrue (is_small_node store.old.journal store.old.next) }
        requires fit { IsTrue (is_fit_request store.old.cluster store.old.node req.now) }
        ensures answer { IfOk result (λ a. a ≡ arrival store.old (read_at store.old from req.now)) }
        ensures leaves { IfOk result (λ a.
            Leaves a (read_at store.old from req.now) store.old self.old store.new self.new) }
        ensures store { OnErr result (IsSame store.old store.new) }
        ensures held { OnErr result (self.new.reads ≡ self.old.reads) }
    {
        self.reads.reserve(1)?;
        let read = read_at(store, from, req);
        if let Some(c) = store.needs(read.sid) {
            let rec = Record::Ceiling { c };
            store.reserve(&rec)?;
            return Ok(Arrived::NeedCeiling(CeilingDue::made(read), rec));
        }
        Ok(at_once(self.answer(store, read)))
    }

    /// Takes out the first held read that no pending proposal holds, and answers it; `None` exactly
    /// where each is held. It takes no memory.
    pub fn release(&mut self, store: &Store) -> Option<Answer>
        ensures answer { result ≡ first_answer store.now self.old.reads }
        ensures none { IsNone result ↔ All (λ h. is_clear h.sid store.now.journal ≡ false) self.old.reads }
        ensures held { MatchOption result
            (self.new.reads ≡ self.old.reads)
            (λ a. self.new.reads ≡ without_answered a self.old.reads) }
    {
        let i = first_below(self.reads.as_slice(), store.least())?;
        let read = self.reads.remove(i);
        Some(answer_to(store, &read, false))
    }
}

/// The read for which a request from `from` asks: a first read is dated by the node that is asked.
fn read_at(store: &Store, from: NodeId, req: &ReadReq) -> HeldRead
    ensures { result ≡ read_at store.now from req.now }
{
    HeldRead {
        t: req.t,
        op: req.op,
        sid: dated(req.date, store.commit_id()),
        key: req.key,
        from,
    }
}

/// The identifier of a read, where the commit identifier is `c`.
fn dated(date: Date, c: Ident) -> Ident
    ensures { result ≡ dated date c }
{
    match &date {
        Date::First(sid0) => c.max(*sid0),
        Date::At(sid) => *sid,
    }
}

/// Whether an identifier is below the least proposal, where there is one.
fn is_below(least: Option<Ident>, sid: Ident) -> bool
    ensures { result ≡ is_below least sid }
{
    match least {
        Some(p) => sid < p,
        None => true,
    }
}

/// The place of the first read that is below the least proposal.
fn first_below(reads: &[HeldRead], least: Option<Ident>) -> Option<usize>
    ensures { result ≡ position (λ h. is_below least h.sid) reads.now }
{
    reads.iter().position(|read| is_below(least, read.sid))
}
