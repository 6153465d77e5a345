//! What the home of a transaction does at an event.

ghost use Rattle.std.specs.Prelude.{◌≡◌, true, max, OnOk};
ghost use Rattle.journal_words.specs.Journals.{commit_id};
ghost use Rattle.score_base.specs.declared.records.Record.{Record};
ghost use Rattle.grid_model.specs.declared.events.Event.TheVariants as event;
ghost use Rattle.grid_model.specs.declared.messages.Message.TheVariants as message;
ghost use Rattle.grid_model.specs.Fitness.{is_fit, is_fit_begin};
ghost use Rattle.grid_model.specs.Views.{View};
ghost use Rattle.grid_store.specs.Given.{IsSame};
ghost use Rattle.node_journal.specs.PairDisks.{HasPairRoom};
ghost use Rattle.node_core.specs.Homes.{HasHomeRoom, CanSettle, IsSettledAs, CanTurn, IsTurnedAs};
ghost use Rattle.node_core.specs.Shows.{Shows};
ghost use Rattle.node_core.specs.Steps.{IsStepped, IsUnwritten};

use crate::ends::Stepped;
use crate::heads::head_of;
use crate::nodes::Node;
use grid_model::ReadRep;
use grid_store::{Store, law_home_room};
use node_journal::{Pair, PairStopped};
use placement::Cluster;
use presumed_abort::{Desk, DeskDue, DeskTurn};
use score_base::{Ballot, Ident, Memory, NodeId, Record, TxId};
use score_disk::Disk;
use script_lang::Script;
use snapshot_read::Waiting;
use std::alloc::Global;

/// Makes room for a record of the home: for a Closed, which is room for a Decided too.
fn room_for_home<D: Disk>(store: &mut Store, pair: &mut Pair<D>, t: TxId) -> Result<(), Memory>
    ensures room { OnOk result (HasHomeRoom store.new.room) }
    ensures pair_room { OnOk result (HasPairRoom pair.new) }
    ensures store { IsSame store.old store.new }
    ensures pair { IsUnwritten pair.old pair.new }
{
    law_home_room();
    pair.room()?;
    store.reserve(&Record::Closed { t })
}

/// Writes the record on which a change of the desk rests, and makes the change where it is kept.
fn settle<D: Disk>(
    store: Store,
    waiting: Waiting,
    desk: Desk,
    pair: Pair<D>,
    due: DeskDue,
    rec: Record,
) -> Stepped<D>
    requires { CanSettle store waiting.reads desk pair due rec }
    ensures { IsSettledAs store waiting desk pair due rec result }
{
    let mut store = store;
    let mut desk = desk;
    let head = head_of(&rec);
    match pair.append(rec) {
        Ok((pair, kept)) => {
            let (outs, rec) = due.release(&mut desk, kept);
            store.admit(rec);
            Stepped::Done(Node::joined(store, waiting, desk, pair), outs)
        }
        Err(stopped) => {
            let PairStopped {
                first,
                second,
                rec: _,
            } = stopped;
            due.give_up();
            Stepped::Down(first, second, head)
        }
    }
}

/// What the desk handed out: done, or due on its record, which is written now.
fn turned<D: Disk>(
    store: Store,
    waiting: Waiting,
    desk: Desk,
    pair: Pair<D>,
    turn: DeskTurn,
) -> Stepped<D>
    requires { CanTurn store waiting.reads desk pair turn }
    ensures { IsTurnedAs store waiting desk pair turn result }
{
    match turn {
        DeskTurn::Outs(outs) => Stepped::Done(Node::joined(store, waiting, desk, pair), outs),
        DeskTurn::Due(due, rec) => settle(store, waiting, desk, pair, due, rec),
    }
}

/// The identifier at which a transaction begins whose session has this floor.
fn begins_at(store: &Store, floor: Ident) -> Ident
    ensures { result ≡ max (commit_id store.now.journal) floor }
{
    store.commit_id().max(floor)
}

impl<D: Disk> Node<D> {
    /// A fit begin.
    pub(crate) fn begin(
        self,
        alloc: Global,
        cluster: &Cluster,
        script: Script,
        floor: Ident,
    ) -> Stepped<D>
        requires cluster { cluster.now ≡ self.store.cluster }
        requires fit { (v : View) → Shows self.store self.waiting.reads self.desk v
            → is_fit_begin self.store.node v script floor ≡ true }
        ensures { IsStepped self (event.Begin script floor) result }
    {
        let Node {
            store,
            waiting,
            mut desk,
            pair,
        } = self;
        let sid0 = begins_at(&store, floor);
        match desk.begin(alloc, cluster, script, sid0) {
            Ok(outs) => Stepped::Done(Node::joined(store, waiting, desk, pair), outs),
            Err(_) => Stepped::Memory(Node::joined(store, waiting, desk, pair)),
        }
    }

    /// A fit read reply.
    pub(crate) fn reply(
        self,
        alloc: Global,
        cluster: &Cluster,
        from: NodeId,
        q: &ReadRep,
    ) -> Stepped<D>
        requires cluster { cluster.now ≡ self.store.cluster }
        requires fit { (v : View) → Shows self.store self.waiting.reads self.desk v
            → is_fit self.store.node v from (message.ReadRep q.now) ≡ true }
        ensures { IsStepped self (event.Deliver from (message.ReadRep q.now)) result }
    {
        let Node {
            store,
            waiting,
            mut desk,
            pair,
        } = self;
        match desk.reply(alloc, cluster, q) {
            Ok(outs) => Stepped::Done(Node::joined(store, waiting, desk, pair), outs),
            Err(_) => Stepped::Memory(Node::joined(store, waiting, desk, pair)),
        }
    }

    /// The home sends again what is outstanding.
    pub(crate) fn retry(self, alloc: Global, cluster: &Cluster, t: TxId) -> Stepped<D>
        requires cluster { cluster.now ≡ self.store.cluster }
        ensures { IsStepped self (event.Retry t) result }
    {
        let Node {
            store,
            waiting,
            mut desk,
            pair,
        } = self;
        match desk.retry(alloc, cluster, t) {
            Ok(outs) => Stepped::Done(Node::joined(store, waiting, desk, pair), outs),
            Err(_) => Stepped::Memory(Node::joined(store, waiting, desk, pair)),
        }
    }

    /// A part asks how a transaction ended, and the question is fit.
    pub(crate) fn asked(self, alloc: Global, from: NodeId, t: TxId) -> Stepped<D>
        requires fit { (v : View) → Shows self.store self.waiting.reads self.desk v
            → is_fit self.store.node v from (message.Ask t) ≡ true }
        ensures { IsStepped self (event.Deliver from (message.Ask t)) result }
    {
        let Node {
            store,
            waiting,
            desk,
            pair,
        } = self;
        match desk.ask(alloc, from, t) {
            Ok(outs) => Stepped::Done(Node::joined(store, waiting, desk, pair), outs),
            Err(_) => Stepped::Memory(Node::joined(store, waiting, desk, pair)),
        }
    }

    /// A fit vote.
    pub(crate) fn vote(self, alloc: Global, from: NodeId, t: TxId, ballot: &Ballot) -> Stepped<D>
        requires fit { (v : View) → Shows self.store self.waiting.reads self.desk v
            → is_fit self.store.node v from (message.Vote t ballot.now) ≡ true }
        ensures { IsStepped self (event.Deliver from (message.Vote t ballot.now)) result }
    {
        let Node {
            mut store,
            waiting,
            mut desk,
            mut pair,
        } = self;
        if room_for_home(&mut store, &mut pair, t).is_err() {
            return Stepped::Memory(Node::joined(store, waiting, desk, pair));
        }
        match desk.vote(alloc, from, t, ballot) {
            Ok(turn) => turned(store, waiting, desk, pair, turn),
            Err(_) => Stepped::Memory(Node::joined(store, waiting, desk, pair)),
        }
    }

    /// A fit acknowledgement.
    pub(crate) fn ack(self, alloc: Global, from: NodeId, t: TxId) -> Stepped<D>
        requires fit { (v : View) → Shows self.store self.waiting.reads self.desk v
            → is_fit self.store.node v from (message.Ack t) ≡ true }
        ensures { IsStepped self (event.Deliver from (message.Ack t)) result }
    {
        let Node {
            mut store,
            waiting,
            mut desk,
            mut pair,
        } = self;
        if room_for_home(&mut store, &mut pair, t).is_err() {
            return Stepped::Memory(Node::joined(store, waiting, desk, pair));
        }
        match desk.ack(alloc, from, t) {
            Ok(turn) => turned(store, waiting, desk, pair, turn),
            Err(_) => Stepped::Memory(Node::joined(store, waiting, desk, pair)),
        }
    }
}
