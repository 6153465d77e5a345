//! A node is told how a transaction ended, or asked by another part.

ghost use Rattle.std.specs.Prelude.{◌≡◌, ◌+◌, ◌-◌, ◌*◌, ◌^◌, ◌≤◌, min, length, vec_len, vec_capacity, true};
ghost use Rattle.grid_model.specs.declared.events.Event.TheVariants as event;
ghost use Rattle.grid_model.specs.declared.messages.Message.TheVariants as message;
ghost use Rattle.grid_model.specs.Fitness.{is_fit, is_fit_outcome};
ghost use Rattle.grid_model.specs.Stories.{is_small_node};
ghost use Rattle.journal_words.specs.Journals.{pending};
ghost use Rattle.node_core.specs.Plays.{IsPlayed, IsReleased};
ghost use Rattle.node_core.specs.Shows.{own_view};
ghost use Rattle.node_core.specs.Steps.{IsStepped};

use crate::answers::{put_ack, put_end, put_question, put_served};
use crate::ends::Stepped;
use crate::heads::head_of;
use crate::nodes::Node;
use crate::plays::{Played, finish, room_for};
use grid_model::{Message, Out};
use grid_store::Store;
use node_journal::{Pair, PairStopped};
use ordered_commit::{Learnt, learn};
use score_base::{NodeId, Outcome, TxId};
use score_disk::Disk;
use snapshot_read::Waiting;
use std::alloc::Global;

/// The most outs of an end that is told where so many reads are held: two for the end, and three for each
/// read. What is past the greatest address stays at it, and no vector has so much room.
fn most_outs(held: usize) -> usize
    ensures { result ≡ min (3 * held + 2) (2 ^ 64 - 1) }
{
    held.saturating_mul(3).saturating_add(2)
}

/// Serves the held reads that no pending proposal holds, until each is held.
fn release_all(outs: &mut Vec<Out>, n: NodeId, waiting: &mut Waiting, store: &Store)
    requires { vec_len outs.old + 3 * length waiting.old.reads ≤ vec_capacity outs.old }
    ensures { IsReleased store.now n waiting.old.reads outs.old.items waiting.new.reads outs.new.items }
{
    for turn in 0..waiting.len() {
        match waiting.release(store) {
            Some(answer) => put_served(outs, n, &answer),
            None => return,
        }
    }
}

/// A fit outcome that is told, played on the parts of a node.
fn play_tell<D: Disk>(
    alloc: Global,
    store: &mut Store,
    waiting: &mut Waiting,
    pair: Pair<D>,
    from: NodeId,
    t: TxId,
    outcome: &Outcome,
) -> Played<D>
    requires small { is_small_node store.old.journal store.old.next ≡ true }
    requires fit { is_fit_outcome (pending t store.old.journal) outcome.now ≡ true }
    ensures { IsPlayed store.old waiting.old.reads pair (event.Deliver from (message.Tell t outcome.now))
        store.new waiting.new.reads result }
{
    let mut pair = pair;
    let mut outs = match room_for(alloc, &mut pair, most_outs(waiting.len())) {
        Ok(outs) => outs,
        Err(_) => return Played::Memory(pair),
    };
    let n = store.node();
    let learnt = match learn(store, t, *outcome) {
        Ok(learnt) => learnt,
        Err(_) => return Played::Memory(pair),
    };
    match learnt {
        Learnt::Ignore => Played::Done(pair, outs),
        Learnt::Ack(home) => {
            put_ack(&mut outs, home, t);
            Played::Done(pair, outs)
        }
        Learnt::Due(due, rec) => {
            let head = head_of(&rec);
            match pair.append(rec) {
                Ok((pair, kept)) => {
                    let home = due.settle(store, kept);
                    put_end(&mut outs, n, t, outcome, home);
                    release_all(&mut outs, n, waiting, store);
                    Played::Done(pair, outs)
                }
                Err(stopped) => {
                    let PairStopped { first, second, rec } = stopped;
                    due.down(rec);
                    Played::Down(first, second, head)
                }
            }
        }
    }
}

impl<D: Disk> Node<D> {
    /// A fit outcome that is told.
    pub(crate) fn tell(self, alloc: Global, t: TxId, outcome: &Outcome, from: NodeId) -> Stepped<D>
        requires fit { is_fit self.store.node (own_view self.store self.waiting.reads self.desk) from
            (message.Tell t outcome.now) ≡ true }
        ensures { IsStepped self (event.Deliver from (message.Tell t outcome.now)) result }
    {
        let Node {
            mut store,
            mut waiting,
            desk,
            pair,
        } = self;
        let played = play_tell(alloc, &mut store, &mut waiting, pair, from, t, outcome);
        finish(store, waiting, desk, played)
    }

    /// Another part asks how a transaction ended.
    pub(crate) fn asked_by_part(self, alloc: Global, t: TxId, from: NodeId) -> Stepped<D>
        requires fit { is_fit self.store.node (own_view self.store self.waiting.reads self.desk) from
            (message.AskPeer t) ≡ true }
        ensures { IsStepped self (event.Deliver from (message.AskPeer t)) result }
    {
        let mut outs = Vec::new(alloc);
        if outs.reserve(1).is_err() {
            return Stepped::Memory(self);
        }
        if let Some(outcome) = self.store.ended(t) {
            outs.push_reserved(Out::Send(from, Message::Tell { t, outcome }));
        }
        Stepped::Done(self, outs)
    }

    /// A pending participant asks the home how the transaction ended.
    pub(crate) fn ask(self, alloc: Global, t: TxId) -> Stepped<D>
        ensures { IsStepped self (event.Ask t) result }
    {
        let mut outs = Vec::new(alloc);
        if outs.reserve(1).is_err() {
            return Stepped::Memory(self);
        }
        if self.store.pending(t).is_some() {
            put_question(&mut outs, self.store.home(t), t);
        }
        Stepped::Done(self, outs)
    }

    /// A pending participant asks another part how the transaction ended.
    pub(crate) fn ask_part(self, alloc: Global, t: TxId, m: NodeId) -> Stepped<D>
        ensures { IsStepped self (event.AskPeer t m) result }
    {
        let mut outs = Vec::new(alloc);
        if outs.reserve(1).is_err() {
            return Stepped::Memory(self);
        }
        if self.store.part(t, m) {
            outs.push_reserved(Out::Send(m, Message::AskPeer { t }));
        }
        Stepped::Done(self, outs)
    }
}
