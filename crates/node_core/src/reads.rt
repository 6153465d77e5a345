//! A read request at a node.

ghost use Rattle.std.specs.Prelude.{◌≡◌, IsTrue, true};
ghost use Rattle.grid_model.specs.declared.events.Event.TheVariants as event;
ghost use Rattle.grid_model.specs.declared.messages.Message.TheVariants as message;
ghost use Rattle.grid_model.specs.Fitness.{is_fit, is_fit_request};
ghost use Rattle.grid_model.specs.Stories.{is_small_node};
ghost use Rattle.node_core.specs.Plays.{IsPlayed};
ghost use Rattle.node_core.specs.Shows.{own_view};
ghost use Rattle.node_core.specs.Steps.{IsStepped};

use crate::answers::{put_ceiling, put_held, put_promised, put_served};
use crate::ends::Stepped;
use crate::heads::head_of;
use crate::nodes::Node;
use crate::plays::{Played, finish, room_for};
use grid_model::ReadReq;
use grid_store::Store;
use node_journal::{Pair, PairStopped};
use score_base::NodeId;
use score_disk::Disk;
use snapshot_read::{Arrived, Waiting};
use std::alloc::Global;

/// A fit read request, played on the parts of a node.
fn play_read<D: Disk>(
    alloc: Global,
    store: &mut Store,
    waiting: &mut Waiting,
    pair: Pair<D>,
    from: NodeId,
    q: &ReadReq,
) -> Played<D>
    requires small { IsTrue (is_small_node store.old.journal store.old.next) }
    requires fit { IsTrue (is_fit_request store.old.cluster store.old.node q.now) }
    ensures { IsPlayed store.old waiting.old.reads pair (event.Deliver from (message.ReadReq q.now))
        store.new waiting.new.reads result }
{
    let mut pair = pair;
    let mut outs = match room_for(alloc, &mut pair, 4) {
        Ok(outs) => outs,
        Err(_) => return Played::Memory(pair),
    };
    let n = store.node();
    let arrived = match waiting.arrive(store, from, q) {
        Ok(arrived) => arrived,
        Err(_) => return Played::Memory(pair),
    };
    match arrived {
        Arrived::Hold(waits) => {
            put_held(&mut outs, n, q.t, q.op, waits);
            Played::Done(pair, outs)
        }
        Arrived::Serve(answer) => {
            put_served(&mut outs, n, &answer);
            Played::Done(pair, outs)
        }
        Arrived::NeedCeiling(due, rec) => {
            put_ceiling(&mut outs, n, &rec);
            let head = head_of(&rec);
            match pair.append(rec) {
                Ok((pair, kept)) => {
                    let promised = due.go(waiting, store, kept);
                    put_promised(&mut outs, n, q.t, q.op, &promised);
                    Played::Done(pair, outs)
                }
                Err(stopped) => {
                    let PairStopped { first, second, rec } = stopped;
                    due.down(rec);
                    Played::Down(first, second, head)
                }
            }
        }
    }
}

impl<D: Disk> Node<D> {
    /// A fit read request.
    pub(crate) fn read(self, alloc: Global, from: NodeId, q: &ReadReq) -> Stepped<D>
        requires fit { is_fit self.store.node (own_view self.store self.waiting.reads self.desk) from
            (message.ReadReq q.now) ≡ true }
        ensures { IsStepped self (event.Deliver from (message.ReadReq q.now)) result }
    {
        let Node {
            mut store,
            mut waiting,
            desk,
            pair,
        } = self;
        let played = play_read(alloc, &mut store, &mut waiting, pair, from, q);
        finish(store, waiting, desk, played)
    }
}
