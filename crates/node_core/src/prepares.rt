//! A Prepare at a node.

ghost use Rattle.std.specs.Prelude.{◌≡◌, List, true};
ghost use Rattle.grid_model.specs.declared.events.Event.TheVariants as event;
ghost use Rattle.grid_model.specs.declared.messages.Message.TheVariants as message;
ghost use Rattle.grid_model.specs.declared.stories.HeldRead.{HeldRead};
ghost use Rattle.grid_model.specs.Fitness.{is_fit, is_fit_prepare};
ghost use Rattle.grid_model.specs.Stories.{is_small_node};
ghost use Rattle.node_core.specs.Plays.{IsPlayed};
ghost use Rattle.node_core.specs.Shows.{own_view};
ghost use Rattle.node_core.specs.Steps.{IsStepped};

use crate::answers::{put_again, put_refused, put_vote};
use crate::ends::Stepped;
use crate::heads::head_of;
use crate::nodes::Node;
use crate::plays::{Played, finish, room_for};
use grid_model::Prepare;
use grid_store::Store;
use node_journal::{Pair, PairStopped};
use prepare_vote::{Judged, judge};
use score_base::NodeId;
use score_disk::Disk;
use std::alloc::Global;

/// A fit Prepare, played on the parts of a node.
fn play_prepare<D: Disk>(
    alloc: Global,
    store: &mut Store,
    pair: Pair<D>,
    from: NodeId,
    q: &Prepare,
) -> Played<D>
    requires small { is_small_node store.old.journal store.old.next ≡ true }
    requires fit { is_fit_prepare store.old.cluster store.old.node q.now ≡ true }
    ensures { (hs : List HeldRead) →
        IsPlayed store.old hs pair (event.Deliver from (message.Prepare q.now)) store.new hs result }
{
    let mut pair = pair;
    let mut outs = match room_for(alloc, &mut pair, 2) {
        Ok(outs) => outs,
        Err(_) => return Played::Memory(pair),
    };
    let n = store.node();
    let judged = match judge(store, from, q) {
        Ok(judged) => judged,
        Err(_) => return Played::Memory(pair),
    };
    match judged {
        Judged::Done => Played::Done(pair, outs),
        Judged::Again(p) => {
            put_again(&mut outs, from, q.t, p);
            Played::Done(pair, outs)
        }
        Judged::No(why) => {
            put_refused(&mut outs, n, from, q.t, &why);
            Played::Done(pair, outs)
        }
        Judged::Yes(due, rec) => {
            let head = head_of(&rec);
            match pair.append(rec) {
                Ok((pair, kept)) => {
                    let vote = due.vote(store, kept);
                    put_vote(&mut outs, n, q.t, vote);
                    Played::Done(pair, outs)
                }
                Err(stopped) => {
                    let PairStopped { first, second, rec } = stopped;
                    due.down(rec);
                    Played::Down(first, second, head)
                }
            }
        }
    }
}

impl<D: Disk> Node<D> {
    /// A fit Prepare.
    pub(crate) fn prepare(self, alloc: Global, from: NodeId, q: &Prepare) -> Stepped<D>
        requires fit { is_fit self.store.node (own_view self.store self.waiting.reads self.desk) from
            (message.Prepare q.now) ≡ true }
        ensures { IsStepped self (event.Deliver from (message.Prepare q.now)) result }
    {
        let Node {
            mut store,
            waiting,
            desk,
            pair,
        } = self;
        let played = play_prepare(alloc, &mut store, pair, from, q);
        finish(store, waiting, desk, played)
    }
}
