//! An event of a participant, played on the parts of a node, and the node that is made of them again.

ghost use Rattle.std.specs.Prelude.{◌≡◌, ◌≤◌, [], vec_capacity, IfOk, OnOk};
ghost use Rattle.node_journal.specs.PairDisks.{HasPairRoom};
ghost use Rattle.node_core.specs.Owning.{IsOwn};
ghost use Rattle.node_core.specs.Plays.{IsJoined};
ghost use Rattle.node_core.specs.Steps.{IsUnwritten};

use crate::ends::Stepped;
use crate::nodes::Node;
use grid_model::{Head, Out};
use grid_store::Store;
use node_journal::Pair;
use presumed_abort::Desk;
use score_base::Memory;
use score_disk::Disk;
use snapshot_read::Waiting;
use std::alloc::Global;

/// How an event of a participant ends.
#[derive(Drop)]
pub(crate) enum Played<D: Disk> {
    /// It was played, and gives these.
    Done(Pair<D>, Vec<Out>),
    /// A device call failed while this was written.
    Down(D, D, Head),
    /// Want of memory.
    Memory(Pair<D>),
}

/// Room for so many outs, and for one record on the live disk and in memory. Neither disk is written.
pub(crate) fn room_for<D: Disk>(
    alloc: Global,
    pair: &mut Pair<D>,
    most: usize,
) -> Result<Vec<Out>, Memory>
    ensures none { IfOk result (λ outs. outs.items ≡ []) }
    ensures outs { IfOk result (λ outs. most ≤ vec_capacity outs) }
    ensures place { OnOk result (HasPairRoom pair.new) }
    ensures pair { IsUnwritten pair.old pair.new }
{
    let mut outs = Vec::new(alloc);
    outs.reserve(most)?;
    pair.room()?;
    Ok(outs)
}

/// The node of these parts, behind an event that ended so.
pub(crate) fn finish<D: Disk>(
    store: Store,
    waiting: Waiting,
    desk: Desk,
    played: Played<D>,
) -> Stepped<D>
    requires { IsOwn store waiting.reads desk }
    ensures { IsJoined store waiting desk played result }
{
    match played {
        Played::Done(pair, outs) => Stepped::Done(Node::joined(store, waiting, desk, pair), outs),
        Played::Down(first, second, head) => Stepped::Down(first, second, head),
        Played::Memory(pair) => Stepped::Memory(Node::joined(store, waiting, desk, pair)),
    }
}
