//! A node makes its journal small.

ghost use Rattle.std.specs.Prelude.{◌≡◌};
ghost use Rattle.grid_model.specs.declared.events.Event.TheVariants as event;
ghost use Rattle.node_core.specs.Steps.{IsStepped};

use crate::ends::Stepped;
use crate::nodes::Node;
use grid_model::{Act, Head, Out};
use node_journal::Compacting;
use score_disk::Disk;
use std::alloc::Global;

impl<D: Disk> Node<D> {
    /// Makes the journal small into the other disk; nothing where the live file has the last generation.
    pub(crate) fn compact(self, alloc: Global) -> Stepped<D>
        ensures { IsStepped self event.Compact result }
    {
        let Node {
            store,
            waiting,
            desk,
            mut pair,
        } = self;
        let mut outs = Vec::new(alloc);
        if pair.generation() == u64::MAX {
            return Stepped::Done(Node::joined(store, waiting, desk, pair), outs);
        }
        if outs.reserve(1).is_err() {
            return Stepped::Memory(Node::joined(store, waiting, desk, pair));
        }
        let records = match pair.small() {
            Ok(records) => records,
            Err(_) => return Stepped::Memory(Node::joined(store, waiting, desk, pair)),
        };
        if pair.room_for(&records).is_err() {
            return Stepped::Memory(Node::joined(store, waiting, desk, pair));
        }
        let n = store.node();
        match pair.compact(&records) {
            Ok(pair) => {
                outs.push_reserved(Out::Act(Act::Compacted(n)));
                Stepped::Done(Node::joined(store, waiting, desk, pair), outs)
            }
            Err(stopped) => {
                let Compacting { first, second } = stopped;
                Stepped::Down(first, second, Head::Compact)
            }
        }
    }
}
