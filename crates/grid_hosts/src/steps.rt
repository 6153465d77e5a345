//! A node of a run plays an event.
ghost use Rattle.std.specs.Prelude.{◌≡◌};
ghost use Rattle.grid_hosts.specs.Hosts.{CanStep, HasRun, HasCompacted, HasDisarmed, Runs};

use crate::falls::Fall;
use crate::hosts::{Host, Place, crashed};
use grid_model::{Event, Head, Out};
use node_core::{Node, Stepped};
use placement::Cluster;
use score_disk::{CrashDisk, Disk, Fused};
use std::alloc::Global;

/// How an event of a node ends.
#[derive(Drop)]
pub enum Ran {
    /// The node gave these.
    Outs(Vec<Out>),
    /// The node went down while this was written.
    Stopped(Head),
    /// Want of memory.
    Memory,
}

impl<D: CrashDisk> Host<Fused<D>> {
    /// Plays an event at a node that is up. Where a device call failed, both disks are crashed, by the `how`
    /// that is kept. A node that is down gives nothing.
    pub fn step(self, alloc: Global, cluster: &Cluster, event: Event) -> (Host<Fused<D>>, Ran)
        requires { CanStep cluster.now self.place }
        ensures { HasRun self event result.0 result.1 }
    {
        let Host { id, place, how } = self;
        match place {
            Place::Up(node) => {
                let (place, ran) = step_up(alloc, cluster, node, how, event);
                (Host { id, place, how }, ran)
            }
            Place::Down(first, second, fall) => {
                let place = Place::Down(first, second, fall);
                (Host { id, place, how }, Ran::Outs(Vec::new(alloc)))
            }
        }
    }

    /// Compacts the journal of a node that is up, and disarms the fuses of both its disks behind that.
    pub fn compact(self, alloc: Global, cluster: &Cluster) -> (Host<Fused<D>>, Ran)
        requires { CanStep cluster.now self.place }
        ensures { HasCompacted self result.0 result.1 }
    {
        let (host, ran) = self.step(alloc, cluster, Event::Compact);
        match ran {
            Ran::Outs(outs) => (host.disarmed(), Ran::Outs(outs)),
            Ran::Stopped(head) => (host, Ran::Stopped(head)),
            Ran::Memory => (host, Ran::Memory),
        }
    }

    /// The fuses of a node that is up are not armed any more.
    fn disarmed(self) -> Host<Fused<D>>
        ensures { HasDisarmed self result }
    {
        let Host { id, place, how } = self;
        let place = match place {
            Place::Up(node) => {
                let mut node = node;
                node.disarm();
                Place::Up(node)
            }
            Place::Down(first, second, fall) => Place::Down(first, second, fall),
        };
        Host { id, place, how }
    }
}

/// A head once more.
fn copied(head: &Head) -> Head
    ensures { result ≡ head.now }
{
    *head
}

fn step_up<D: CrashDisk>(
    alloc: Global,
    cluster: &Cluster,
    node: Node<Fused<D>>,
    how: u64,
    event: Event,
) -> (Place<Fused<D>>, Ran)
    requires { cluster.now ≡ node.store.cluster }
    ensures { Runs node event result.0 result.1 }
{
    let count = node.count();
    let generation = node.generation();
    match node.step(alloc, cluster, event) {
        Stepped::Done(node, outs) => (Place::Up(node), Ran::Outs(outs)),
        Stepped::Down(first, second, head) => {
            let fall = Fall::at(Some(copied(&head)), count, generation);
            let place = Place::Down(crashed(first, how), crashed(second, how), fall);
            (place, Ran::Stopped(head))
        }
        Stepped::Memory(node) => (Place::Up(node), Ran::Memory),
    }
}
