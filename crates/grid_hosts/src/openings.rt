//! A node of a run is opened.
ghost use Rattle.grid_hosts.specs.Hosts.{AreOpenable, CanOpen, HasRestarted, Reopens};

use crate::falls::Fall;
use crate::hosts::{Host, Place, crashed};
use grid_model::Flag;
use node_core::{Node, Opened};
use placement::Cluster;
use score_base::NodeId;
use score_disk::{CrashDisk, Disk, Fused};
use std::alloc::Global;

/// How an opening of a node ends.
#[derive(Clone, Copy, Debug, PartialEq, Eq)]
pub enum Restarted {
    /// It is up; what was in doubt was found, is gone, or was not there.
    Up(Flag),
    /// A device call failed, and it stays down.
    StillDown,
    /// Want of memory.
    Memory,
}

impl<D: CrashDisk> Host<Fused<D>> {
    /// Opens a node that is down. Where a device call failed, both disks are crashed, by the `how` that is
    /// kept. A node that is up stays as it is.
    pub fn restart(self, alloc: Global, cluster: &Cluster) -> (Host<Fused<D>>, Restarted)
        requires { CanOpen self.id cluster.now self.place }
        ensures { HasRestarted cluster.now self result.0 result.1 }
    {
        let Host { id, place, how } = self;
        match place {
            Place::Up(node) => {
                let place = Place::Up(node);
                (Host { id, place, how }, Restarted::Up(Flag::Untouched))
            }
            Place::Down(first, second, fall) => {
                let (place, restarted) = open_down(alloc, id, cluster, first, second, how, fall);
                (Host { id, place, how }, restarted)
            }
        }
    }
}

fn open_down<D: CrashDisk>(
    alloc: Global,
    id: NodeId,
    cluster: &Cluster,
    first: Fused<D>,
    second: Fused<D>,
    how: u64,
    fall: Fall,
) -> (Place<Fused<D>>, Restarted)
    requires { AreOpenable ⟦<Fused<D> as Disk>⟧ id cluster.now first second }
    ensures { Reopens id cluster.now first second fall result.0 result.1 }
{
    match Node::open(alloc, id, cluster, first, second) {
        Opened::Up(node) => {
            let flag = fall.told(node.count(), node.generation());
            (Place::Up(node), Restarted::Up(flag))
        }
        Opened::Failed(first, second) => {
            let place = Place::Down(crashed(first, how), crashed(second, how), fall);
            (place, Restarted::StillDown)
        }
        Opened::NotJournal(_, _, _) => unreachable!(),
        Opened::Strange(_, _, _) => unreachable!(),
        Opened::Memory(first, second) => (Place::Down(first, second, fall), Restarted::Memory),
    }
}
