//! A node of a run, up or down.
ghost use Rattle.std.specs.Prelude.{◌≡◌, ◌≤◌, None};
ghost use Rattle.node_journal.specs.PairDisks.{first_of, last_of};
ghost use Rattle.grid_hosts.specs.Hosts.{is_standing, node_in, IsCrashed, IsNew, FallsTo, HasCrashed, HasArmed, EndsAt};
ghost use Rattle.std.specs.Option.{option_copied};

use crate::falls::Fall;
use node_core::Node;
use score_base::NodeId;
use score_disk::{CrashDisk, Disk, Fused};

/// Where a node stands.
#[derive(Drop)]
pub enum Place<D: Disk> {
    /// It is up.
    Up(Node<D>),
    /// It is down: its two disks, as the last crash left them, and what was known then.
    Down(D, D, Fall),
}

/// A node of a run.
#[derive(Drop)]
pub struct Host<D: Disk> {
    pub(crate) id: NodeId,
    pub(crate) place: Place<D>,
    pub(crate) how: u64,
}

/// A disk as a crash leaves it.
pub(crate) fn crashed<D: CrashDisk>(disk: Fused<D>, how: u64) -> Fused<D>
    ensures { IsCrashed ⟦<Fused<D> as Disk>⟧ disk result }
{
    let mut disk = disk;
    disk.crash(how);
    disk
}

/// A node goes down while it writes nothing, and its disks are crashed.
fn fallen<D: CrashDisk>(node: Node<Fused<D>>, how: u64) -> Place<Fused<D>>
    ensures { FallsTo node (first_of node.pair) (last_of node.pair) None result }
{
    let fall = Fall::at(None, node.count(), node.generation());
    let (first, second) = node.stop();
    Place::Down(crashed(first, how), crashed(second, how), fall)
}

impl<D: CrashDisk> Host<Fused<D>> {
    /// Node `id`, which is down and was never up, over its two disks; `how` is 0.
    pub fn new(id: NodeId, first: Fused<D>, second: Fused<D>) -> Host<Fused<D>>
        ensures { IsNew id first second result }
    {
        Host {
            id,
            place: Place::Down(first, second, Fall::first()),
            how: 0,
        }
    }

    /// The number of the node.
    pub fn id(&self) -> NodeId
        ensures { result ≡ self.now.id }
    {
        self.id
    }

    /// The node, where it is up.
    pub fn node(&self) -> Option<&Node<Fused<D>>>
        ensures { option_copied result ≡ node_in self.now.place }
    {
        match &self.place {
            Place::Up(node) => Some(node),
            Place::Down(_, _, _) => None,
        }
    }

    /// Whether the node is up.
    pub fn is_up(&self) -> bool
        ensures { result ≡ is_standing self.now.place }
    {
        match &self.place {
            Place::Up(_) => true,
            Place::Down(_, _, _) => false,
        }
    }

    /// Crashes both disks of the node by `how`; a node that is up is down then, and what it held is gone. A
    /// node that is down stays as it is.
    pub fn crash(self, how: u64) -> Host<Fused<D>>
        ensures { HasCrashed self result }
    {
        let Host {
            id,
            place,
            how: kept,
        } = self;
        match place {
            Place::Up(node) => Host {
                id,
                place: fallen(node, how),
                how: kept,
            },
            Place::Down(first, second, fall) => Host {
                id,
                place: Place::Down(first, second, fall),
                how: kept,
            },
        }
    }

    /// Arms the fuses of both disks with `k`, at least 1; `how` is what the next stop crashes them by.
    pub fn arm(self, k: u64, how: u64) -> Host<Fused<D>>
        requires { 1 ≤ k }
        ensures { HasArmed k how self result }
    {
        let Host { id, place, how: _ } = self;
        let place = match place {
            Place::Up(node) => {
                let mut node = node;
                node.arm(k);
                Place::Up(node)
            }
            Place::Down(first, second, fall) => {
                let mut first = first;
                let mut second = second;
                first.arm(k);
                second.arm(k);
                Place::Down(first, second, fall)
            }
        };
        Host { id, place, how }
    }

    /// Gives up the node for its two disks. What it held is gone.
    pub fn into_disks(self) -> (Fused<D>, Fused<D>)
        ensures { EndsAt self.place result.0 result.1 }
    {
        match self.place {
            Place::Up(node) => node.stop(),
            Place::Down(first, second, _) => (first, second),
        }
    }
}
