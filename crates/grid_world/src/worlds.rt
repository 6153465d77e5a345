//! The world: what it keeps.
ghost use Rattle.std.specs.Prelude.{◌≡◌, ◌≤◌, ◌+◌, ◌-◌, ◌*◌, ◌++◌, length, slice_get, vec_capacity};
ghost use Rattle.std.specs.List.{flat_map};
ghost use Rattle.std.specs.Option.{option_copied};
ghost use Rattle.grid_world.specs.Ends.{HasEnded, AreGivenUp};
ghost use Rattle.grid_world.specs.Worlds.{HasRoom, host_at, is_up_in, node_of};

use grid_hosts::Host;
use node_core::Node;
use run_tally::Tally;
use score_base::NodeId;
use score_disk::{CrashDisk, Disk, Fused};
use sent_list::SentList;

/// The nodes of a document over their disks, the messages sent, and the tally of the acts so far.
#[derive(Drop)]
pub struct World<D: Disk> {
    /// Node n at place n - 1.
    pub(crate) hosts: Vec<Host<D>>,
    /// The disks that are no node's.
    pub(crate) rest: Vec<D>,
    pub(crate) network: SentList,
    pub(crate) tally: Tally,
    /// The disks given up, for which there is room from the start.
    pub(crate) given_up: Vec<D>,
}

/// Gives up these hosts for their disks.
fn give_up<D: CrashDisk>(hosts: Vec<Host<Fused<D>>>, disks: Vec<Fused<D>>) -> Vec<Fused<D>>
    requires { length disks.items + 2 * length hosts.items ≤ vec_capacity disks }
    ensures items { AreGivenUp hosts.items disks.items result.items }
    ensures room { vec_capacity result ≡ vec_capacity disks }
{
    let mut disks = disks;
    for host in hosts {
        let (first, second) = host.into_disks();
        disks.push_reserved(first);
        disks.push_reserved(second);
    }
    disks
}

/// What stands in a place of a list.
fn at<T>(list: &[T], place: usize) -> Option<&T>
    ensures { option_copied result ≡ slice_get list.now place }
{
    list.get(place)
}

/// The place of the host of a node.
pub(crate) fn place_of(n: NodeId) -> usize
    ensures value { result ≡ n - 1 }
    ensures least { 1 ≤ n }
{
    n.number as usize - 1
}

impl<D: CrashDisk> World<Fused<D>> {
    fn host(&self, n: NodeId) -> Option<&Host<Fused<D>>>
        ensures { option_copied result ≡ host_at self.now n }
    {
        at(self.hosts.as_slice(), place_of(n))
    }

    /// The node, where it is up.
    pub fn node(&self, n: NodeId) -> Option<&Node<Fused<D>>>
        ensures { option_copied result ≡ node_of (host_at self.now n) }
    {
        match self.host(n) {
            None => None,
            Some(host) => host.node(),
        }
    }

    /// Whether the node is up.
    pub(crate) fn is_up(&self, n: NodeId) -> bool
        ensures up { result ≡ is_up_in self.now n }
        ensures least { 1 ≤ n }
    {
        self.node(n).is_some()
    }

    /// What the summary needs of the acts so far.
    pub fn tally(&self) -> &Tally
        ensures { result.now ≡ self.now.tally }
    {
        &self.tally
    }

    /// Gives up the nodes for the disks, in the order in which they were given. It takes no memory.
    pub fn into_disks(self) -> Vec<Fused<D>>
        requires { HasRoom self }
        ensures { HasEnded self result.items }
    {
        let World {
            hosts,
            rest,
            network: _,
            tally: _,
            given_up,
        } = self;
        let mut disks = give_up(hosts, given_up);
        for disk in rest {
            disks.push_reserved(disk);
        }
        disks
    }
}
