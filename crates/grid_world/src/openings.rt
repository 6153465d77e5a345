//! A new world, and its start row.
ghost use Rattle.std.specs.Prelude.{◌≡◌, ◌≤◌, ◌∷◌, [], IfOk, List, OnOk, length};
ghost use Rattle.grid_world.specs.Starts.{AreDisksOf, AreSeated, HasOpenedOne, IsFresh, Opens};
ghost use Rattle.grid_world.specs.Worlds.{CanReopen};

use crate::worlds::World;
use grid_hosts::{Host, Restarted};
use grid_model::{Act, Document, Flag};
use run_tally::Tally;
use score_base::{Memory, NodeId, push};
use score_disk::{CrashDisk, Disk, Fused};
use sent_list::SentList;
use std::alloc::Global;

/// Takes the first two disks away.
fn take_two<D: CrashDisk>(disks: &mut Vec<Fused<D>>) -> (Fused<D>, Fused<D>)
    requires { 2 ≤ length disks.old.items }
    ensures { disks.old.items ≡ result.0 ∷ result.1 ∷ disks.new.items }
{
    let first = disks.remove(0);
    let second = disks.remove(0);
    (first, second)
}

/// Seats so many nodes over disks, which are taken away.
fn seat_all<D: CrashDisk>(
    nodes: u8,
    hosts: &mut Vec<Host<Fused<D>>>,
    disks: &mut Vec<Fused<D>>,
) -> Result<(), Memory>
    requires disks { AreDisksOf ⟦<Fused<D> as Disk>⟧ nodes disks.old.items }
    requires few { nodes ≤ 16 }
    requires none { hosts.old.items ≡ [] }
    ensures seated { OnOk result (AreSeated 1 disks.old.items hosts.new.items disks.new.items) }
    ensures count { OnOk result (length hosts.new.items ≡ nodes) }
{
    for i in 0..nodes {
        let (first, second) = take_two(disks);
        push(hosts, Host::new(NodeId { number: i + 1 }, first, second))?;
    }
    Ok(())
}

impl<D: CrashDisk> World<Fused<D>> {
    /// The world of a document whose nodes are down, over these disks, which are new: node n has those at the places
    /// 2 (n - 1) and 2 (n - 1) + 1.
    pub fn new(
        alloc: Global,
        doc: &Document,
        disks: Vec<Fused<D>>,
    ) -> Result<World<Fused<D>>, Memory>
        requires { AreDisksOf ⟦<Fused<D> as Disk>⟧ doc.now.cluster.nodes disks.items }
        ensures { IfOk result (λ w. IsFresh doc.now disks.items w) }
    {
        let mut given_up = Vec::new(alloc);
        given_up.reserve(disks.len())?;
        let mut hosts = Vec::new(alloc);
        let mut rest = disks;
        seat_all(doc.cluster().nodes(), &mut hosts, &mut rest)?;
        Ok(World {
            hosts,
            rest,
            network: SentList::new(alloc),
            tally: Tally::new(alloc, doc)?,
            given_up,
        })
    }

    /// Opens node `n` for the first time.
    fn open_first(&mut self, alloc: Global, doc: &Document, n: NodeId) -> Result<Act, Memory>
        requires { CanReopen doc.now n self.old }
        ensures { IfOk result (λ act. HasOpenedOne doc.now n self.old self.new act) }
    {
        match self.restart_at(alloc, doc, n) {
            Restarted::Up(flag) => Ok(Act::Up(n, flag)),
            Restarted::StillDown => Ok(Act::StillDown(n)),
            Restarted::Memory => Err(Memory),
        }
    }

    /// Opens each node, in rising order: the start row.
    pub fn opening(&mut self, alloc: Global, doc: &Document) -> Result<Vec<Act>, Memory>
        requires { (given : List (Fused D)) × IsFresh doc.now given self.old }
        ensures { IfOk result (λ acts. Opens doc.now self.old self.new acts.items) }
    {
        let nodes = doc.cluster().nodes();
        let mut acts = Vec::new(alloc);
        for i in 0..nodes {
            let act = self.open_first(alloc, doc, NodeId { number: i + 1 })?;
            push(&mut acts, act)?;
        }
        self.tell(doc, acts.as_slice())?;
        Ok(acts)
    }
}
