//! A node is opened from its two disks.

ghost use Rattle.std.specs.Prelude.{◌≡◌};
ghost use Rattle.score_disk.specs.Files.{Settled};
ghost use Rattle.node_journal.specs.PairDisks.{first_of, last_of, list_of};
ghost use Rattle.node_core.specs.Openings.{IsOpened, IsReplayedAs};

use crate::ends::Opened;
use crate::nodes::Node;
use grid_store::{ReplayEnd, Store};
use node_journal::{Pair, PairEnd};
use placement::Cluster;
use presumed_abort::Desk;
use score_base::{NodeId, Record};
use score_disk::Disk;
use snapshot_read::Waiting;
use std::alloc::Global;

impl<D: Disk> Node<D> {
    /// Opens node `id` of the cluster from its two disks, both settled. The first is made anew where
    /// neither file has a generation and the first has at most two bytes; else nothing is written. The
    /// node has the records of the live file; it holds no read, and its desk has the decided transactions
    /// that are not closed. [`Opened::Strange`] comes exactly where a record is the first that does not fit
    /// those before it.
    pub fn open(alloc: Global, id: NodeId, cluster: &Cluster, first: D, second: D) -> Opened<D>
        requires first { Settled (D.tells first) (D.file first) }
        requires second { Settled (D.tells second) (D.file second) }
        ensures { IsOpened D.Disk id cluster.now first second result }
    {
        match Pair::open(alloc, first, second) {
            Ok(opened) => {
                let (pair, records) = opened;
                replay(alloc, id, cluster, pair, records.as_slice())
            }
            Err(PairEnd::Failed(first, second)) => Opened::Failed(first, second),
            Err(PairEnd::NotJournal(first, second, at)) => Opened::NotJournal(first, second, at),
            Err(PairEnd::Memory(first, second)) => Opened::Memory(first, second),
        }
    }
}

/// The node of these records.
fn replay<D: Disk>(
    alloc: Global,
    id: NodeId,
    cluster: &Cluster,
    pair: Pair<D>,
    records: &[Record],
) -> Opened<D>
    ensures { IsReplayedAs D.Disk id cluster.now records.now pair result }
{
    let store = match Store::replay(alloc, cluster, id, records) {
        Ok(store) => store,
        Err(ReplayEnd::Strange(i)) => {
            let (first, second) = pair.stop();
            return Opened::Strange(first, second, i);
        }
        Err(ReplayEnd::Memory) => {
            let (first, second) = pair.stop();
            return Opened::Memory(first, second);
        }
    };
    match Desk::replay(alloc, records) {
        Ok(desk) => Opened::Up(Node::joined(store, Waiting::new(alloc), desk, pair)),
        Err(_) => {
            let (first, second) = pair.stop();
            Opened::Memory(first, second)
        }
    }
}
