//! The parts of a transaction.

ghost use Rattle.std.specs.Prelude.{◌≡◌, ◌≤◌, true, length, IfOk};
ghost use Rattle.std.specs.List.Sorted.{IsStrictlyIncreasing};
ghost use Rattle.placement.specs.Places.{holds};
ghost use Rattle.grid_model.specs.Advances.{parts_now};

use crate::opens::OpenRef;
use placement::{Cluster, Places};
use score_base::{Key, Memory, NodeId, NodeList, TryCopy};
use script_lang::{key_of, keys};
use std::alloc::Global;
use std::marker::Model;

/// The nodes that hold a key of a transaction: 1 to 16 nodes, rising.
#[derive(Drop)]
pub struct Parts {
    nodes: NodeList,
}

impl Model for Parts {
    ghost use Rattle.std.specs.Prelude.{ℕ, List};
    ghost use Rattle.presumed_abort.specs.Parts.{AreParts};

    ghost Value = { List ℕ };

    ghost view = { λ p. p.nodes };

    ghost invariant = { λ p. AreParts p.nodes };
}

/// A node that holds the key.
fn holder(places: &Places, key: &Key) -> NodeId
    ensures holds { holds places.now result key.now ≡ true }
    ensures least { 1 ≤ result }
    ensures most { result ≤ 16 }
{
    let _partitions = places.partitions();
    let first = places.holders(key)[0];
    let _number = first.get();
    first
}

impl Parts {
    /// The parts of an open transaction.
    pub(crate) fn of(alloc: Global, cluster: &Cluster, tx: &OpenRef) -> Result<Parts, Memory>
        ensures { IfOk result (λ ns. ns ≡ parts_now cluster.now tx.now) }
    {
        let _holder = holder(&cluster.places, &key_of(&tx.script.ops()[0]));
        let keys = keys(alloc, tx.script)?;
        let nodes = cluster.places.parts(alloc, keys.as_slice())?;
        Ok(Parts { nodes })
    }

    /// The nodes.
    pub fn as_slice(&self) -> &[NodeId]
        ensures { result.now ≡ self.now }
    {
        self.nodes.as_slice()
    }

    /// The list of the nodes.
    pub fn into_list(self) -> NodeList
        ensures value { result ≡ self }
        ensures least { 1 ≤ length result }
        ensures most { length result ≤ 16 }
        ensures rising { IsStrictlyIncreasing result }
    {
        let Parts { nodes } = self;
        nodes
    }
}

impl TryCopy for Parts {
    fn copy(&self) -> Result<Parts, Memory> {
        Ok(Parts {
            nodes: self.nodes.copy()?,
        })
    }
}
