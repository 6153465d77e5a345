//! Which nodes hold a key, and what it begins with.
ghost use Rattle.std.specs.Prelude.{◌≡◌, ◌<◌, ◌≤◌, ◌+◌, ◌*◌, ◌%◌, ◌^◌, ◌++◌, ◌∷◌, ◌==◌, [], length, IsTrue, IfOk, OnOk};
ghost use Rattle.std.specs.List.{list_any, filter};
ghost use Rattle.placement.specs.Places.{key_sum, holders, is_among, holds, parts, preferred, others, init_of, IsPlaces};

use score_base::{Key, Members, Memory, NodeId, NodeList, TryCopy, Value, WriteList};
use std::alloc::Global;
use std::marker::Model;

/// The partitions of the keys: 1 to 64 of them, each a list of at least one node, without repeats,
/// in the order in which the document lists them.
#[derive(Drop, Debug)]
pub struct Places {
    partitions: Members<NodeList>,
}

impl Model for Places {
    ghost use Rattle.std.specs.Prelude.{List, ℕ};
    ghost use Rattle.placement.specs.Places.{IsPlaces};

    ghost Value = { List (List ℕ) };

    ghost view = { λ p. p.partitions };

    ghost invariant = { λ p. IsPlaces p.partitions };
}

/// The sum that places a key: over its bytes, 31 times the sum so far and the byte, modulo 2^32.
pub(crate) fn key_sum(key: &[u8]) -> u64
    ensures value { result ≡ key_sum key.now }
    ensures small { result < 2 ^ 32 }
{
    let mut sum = 0u64;
    for b in key {
        sum = (31 * sum + *b as u64) % (1 << 32);
    }
    sum
}

/// Whether the node is among these.
fn is_among(node: NodeId, nodes: &[NodeId]) -> bool
    ensures { result ≡ is_among node nodes.now }
{
    nodes.iter().any(|other| *other == node)
}

/// Puts the nodes of a list but for one last, in order.
fn push_others(nodes: &mut NodeList, but: NodeId, list: &[NodeId]) -> Result<(), Memory>
    ensures { OnOk result (nodes.new ≡ nodes.old ++ others but list.now) }
{
    for node in list {
        if *node != but {
            nodes.push(*node)?;
        }
    }
    Ok(())
}

impl Places {
    /// The partitions with these node lists.
    pub fn new(partitions: Vec<NodeList>) -> Places
        requires { IsPlaces partitions.items }
        ensures { result ≡ partitions.items }
    {
        Places {
            partitions: Members::from_vec(partitions),
        }
    }

    /// The node lists of the partitions, in order.
    pub fn partitions(&self) -> &[NodeList]
        ensures value { result.now ≡ self.now }
        ensures places { IsPlaces result.now }
    {
        self.partitions.as_slice()
    }

    /// The nodes that hold a key, in the order in which its partition lists them.
    pub fn holders(&self, key: &Key) -> &[NodeId]
        ensures { result.now ≡ holders self.now key.now }
    {
        let partitions = self.partitions.as_slice();
        let place = key_sum(key.bytes()) % partitions.len() as u64;
        partitions[place as usize].as_slice()
    }

    /// Whether the node holds the key.
    pub fn holds(&self, node: NodeId, key: &Key) -> bool
        ensures { result ≡ holds self.now node key.now }
    {
        is_among(node, self.holders(key))
    }

    fn holds_any(&self, node: NodeId, keys: &[Key]) -> bool
        ensures { result ≡ list_any (holds self.now node) keys.now }
    {
        for key in keys {
            if self.holds(node, key) {
                return true;
            }
        }
        false
    }

    fn push_part(&self, parts: &mut NodeList, node: NodeId, keys: &[Key]) -> Result<(), Memory>
        ensures { OnOk result
            (parts.new ≡ parts.old ++ filter (λ n. list_any (holds self.now n) keys.now) (node ∷ [])) }
    {
        if self.holds_any(node, keys) {
            parts.push(node)?;
        }
        Ok(())
    }

    /// All nodes that hold one of the keys, rising.
    #[tactic(auto, unfolding(crate::proofs::Rising::rising_from))]
    pub fn parts(&self, alloc: Global, keys: &[Key]) -> Result<NodeList, Memory>
        ensures { IfOk result (λ ns. ns ≡ parts self.now keys.now) }
    {
        let mut parts = NodeList::new(alloc);
        for number in 1..17 {
            self.push_part(&mut parts, NodeId { number }, keys)?;
        }
        Ok(parts)
    }

    /// The holders of a key in the order that a home prefers: the home first where it holds the key,
    /// then the others in the order in which the partition lists them.
    pub fn preferred(&self, alloc: Global, home: NodeId, key: &Key) -> Result<NodeList, Memory>
        ensures { IfOk result (λ ns. ns ≡ preferred self.now home key.now) }
    {
        let holders = self.holders(key);
        if !is_among(home, holders) {
            return Ok(NodeList::from_vec(Vec::from_slice(alloc, holders)?));
        }
        let mut nodes = NodeList::new(alloc);
        nodes.push(home)?;
        push_others(&mut nodes, home, holders)?;
        Ok(nodes)
    }
}

impl TryCopy for Places {
    fn copy(&self) -> Result<Places, Memory> {
        Ok(Places {
            partitions: self.partitions.copy()?,
        })
    }
}

/// A cluster: 1 to 16 nodes, the places of the keys on them, and the initial values of some keys,
/// each named once. Every other key has the initial value 0.
#[derive(Drop, Debug)]
pub struct Cluster {
    pub nodes: u8,
    pub places: Places,
    pub inits: WriteList,
}

impl Model for Cluster {
    ghost use Rattle.placement.specs.Clusters.{ClusterData, IsCluster};

    ghost Value = { ClusterData };

    ghost view = { λ c. record { nodes = c.nodes; places = c.places; inits = c.inits } };

    ghost invariant = { λ c. IsCluster (record { nodes = c.nodes; places = c.places; inits = c.inits }) };
}

/// The value that a list gives a key, or 0.
fn value_of(inits: &[(Key, Value)], key: &Key) -> Value
    ensures { result ≡ init_of inits.now key.now }
{
    for init in inits {
        if init.0 == *key {
            return init.1;
        }
    }
    Value(0)
}

impl Cluster {
    ghost use Rattle.placement.specs.Clusters.{init};

    /// The initial value of a key.
    pub fn init(&self, key: &Key) -> Value
        ensures { result ≡ init self.now key.now }
    {
        value_of(self.inits.as_slice(), key)
    }

    /// The number of nodes, from 1 to 16.
    pub fn nodes(&self) -> u8
        ensures value { result ≡ self.now.nodes }
        ensures least { 1 ≤ result }
        ensures most { result ≤ 16 }
    {
        self.nodes
    }
}

impl TryCopy for Cluster {
    fn copy(&self) -> Result<Cluster, Memory> {
        Ok(Cluster {
            nodes: self.nodes,
            places: self.places.copy()?,
            inits: self.inits.copy()?,
        })
    }
}
