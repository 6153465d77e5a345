//! A cluster of two nodes, and the Prepares that are asked there.
ghost use Rattle.std.specs.Prelude.{◌≡◌, ◌≤◌, ◌∷◌, [], IfOk, IsTrue};
ghost use Rattle.score_base.specs.Keys.{is_key};

use grid_model::Prepare;
use placement::{Cluster, Places};
use score_base::{Ident, Key, KeyList, Memory, NodeId, NodeList, TxId, Value, WriteList, push};
use std::alloc::Global;

fn node(number: u8) -> NodeId
    requires least { 1 ≤ number }
    requires most { number ≤ 16 }
    ensures { result ≡ number }
{
    NodeId { number }
}

fn tx(number: u16) -> TxId
    requires { 1 ≤ number }
    ensures { result ≡ number }
{
    TxId { number }
}

fn key(bytes: &[u8]) -> Key
    requires { IsTrue (is_key bytes.now) }
    ensures { result ≡ bytes.now }
{
    Key::new(bytes).unwrap()
}

pub(crate) fn n1() -> NodeId
    ensures { result ≡ 1 }
{
    node(1)
}

pub(crate) fn n2() -> NodeId
    ensures { result ≡ 2 }
{
    node(2)
}

pub(crate) fn t1() -> TxId {
    tx(1)
}

pub(crate) fn t2() -> TxId {
    tx(2)
}

pub(crate) fn t3() -> TxId {
    tx(3)
}

pub(crate) fn a() -> Key {
    key(b"a")
}

pub(crate) fn b() -> Key {
    key(b"b")
}

pub(crate) fn c() -> Key {
    key(b"c")
}

fn places(alloc: Global) -> Result<Places, Memory>
    ensures { IfOk result (λ p. p ≡ (1 ∷ []) ∷ (2 ∷ []) ∷ []) }
{
    let mut first = NodeList::new(alloc);
    first.push(node(1))?;
    let mut second = NodeList::new(alloc);
    second.push(node(2))?;
    let mut partitions = Vec::new(alloc);
    push(&mut partitions, first)?;
    push(&mut partitions, second)?;
    Ok(Places::new(partitions))
}

/// `b` is on n1, and `a`, with the value 10, and `c` are on n2.
pub(crate) fn cluster(alloc: Global) -> Result<Cluster, Memory> {
    let mut inits = WriteList::new(alloc);
    inits.push((a(), Value(10)))?;
    Ok(Cluster {
        nodes: 2,
        places: places(alloc)?,
        inits,
    })
}

fn one_node(alloc: Global, node: NodeId) -> Result<NodeList, Memory> {
    let mut nodes = NodeList::new(alloc);
    nodes.push(node)?;
    Ok(nodes)
}

/// The Prepare of t1, which read `a` at 0 and writes 11 to `b`, at n1.
pub(crate) fn first_at_n1(alloc: Global) -> Result<Prepare, Memory> {
    let mut parts = one_node(alloc, n1())?;
    parts.push(n2())?;
    let mut writes = WriteList::new(alloc);
    writes.push((b(), Value(11)))?;
    Ok(Prepare {
        t: t1(),
        sid: Ident(0),
        parts,
        reads: KeyList::new(alloc),
        writes,
    })
}

/// The same at n2.
pub(crate) fn first_at_n2(alloc: Global) -> Result<Prepare, Memory> {
    let mut parts = one_node(alloc, n1())?;
    parts.push(n2())?;
    let mut reads = KeyList::new(alloc);
    reads.push(a())?;
    Ok(Prepare {
        t: t1(),
        sid: Ident(0),
        parts,
        reads,
        writes: WriteList::new(alloc),
    })
}

/// A Prepare at n2 of a transaction that began at 0 and writes one key.
pub(crate) fn writes_at_n2(
    alloc: Global,
    t: TxId,
    key: Key,
    value: u64,
) -> Result<Prepare, Memory> {
    let mut writes = WriteList::new(alloc);
    writes.push((key, Value(value)))?;
    Ok(Prepare {
        t,
        sid: Ident(0),
        parts: one_node(alloc, n2())?,
        reads: KeyList::new(alloc),
        writes,
    })
}
