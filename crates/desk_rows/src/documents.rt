//! Clusters and scripts of worked runs.

ghost use Rattle.std.specs.Prelude.{◌≡◌, ◌≤◌, ◌∷◌, [], IfOk};

use placement::{Cluster, Places};
use score_base::{Memory, NodeId, NodeList, TxId, WriteList, push};
use script_lang::{Script, read_script};
use std::alloc::Global;
use std::test::Fail;

fn node(number: u8) -> NodeId
    requires least { 1 ≤ number }
    requires most { number ≤ 16 }
    ensures { result ≡ number }
{
    NodeId { number }
}

fn tx(number: u16) -> TxId
    requires { 1 ≤ number }
    ensures { result ≡ number }
{
    TxId { number }
}

pub(crate) fn n1() -> NodeId
    ensures { result ≡ 1 }
{
    node(1)
}

pub(crate) fn n2() -> NodeId
    ensures { result ≡ 2 }
{
    node(2)
}

fn n3() -> NodeId
    ensures { result ≡ 3 }
{
    node(3)
}

pub(crate) fn t1() -> TxId {
    tx(1)
}

pub(crate) fn t2() -> TxId {
    tx(2)
}

fn one(alloc: Global, n: NodeId) -> Result<NodeList, Memory>
    ensures { IfOk result (λ ns. ns ≡ n ∷ []) }
{
    let mut nodes = NodeList::new(alloc);
    nodes.push(n)?;
    Ok(nodes)
}

pub(crate) fn two(alloc: Global, n: NodeId, m: NodeId) -> Result<NodeList, Memory>
    ensures { IfOk result (λ ns. ns ≡ n ∷ m ∷ []) }
{
    let mut nodes = NodeList::new(alloc);
    nodes.push(n)?;
    nodes.push(m)?;
    Ok(nodes)
}

fn apart_places(alloc: Global) -> Result<Places, Memory>
    ensures { IfOk result (λ p. p ≡ (1 ∷ []) ∷ (2 ∷ []) ∷ []) }
{
    let mut partitions = Vec::new(alloc);
    push(&mut partitions, one(alloc, n1())?)?;
    push(&mut partitions, one(alloc, n2())?)?;
    Ok(Places::new(partitions))
}

/// Two nodes: key b is on n1, and key a on n2.
pub(crate) fn apart(alloc: Global) -> Result<Cluster, Memory> {
    Ok(Cluster {
        nodes: 2,
        places: apart_places(alloc)?,
        inits: WriteList::new(alloc),
    })
}

fn copied_places(alloc: Global) -> Result<Places, Memory>
    ensures { IfOk result (λ p. p ≡ (1 ∷ []) ∷ (2 ∷ 3 ∷ []) ∷ []) }
{
    let mut partitions = Vec::new(alloc);
    push(&mut partitions, one(alloc, n1())?)?;
    push(&mut partitions, two(alloc, n2(), n3())?)?;
    Ok(Places::new(partitions))
}

/// Three nodes: key a is on n2 and n3.
pub(crate) fn copied(alloc: Global) -> Result<Cluster, Memory> {
    Ok(Cluster {
        nodes: 3,
        places: copied_places(alloc)?,
        inits: WriteList::new(alloc),
    })
}

fn ring_places(alloc: Global) -> Result<Places, Memory>
    ensures { IfOk result (λ p. p ≡ (1 ∷ 2 ∷ []) ∷ (2 ∷ 3 ∷ []) ∷ (3 ∷ 1 ∷ []) ∷ []) }
{
    let mut partitions = Vec::new(alloc);
    push(&mut partitions, two(alloc, n1(), n2())?)?;
    push(&mut partitions, two(alloc, n2(), n3())?)?;
    push(&mut partitions, two(alloc, n3(), n1())?)?;
    Ok(Places::new(partitions))
}

/// Three nodes, each key on two of them: a on n2 and n3, b on n3 and n1.
pub(crate) fn ring(alloc: Global) -> Result<Cluster, Memory> {
    Ok(Cluster {
        nodes: 3,
        places: ring_places(alloc)?,
        inits: WriteList::new(alloc),
    })
}

/// The script of a text.
pub(crate) fn script(alloc: Global, text: &[u8]) -> Result<Script, Fail> {
    match read_script(alloc, text, 3) {
        Ok(script) => Ok(script),
        Err(_) => Err(Fail::new("no script")),
    }
}
