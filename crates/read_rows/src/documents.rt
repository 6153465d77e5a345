//! A cluster of two nodes, and what is handed to n2.
ghost use Rattle.std.specs.Prelude.{◌≡◌, ◌≤◌, ◌∷◌, [], IfOk, IsTrue};
ghost use Rattle.score_base.specs.Keys.{is_key};
ghost use Rattle.journal_records.specs.Records.{CanEncode};

use grid_model::ReadReq;
use placement::{Cluster, Places};
use score_base::{
    Date, Ident, Key, KeyList, Memory, NodeId, NodeList, Outcome, Record, TxId, Value, WriteList,
    push,
};
use std::alloc::Global;

pub(crate) fn node(number: u8) -> NodeId
    requires least { 1 ≤ number }
    requires most { number ≤ 16 }
    ensures { result ≡ number }
{
    NodeId { number }
}

pub(crate) fn tx(number: u16) -> TxId
    requires { 1 ≤ number }
    ensures { result ≡ number }
{
    TxId { number }
}

fn key(bytes: &[u8]) -> Key
    requires { IsTrue (is_key bytes.now) }
    ensures { result ≡ bytes.now }
{
    Key::new(bytes).unwrap()
}

/// The key `a`, which n2 holds.
pub(crate) fn a() -> Key {
    key(b"a")
}

fn places(alloc: Global) -> Result<Places, Memory>
    ensures { IfOk result (λ p. p ≡ (1 ∷ []) ∷ (2 ∷ []) ∷ []) }
{
    let mut first = NodeList::new(alloc);
    first.push(node(1))?;
    let mut second = NodeList::new(alloc);
    second.push(node(2))?;
    let mut partitions = Vec::new(alloc);
    push(&mut partitions, first)?;
    push(&mut partitions, second)?;
    Ok(Places::new(partitions))
}

/// Two nodes, of which n2 holds `a`, with the value 10.
pub(crate) fn cluster(alloc: Global) -> Result<Cluster, Memory> {
    let mut inits = WriteList::new(alloc);
    inits.push((a(), Value(10)))?;
    Ok(Cluster {
        nodes: 2,
        places: places(alloc)?,
        inits,
    })
}

/// The vote of n2 on t1 of n1, which read `a` at 0: it proposes `p`.
pub(crate) fn vote(alloc: Global, t: TxId, p: u64) -> Result<Record, Memory>
    ensures { IfOk result CanEncode }
{
    let mut parts = NodeList::new(alloc);
    parts.push(node(1))?;
    parts.push(node(2))?;
    let mut reads = KeyList::new(alloc);
    reads.push(a())?;
    Ok(Record::Prepared {
        t,
        home: node(1),
        parts,
        sid: Ident(0),
        p: Ident(p),
        reads,
        writes: WriteList::new(alloc),
    })
}

/// The end of a transaction with a commit.
pub(crate) fn committed(t: TxId, f: u64) -> Record
    ensures { CanEncode result }
{
    let outcome = Outcome::Commit(Ident(f));
    Record::Ended { t, outcome }
}

/// The request of n1 for `a`.
pub(crate) fn request(t: TxId, op: u8, date: Date) -> ReadReq {
    ReadReq {
        t,
        op,
        key: a(),
        date,
    }
}
