//! Journals that are built record by record, and the cluster of the runs.
ghost use Rattle.std.specs.Prelude.{◌≡◌, ◌≤◌, ◌∷◌, [], codes, IfOk, IsTrue};
ghost use Rattle.score_base.specs.Keys.{is_key};

use placement::{Cluster, Places};
use score_base::{
    Ident, Key, KeyList, Memory, NodeId, NodeList, Outcome, Record, TxId, Value, WriteList, push,
};
use std::alloc::Global;
use std::process::Abort;

pub fn node(number: u8) -> NodeId
    requires least { 1 ≤ number }
    requires most { number ≤ 16 }
    ensures { result ≡ number }
{
    NodeId { number }
}

pub fn tx(number: u16) -> TxId
    requires { 1 ≤ number }
    ensures { result ≡ number }
{
    TxId { number }
}

pub fn key(bytes: &[u8]) -> Key
    requires { IsTrue (is_key bytes.now) }
    ensures { result ≡ bytes.now }
{
    Key::new(bytes).unwrap()
}

/// What a participant writes down before it votes yes. The identifiers are the snapshot and the
/// proposal.
#[derive(Drop)]
pub struct Vote<'a> {
    pub t: TxId,
    pub home: NodeId,
    pub parts: &'a [NodeId],
    pub idents: (u64, u64),
    pub reads: &'a [Key],
    pub writes: &'a [(Key, Value)],
}

fn prepared(alloc: Global, vote: &Vote) -> Result<Record, Memory> {
    Ok(Record::Prepared {
        t: vote.t,
        home: vote.home,
        parts: NodeList::from_vec(Vec::from_slice(alloc, vote.parts)?),
        sid: Ident(vote.idents.0),
        p: Ident(vote.idents.1),
        reads: KeyList::from_vec(Vec::from_slice(alloc, vote.reads)?),
        writes: WriteList::from_vec(Vec::from_slice(alloc, vote.writes)?),
    })
}

fn decided(alloc: Global, t: TxId, f: u64, parts: &[NodeId]) -> Result<Record, Memory> {
    Ok(Record::Decided {
        t,
        f: Ident(f),
        parts: NodeList::from_vec(Vec::from_slice(alloc, parts)?),
    })
}

/// Puts a record last.
pub fn add(rt: &impl Abort, journal: &mut Vec<Record>, rec: Record) {
    assert!(rt; push(journal, rec).is_ok());
}

/// Puts the Prepared record of a vote last.
pub fn add_prepared(rt: &impl Abort, journal: &mut Vec<Record>, vote: &Vote) {
    let rec = prepared(*journal.allocator(), vote).expect(rt, "memory");
    add(rt, journal, rec);
}

/// Puts a Decided record last.
pub fn add_decided(rt: &impl Abort, journal: &mut Vec<Record>, t: TxId, f: u64, parts: &[NodeId]) {
    let rec = decided(*journal.allocator(), t, f, parts).expect(rt, "memory");
    add(rt, journal, rec);
}

/// Puts an Ended record with commit last.
pub fn add_committed(rt: &impl Abort, journal: &mut Vec<Record>, t: TxId, f: u64) {
    let outcome = Outcome::Commit(Ident(f));
    add(rt, journal, Record::Ended { t, outcome });
}

fn places(alloc: Global) -> Result<Places, Memory>
    ensures { IfOk result (λ p. p ≡ (1 ∷ []) ∷ (2 ∷ []) ∷ []) }
{
    let mut first = NodeList::new(alloc);
    first.push(node(1))?;
    let mut second = NodeList::new(alloc);
    second.push(node(2))?;
    let mut partitions = Vec::new(alloc);
    partitions.push(first)?;
    partitions.push(second)?;
    Ok(Places::new(partitions))
}

/// Two nodes: `b` is on n1 with the value 0; `a`, with the value 10, and `c` are on n2.
pub fn cluster(alloc: Global) -> Result<Cluster, Memory> {
    let mut inits = WriteList::new(alloc);
    inits.push((key(b"a"), Value(10)))?;
    inits.push((key(b"b"), Value(0)))?;
    Ok(Cluster {
        nodes: 2,
        places: places(alloc)?,
        inits,
    })
}
