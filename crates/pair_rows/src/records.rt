//! Records, and lists of them.
ghost use Rattle.std.specs.Prelude.{◌≡◌, ◌≤◌, ◌∷◌, [], IfOk};
ghost use Rattle.journal_records.specs.Records.{CanEncode};

use score_base::{Ident, Key, KeyList, NodeId, NodeList, Outcome, Record, TxId, Value, WriteList};
use std::alloc::Global;
use std::test::Fail;

pub fn closed(t: u16) -> Record
    requires { 1 ≤ t }
    ensures { CanEncode result }
{
    Record::Closed {
        t: TxId { number: t },
    }
}

pub fn ceiling(c: u64) -> Record
    ensures { CanEncode result }
{
    Record::Ceiling { c: Ident(c) }
}

/// The commit of the transaction with 1.
pub fn ended(t: u16) -> Record
    requires { 1 ≤ t }
    ensures { CanEncode result }
{
    Record::Ended {
        t: TxId { number: t },
        outcome: Outcome::Commit(Ident(1)),
    }
}

fn nodes(alloc: Global) -> Result<NodeList, Fail>
    ensures { IfOk result (λ list. list ≡ 1 ∷ 2 ∷ []) }
{
    let mut nodes = NodeList::new(alloc);
    nodes.push(NodeId { number: 1 })?;
    nodes.push(NodeId { number: 2 })?;
    Ok(nodes)
}

/// The decision for the transaction with 1, of the parts 1 and 2.
pub fn decided(alloc: Global, t: u16) -> Result<Record, Fail>
    requires { 1 ≤ t }
    ensures { IfOk result CanEncode }
{
    Ok(Record::Decided {
        t: TxId { number: t },
        f: Ident(1),
        parts: nodes(alloc)?,
    })
}

/// The vote for the transaction, which writes 11 to `b`.
pub fn prepared(alloc: Global, t: u16) -> Result<Record, Fail>
    requires { 1 ≤ t }
    ensures { IfOk result CanEncode }
{
    let mut writes = WriteList::new(alloc);
    writes.push((Key::new(b"b").ok_or("key")?, Value(11)))?;
    Ok(Record::Prepared {
        t: TxId { number: t },
        home: NodeId { number: 1 },
        parts: nodes(alloc)?,
        sid: Ident(0),
        p: Ident(1),
        reads: KeyList::new(alloc),
        writes,
    })
}

/// A Prepared, a Decided, an Ended and a Closed of transaction 1.
pub fn four_records(alloc: Global) -> Result<Vec<Record>, Fail> {
    let mut records = Vec::new(alloc);
    records.push(prepared(alloc, 1)?)?;
    records.push(decided(alloc, 1)?)?;
    records.push(ended(1))?;
    records.push(closed(1))?;
    Ok(records)
}

/// What a compaction keeps of the four.
pub fn two_records(alloc: Global) -> Result<Vec<Record>, Fail> {
    let mut records = Vec::new(alloc);
    records.push(prepared(alloc, 1)?)?;
    records.push(ended(1))?;
    Ok(records)
}

/// Whether two lists of records print alike.
pub fn are_alike(alloc: Global, a: &[Record], b: &[Record]) -> Result<bool, Fail> {
    let first = format!(in alloc; "{:?}", a)?;
    let second = format!(in alloc; "{:?}", b)?;
    Ok(first == second)
}
