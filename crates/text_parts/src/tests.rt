//! The text of a worked run, written part by part over a sink in memory.
ghost use Rattle.std.specs.Prelude.{◌≡◌, ◌≤◌, ◌∷◌, [], codes, IfOk};

use crate::{PartEnd, write_acts, write_tally};
use grid_model::{Act, Document, Flag, ItemList, Message, ReadRep, ReadReq, ScriptList};
use history_print::write_history;
use placement::{Cluster, Places};
use run_tally::Tally;
use score_base::{Date, Ident, Key, Memory, NodeId, NodeList, TxId, Value, WriteList};
use score_io::MemSink;
use script_lang::{Op, Script, ScriptDraft};
use std::alloc::Global;
use std::test::Fail;

const START: &str = "\
up n1 none
up n2 none
";

const ROWS: &str = "\
up n1 none
up n2 none
began 1 n1 0
sent 1 n1 n2 readreq 1 1 a first 0
got 1
served n2 1 1 a 0 0 10
sent 2 n2 n1 readrep 1 1 0 10
got 2
taken 1 1 0 10
finished 1
";

const TEXT: &str = "\
up n1 none
up n2 none
began 1 n1 0
sent 1 n1 n2 readreq 1 1 a first 0
got 1
served n2 1 1 a 0 0 10
sent 2 n2 n1 readrep 1 1 0 10
got 2
taken 1 1 0 10
finished 1
summary
tx 1 read 0
key a n2 10 0
key b n1 0 0
";

fn node(number: u8) -> NodeId
    requires least { 1 ≤ number }
    requires most { number ≤ 16 }
    ensures { result ≡ number }
{
    NodeId { number }
}

fn key(bytes: &[u8]) -> Result<Key, Memory>
    ensures { IfOk result (λ k. k ≡ bytes.now) }
{
    match Key::new(bytes) {
        Some(key) => Ok(key),
        None => Err(Memory),
    }
}

fn places(alloc: Global) -> Result<Places, Memory>
    ensures { IfOk result (λ p. p ≡ (1 ∷ []) ∷ (2 ∷ []) ∷ []) }
{
    let mut first = NodeList::new(alloc);
    first.push(node(1))?;
    let mut second = NodeList::new(alloc);
    second.push(node(2))?;
    let mut partitions = Vec::new(alloc);
    partitions.push(first)?;
    partitions.push(second)?;
    Ok(Places::new(partitions))
}

fn cluster(alloc: Global) -> Result<Cluster, Memory>
    ensures { IfOk result (λ c. c
        ≡ record { nodes = 2; places = (1 ∷ []) ∷ (2 ∷ []) ∷ []; inits = (codes "a", 10) ∷ (codes "b", 0) ∷ [] }) }
{
    let mut inits = WriteList::new(alloc);
    inits.push((key(b"a")?, Value(10)))?;
    inits.push((key(b"b")?, Value(0)))?;
    Ok(Cluster {
        nodes: 2,
        places: places(alloc)?,
        inits,
    })
}

/// Transaction 1 of n1, which reads `a`.
fn reader(alloc: Global) -> Result<Script, Memory>
    ensures { IfOk result (λ s. s ≡ record { number = 1; home = 1; session = 0; ops = Op.Read (codes "a") ∷ [] }) }
{
    let mut draft = ScriptDraft::new(alloc, TxId { number: 1 }, node(1), 0);
    draft.push_read(key(b"a")?)?;
    Ok(draft.finish())
}

/// Two nodes, two keys with values, and one transaction.
fn document(alloc: Global) -> Result<Document, Memory> {
    let mut scripts = ScriptList::new(alloc);
    scripts.push(reader(alloc)?)?;
    Ok(Document {
        cluster: cluster(alloc)?,
        scripts,
        items: ItemList::new(alloc),
    })
}

fn push_start(acts: &mut Vec<Act>) -> Result<(), Memory> {
    acts.push(Act::Up(node(1), Flag::Untouched))?;
    acts.push(Act::Up(node(2), Flag::Untouched))?;
    Ok(())
}

fn push_begin(acts: &mut Vec<Act>) -> Result<(), Memory> {
    let t = TxId { number: 1 };
    let key = key(b"a")?;
    let date = Date::First(Ident(0));
    let request = Message::ReadReq(ReadReq {
        t,
        op: 1,
        key,
        date,
    });
    acts.push(Act::Began(t, node(1), Ident(0)))?;
    acts.push(Act::Sent(1, node(1), node(2), request))?;
    Ok(())
}

fn push_served(acts: &mut Vec<Act>) -> Result<(), Memory> {
    let t = TxId { number: 1 };
    let (sid, value) = (Ident(0), Value(10));
    let reply = Message::ReadRep(ReadRep {
        t,
        op: 1,
        sid,
        value,
    });
    acts.push(Act::Got(1))?;
    acts.push(Act::Served(node(2), t, 1, key(b"a")?, sid, sid, value))?;
    acts.push(Act::Sent(2, node(2), node(1), reply))?;
    Ok(())
}

fn push_taken(acts: &mut Vec<Act>) -> Result<(), Memory> {
    let t = TxId { number: 1 };
    acts.push(Act::Got(2))?;
    acts.push(Act::Taken(t, 1, Ident(0), Value(10)))?;
    acts.push(Act::Finished(t))?;
    Ok(())
}

/// The rows of a first read: the start, the begin, the request delivered, the reply delivered.
fn push_row(acts: &mut Vec<Act>, row: u8) -> Result<(), Memory> {
    match row {
        0 => push_start(acts),
        1 => push_begin(acts),
        2 => push_served(acts),
        _ => push_taken(acts),
    }
}

fn row(alloc: Global, number: u8) -> Result<Vec<Act>, Memory> {
    let mut acts = Vec::new(alloc);
    push_row(&mut acts, number)?;
    Ok(acts)
}

/// The text of all rows, written at once.
fn whole_text(alloc: Global) -> Result<Vec<u8>, Memory> {
    let doc = document(alloc)?;
    let mut acts = Vec::new(alloc);
    for number in 0..4 {
        push_row(&mut acts, number)?;
    }
    let mut text = Vec::new(alloc);
    write_history(&doc, acts.as_slice(), &mut text)?;
    Ok(text)
}

fn take_all(tally: &mut Tally, doc: &Document, acts: &[Act]) -> Result<(), Memory> {
    for act in acts {
        tally.take(doc, act)?;
    }
    Ok(())
}

/// Takes the acts of a row, and writes its part.
fn write_row(
    alloc: Global,
    doc: &Document,
    number: u8,
    tally: &mut Tally,
    out: &mut MemSink,
) -> Result<(), PartEnd> {
    let Ok(acts) = row(alloc, number) else {
        return Err(PartEnd::Memory);
    };
    if take_all(tally, doc, acts.as_slice()).is_err() {
        return Err(PartEnd::Memory);
    }
    write_acts(alloc, acts.as_slice(), out)
}

fn write_rows(
    alloc: Global,
    doc: &Document,
    tally: &mut Tally,
    out: &mut MemSink,
) -> Result<(), PartEnd> {
    for number in 0..4 {
        write_row(alloc, doc, number, tally, out)?;
    }
    Ok(())
}

/// Writes each part of the text, one after the other.
fn write_parts(alloc: Global, doc: &Document, out: &mut MemSink) -> Result<(), PartEnd> {
    let Ok(mut tally) = Tally::new(alloc, doc) else {
        return Err(PartEnd::Memory);
    };
    write_rows(alloc, doc, &mut tally, out)?;
    write_tally(alloc, doc, &tally, out)
}

/// How the writing ends over a sink whose call of this number fails, and what the sink holds then.
fn written(alloc: Global, fails: u64) -> Result<(Result<(), PartEnd>, Vec<u8>), Memory> {
    let doc = document(alloc)?;
    let mut out = MemSink::new(alloc, [fails].to_vec(alloc)?);
    let end = write_parts(alloc, &doc, &mut out);
    Ok((end, Vec::from_slice(alloc, out.bytes())?))
}

#[test]
fn parts_make_the_text(rt: HostRuntime) -> Result<(), Fail> {
    let (end, bytes) = written(rt.alloc(), 0)?;
    assert!(rt; end == Ok(()));
    assert_eq!(rt; bytes.as_slice(), TEXT.as_bytes());
    assert_eq!(rt; bytes.as_slice(), whole_text(rt.alloc())?.as_slice());
    Ok(())
}

#[test]
fn sink_fails_at_its_second_call(rt: HostRuntime) -> Result<(), Fail> {
    let (end, bytes) = written(rt.alloc(), 2)?;
    assert!(rt; end == Err(PartEnd::WriteFault));
    assert_eq!(rt; bytes.as_slice(), START.as_bytes());
    Ok(())
}

#[test]
fn sink_fails_in_the_summary(rt: HostRuntime) -> Result<(), Fail> {
    let (end, bytes) = written(rt.alloc(), 5)?;
    assert!(rt; end == Err(PartEnd::WriteFault));
    assert_eq!(rt; bytes.as_slice(), ROWS.as_bytes());
    Ok(())
}

#[test]
fn no_acts_make_no_call(rt: HostRuntime) -> Result<(), Fail> {
    let alloc = rt.alloc();
    let mut out = MemSink::new(alloc, [1u64].to_vec(alloc)?);
    assert!(rt; write_acts(alloc, &[], &mut out) == Ok(()));
    assert!(rt; out.bytes().is_empty());
    Ok(())
}
