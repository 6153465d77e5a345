//! Clusters, scripts and messages of worked runs.

ghost use Rattle.std.specs.Prelude.{◌≡◌, ◌≤◌, ◌∷◌, [], IfOk, IsTrue};
ghost use Rattle.score_base.specs.Keys.{is_key};

use grid_model::{Event, Message, Prepare, ReadRep, ReadReq};
use placement::{Cluster, Places};
use score_base::{
    Ballot, Cause, Date, Ident, Key, KeyList, Memory, NodeId, NodeList, Outcome, TxId, Value,
    WriteList, push,
};
use script_lang::{Script, read_script};
use std::alloc::Global;
use std::test::Fail;

/// Identifiers are below this.
const SMALL: u64 = 1 << 22;

fn node(number: u8) -> NodeId
    requires least { 1 ≤ number }
    requires most { number ≤ 16 }
    ensures { result ≡ number }
{
    NodeId { number }
}

fn tx(number: u16) -> TxId
    requires { 1 ≤ number }
    ensures { result ≡ number }
{
    TxId { number }
}

fn key(bytes: &[u8]) -> Key
    requires { IsTrue (is_key bytes.now) }
    ensures { result ≡ bytes.now }
{
    Key::new(bytes).unwrap()
}

pub(crate) fn n1() -> NodeId
    ensures { result ≡ 1 }
{
    node(1)
}

pub(crate) fn n2() -> NodeId
    ensures { result ≡ 2 }
{
    node(2)
}

fn n3() -> NodeId
    ensures { result ≡ 3 }
{
    node(3)
}

pub(crate) fn t1() -> TxId {
    tx(1)
}

fn t2() -> TxId {
    tx(2)
}

fn a() -> Key {
    key(b"a")
}

fn b() -> Key {
    key(b"b")
}

fn one(alloc: Global, n: NodeId) -> Result<NodeList, Memory>
    ensures { IfOk result (λ ns. ns ≡ n ∷ []) }
{
    let mut nodes = NodeList::new(alloc);
    nodes.push(n)?;
    Ok(nodes)
}

fn two(alloc: Global, n: NodeId, m: NodeId) -> Result<NodeList, Memory> {
    let mut nodes = NodeList::new(alloc);
    nodes.push(n)?;
    nodes.push(m)?;
    Ok(nodes)
}

fn alone_places(alloc: Global) -> Result<Places, Memory>
    ensures { IfOk result (λ p. p ≡ (1 ∷ []) ∷ []) }
{
    let mut partitions = Vec::new(alloc);
    push(&mut partitions, one(alloc, n1())?)?;
    Ok(Places::new(partitions))
}

/// One node with every key; a begins with 10.
pub(crate) fn alone(alloc: Global) -> Result<Cluster, Memory> {
    let mut inits = WriteList::new(alloc);
    inits.push((a(), Value(10)))?;
    Ok(Cluster {
        nodes: 1,
        places: alone_places(alloc)?,
        inits,
    })
}

/// Sixteen nodes, of which n1 has every key.
pub(crate) fn crowd(alloc: Global) -> Result<Cluster, Memory> {
    Ok(Cluster {
        nodes: 16,
        places: alone_places(alloc)?,
        inits: WriteList::new(alloc),
    })
}

fn apart_places(alloc: Global) -> Result<Places, Memory>
    ensures { IfOk result (λ p. p ≡ (1 ∷ []) ∷ (2 ∷ []) ∷ []) }
{
    let mut partitions = Vec::new(alloc);
    push(&mut partitions, one(alloc, n1())?)?;
    push(&mut partitions, one(alloc, n2())?)?;
    Ok(Places::new(partitions))
}

/// Two nodes: key b is on n1, and keys a and c on n2.
pub(crate) fn apart(alloc: Global) -> Result<Cluster, Memory> {
    Ok(Cluster {
        nodes: 2,
        places: apart_places(alloc)?,
        inits: WriteList::new(alloc),
    })
}

fn script(alloc: Global, text: &[u8]) -> Result<Script, Fail> {
    match read_script(alloc, text, 3) {
        Ok(script) => Ok(script),
        Err(_) => Err(Fail::new("no script")),
    }
}

/// The script of this text begins, and its session has this floor.
pub(crate) fn begin(alloc: Global, text: &[u8], floor: u64) -> Result<Event, Fail> {
    Ok(Event::Begin(script(alloc, text)?, Ident(floor)))
}

/// n2 replies to transaction 1 at this operation and identifier.
pub(crate) fn reply(op: u8, sid: u64) -> Event {
    let q = ReadRep {
        t: t1(),
        op,
        sid: Ident(sid),
        value: Value(10),
    };
    Event::Deliver(n2(), Message::ReadRep(q))
}

/// n2 asks for this key at this operation and identifier.
fn request(op: u8, sid: u64, key: Key) -> Event {
    let q = ReadReq {
        t: t2(),
        op,
        key,
        date: Date::At(Ident(sid)),
    };
    Event::Deliver(n2(), Message::ReadReq(q))
}

/// n2 asks for b at this identifier.
pub(crate) fn asks_for_b(sid: u64) -> Event {
    request(1, sid, b())
}

/// This node votes on transaction 1.
fn vote(from: NodeId, ballot: Ballot) -> Event {
    Event::Deliver(from, Message::Vote { t: t1(), ballot })
}

/// n2 tells how transaction 1 ended.
pub(crate) fn tell(outcome: Outcome) -> Event {
    Event::Deliver(n2(), Message::Tell { t: t1(), outcome })
}

fn keys(alloc: Global, read: &[Key]) -> Result<KeyList, Memory> {
    let mut list = KeyList::new(alloc);
    for key in read {
        list.push(*key)?;
    }
    Ok(list)
}

/// A Prepare of t from n1, with these parts, of a transaction that writes nothing.
fn prepare(
    alloc: Global,
    t: TxId,
    sid: u64,
    parts: NodeList,
    reads: &[Key],
) -> Result<Event, Fail> {
    let q = Prepare {
        t,
        sid: Ident(sid),
        parts,
        reads: keys(alloc, reads)?,
        writes: WriteList::new(alloc),
    };
    Ok(Event::Deliver(n1(), Message::Prepare(q)))
}

/// n1 asks itself to prepare transaction 1, which writes 11 to b.
pub(crate) fn prepare_first(alloc: Global) -> Result<Event, Fail> {
    let mut writes = WriteList::new(alloc);
    writes.push((b(), Value(11)))?;
    let q = Prepare {
        t: t1(),
        sid: Ident(0),
        parts: two(alloc, n1(), n2())?,
        reads: KeyList::new(alloc),
        writes,
    };
    Ok(Event::Deliver(n1(), Message::Prepare(q)))
}

/// What comes at n1 behind that of transaction 1, which commits at 1.
pub(crate) fn rest(i: u64) -> Result<Event, Fail> {
    let t = t1();
    match i {
        0 => Ok(vote(n1(), Ballot::Yes(Ident(1)))),
        1 => Ok(vote(n2(), Ballot::Yes(Ident(1)))),
        2 => Ok(tell(Outcome::Commit(Ident(1)))),
        3 => Ok(Event::Deliver(n1(), Message::Ack { t })),
        4 => Ok(Event::Deliver(n2(), Message::Ack { t })),
        _ => Err(Fail::new("no such message")),
    }
}

/// Messages each of which breaks just one rule where transaction 1 is collecting at n1, with the parts n1 and
/// n2, and pending there with the proposal 1.
pub(crate) fn unfit(alloc: Global, i: u64) -> Result<Event, Fail> {
    match i {
        0 => Ok(request(1, SMALL, b())),
        1 => Ok(request(0, 0, b())),
        2 => Ok(request(33, 0, b())),
        3 => Ok(request(1, 0, a())),
        4 => Ok(reply(1, SMALL)),
        5 => prepare(alloc, t2(), SMALL, one(alloc, n1())?, &[b()]),
        6 => prepare(alloc, t2(), 0, NodeList::new(alloc), &[b()]),
        7 => prepare(alloc, t2(), 0, two(alloc, n2(), n1())?, &[b()]),
        8 => prepare(alloc, t2(), 0, one(alloc, n2())?, &[b()]),
        9 => prepare(alloc, t2(), 0, one(alloc, n1())?, &[]),
        10 => prepare(alloc, t2(), 0, one(alloc, n1())?, &[a()]),
        11 => prepare(alloc, t2(), 0, one(alloc, n1())?, &[b(), b()]),
        _ => unfit_end(i),
    }
}

fn unfit_end(i: u64) -> Result<Event, Fail> {
    match i {
        12 => Ok(vote(n2(), Ballot::Yes(Ident(0)))),
        13 => Ok(vote(n2(), Ballot::Yes(Ident(SMALL)))),
        14 => Ok(vote(n2(), Ballot::No(Cause::Newer(b(), Ident(SMALL))))),
        15 => Ok(vote(n3(), Ballot::Yes(Ident(1)))),
        16 => Ok(tell(Outcome::Commit(Ident(SMALL)))),
        17 => Ok(tell(Outcome::Commit(Ident(0)))),
        18 => Ok(Event::Deliver(n3(), Message::Ack { t: t1() })),
        19 => Ok(Event::AskPeer(t2(), n2())),
        20 => Ok(Event::AskPeer(t1(), n3())),
        21 => Ok(Event::Ask(t2())),
        22 => Ok(Event::Retry(t2())),
        _ => Err(Fail::new("no such message")),
    }
}

/// Begins that are not fit there: of another home, of a number at the desk, with a floor that is not small.
pub(crate) fn unfit_begin(alloc: Global, i: u64) -> Result<Event, Fail> {
    match i {
        0 => begin(alloc, b"tx 3 n2\nread b\nend\n", 0),
        1 => begin(alloc, b"tx 1 n1\nread b\nend\n", 0),
        2 => begin(alloc, b"tx 3 n1\nread b\nend\n", SMALL),
        _ => Err(Fail::new("no such begin")),
    }
}

/// Messages that are heard there.
pub(crate) fn fit(alloc: Global, i: u64) -> Result<Event, Fail> {
    match i {
        0 => Ok(asks_for_b(0)),
        1 => prepare(alloc, t2(), 0, one(alloc, n1())?, &[b()]),
        2 => Ok(vote(n2(), Ballot::No(Cause::Holder(t2())))),
        3 => Ok(tell(Outcome::Commit(Ident(1)))),
        4 => Ok(Event::AskPeer(t1(), n2())),
        5 => Ok(Event::Ask(t1())),
        6 => Ok(Event::Retry(t1())),
        7 => begin(alloc, b"tx 3 n1\nread b\nend\n", 0),
        _ => Err(Fail::new("no such message")),
    }
}
