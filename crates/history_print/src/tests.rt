//! The line of each kind of act, and the texts of worked runs.
ghost use Rattle.std.specs.Prelude.{◌≡◌, ◌≤◌, ◌∷◌, [], codes, IfOk};

use crate::{write_act, write_history, write_summary};
use grid_model::{
    Act, Document, Flag, Head, ItemList, Message, Out, Prepare, ReadRep, ReadReq, ScriptList,
};
use placement::{Cluster, Places};
use score_base::{
    Ballot, Cause, Date, Ident, Key, KeyList, Memory, NodeId, NodeList, Outcome, TryCopy, TxId,
    Value, WriteList,
};
use script_lang::{Op, Script, ScriptDraft};
use std::alloc::Global;
use std::process::Abort;
use std::test::Fail;

fn node(number: u8) -> NodeId
    requires least { 1 ≤ number }
    requires most { number ≤ 16 }
    ensures { result ≡ number }
{
    NodeId { number }
}

fn tx(number: u16) -> TxId
    requires { 1 ≤ number }
    ensures { result ≡ number }
{
    TxId { number }
}

fn key(bytes: &[u8]) -> Result<Key, Memory>
    ensures { IfOk result (λ k. k ≡ bytes.now) }
{
    match Key::new(bytes) {
        Some(key) => Ok(key),
        None => Err(Memory),
    }
}

fn shows(rt: &impl Abort, alloc: Global, act: Act, line: &str) {
    let mut out = Vec::new(alloc);
    assert!(rt; write_act(&act, &mut out).is_ok());
    assert_eq!(rt; out.as_slice(), line.as_bytes());
}

/// A message that was copied has this line where it is sent.
fn says(rt: &impl Abort, alloc: Global, message: Message, line: &str) {
    match message.copy() {
        Ok(copy) => shows(rt, alloc, Act::Sent(3, node(2), node(1), copy), line),
        Err(_) => assert!(rt; false),
    }
}

/// Whether the copy of an out is that out.
fn is_copied() -> bool {
    match Out::Act(Act::Got(11)).copy() {
        Ok(out) => match &out {
            Out::Act(act) => matches!(act, Act::Got(11)),
            Out::Send(_, _) => false,
        },
        Err(_) => false,
    }
}

#[test]
fn copies(rt: HostRuntime) {
    assert!(rt; is_copied());
}

#[test]
fn acts_of_the_network(rt: HostRuntime) -> Result<(), Fail> {
    let alloc = rt.alloc();
    shows(&rt, alloc, Act::Got(11), "got 11\n");
    shows(&rt, alloc, Act::Missed(4294967295), "missed 4294967295\n");
    shows(&rt, alloc, Act::Dropped(1), "dropped 1\n");
    shows(&rt, alloc, Act::Void(3), "void 3\n");
    shows(&rt, alloc, Act::Armed(node(2), 7, 0), "armed n2 7 0\n");
    shows(&rt, alloc, Act::StillDown(node(16)), "stilldown n16\n");
    Ok(())
}

#[test]
fn acts_of_reads(rt: HostRuntime) -> Result<(), Fail> {
    let alloc = rt.alloc();
    let a = key(b"a")?;
    shows(
        &rt,
        alloc,
        Act::Began(tx(2), node(1), Ident(1)),
        "began 2 n1 1\n",
    );
    shows(
        &rt,
        alloc,
        Act::Raised(node(2), Ident(64)),
        "raised n2 64\n",
    );
    shows(
        &rt,
        alloc,
        Act::Served(node(2), tx(1), 1, a, Ident(0), Ident(0), Value(10)),
        "served n2 1 1 a 0 0 10\n",
    );
    shows(
        &rt,
        alloc,
        Act::Held(node(2), tx(3), 1, Ident(1)),
        "held n2 3 1 1\n",
    );
    shows(
        &rt,
        alloc,
        Act::Taken(tx(1), 1, Ident(0), Value(10)),
        "taken 1 1 0 10\n",
    );
    shows(&rt, alloc, Act::Own(tx(1), 3, Value(5)), "own 1 3 5\n");
    shows(
        &rt,
        alloc,
        Act::Ceiling(node(2), Ident(64)),
        "ceiling n2 64\n",
    );
    Ok(())
}

#[test]
fn acts_of_votes(rt: HostRuntime) -> Result<(), Fail> {
    let alloc = rt.alloc();
    let a = key(b"a")?;
    shows(
        &rt,
        alloc,
        Act::Prepared(node(2), tx(1), Ident(1)),
        "prepared n2 1 1\n",
    );
    shows(
        &rt,
        alloc,
        Act::Refused(node(2), tx(2), Cause::Holder(tx(1))),
        "refused n2 2 holder 1\n",
    );
    shows(
        &rt,
        alloc,
        Act::Refused(node(2), tx(1), Cause::Newer(a, Ident(1))),
        "refused n2 1 newer a 1\n",
    );
    shows(&rt, alloc, Act::Decided(tx(2), Ident(2)), "decided 2 2\n");
    shows(
        &rt,
        alloc,
        Act::Aborted(tx(2), node(2), Cause::Holder(tx(1))),
        "aborted 2 n2 holder 1\n",
    );
    shows(
        &rt,
        alloc,
        Act::Aborted(tx(1), node(2), Cause::Newer(a, Ident(1))),
        "aborted 1 n2 newer a 1\n",
    );
    Ok(())
}

#[test]
fn acts_of_ends(rt: HostRuntime) -> Result<(), Fail> {
    let alloc = rt.alloc();
    shows(
        &rt,
        alloc,
        Act::Ended(node(2), tx(1), Outcome::Commit(Ident(1))),
        "ended n2 1 commit 1\n",
    );
    shows(
        &rt,
        alloc,
        Act::Ended(node(1), tx(1), Outcome::Abort),
        "ended n1 1 abort\n",
    );
    shows(&rt, alloc, Act::Finished(tx(1)), "finished 1\n");
    shows(&rt, alloc, Act::Closed(tx(65535)), "closed 65535\n");
    shows(&rt, alloc, Act::Lost(tx(1)), "lost 1\n");
    shows(
        &rt,
        alloc,
        Act::Up(node(1), Flag::Untouched),
        "up n1 none\n",
    );
    shows(&rt, alloc, Act::Up(node(1), Flag::Kept), "up n1 kept\n");
    shows(&rt, alloc, Act::Up(node(2), Flag::Gone), "up n2 gone\n");
    Ok(())
}

fn stops(rt: &impl Abort, alloc: Global, head: Head, line: &str) {
    shows(rt, alloc, Act::Down(node(2), Some(head)), line);
}

#[test]
fn acts_of_stops(rt: HostRuntime) -> Result<(), Fail> {
    let alloc = rt.alloc();
    shows(&rt, alloc, Act::Down(node(2), None), "down n2 none\n");
    stops(
        &rt,
        alloc,
        Head::Prepared(tx(1), Ident(2)),
        "down n2 prepared 1 2\n",
    );
    stops(
        &rt,
        alloc,
        Head::Ended(tx(1), Outcome::Commit(Ident(1))),
        "down n2 ended 1 commit 1\n",
    );
    stops(
        &rt,
        alloc,
        Head::Ended(tx(1), Outcome::Abort),
        "down n2 ended 1 abort\n",
    );
    stops(&rt, alloc, Head::Ceiling(Ident(64)), "down n2 ceiling 64\n");
    stops(
        &rt,
        alloc,
        Head::Decided(tx(1), Ident(3)),
        "down n2 decided 1 3\n",
    );
    stops(&rt, alloc, Head::Closed(tx(1)), "down n2 closed 1\n");
    stops(&rt, alloc, Head::Compact, "down n2 compact\n");
    shows(&rt, alloc, Act::Compacted(node(2)), "compacted n2\n");
    Ok(())
}

fn request(t: TxId, op: u8, key: Key, date: Date) -> Message {
    Message::ReadReq(ReadReq { t, op, key, date })
}

fn reply(t: TxId, op: u8, sid: Ident, value: Value) -> Message {
    Message::ReadRep(ReadRep { t, op, sid, value })
}

fn vote(t: TxId, ballot: Ballot) -> Message {
    Message::Vote { t, ballot }
}

#[test]
fn messages_of_reads_and_votes(rt: HostRuntime) -> Result<(), Fail> {
    let alloc = rt.alloc();
    let a = key(b"a")?;
    says(
        &rt,
        alloc,
        request(tx(1), 1, a, Date::First(Ident(0))),
        "sent 3 n2 n1 readreq 1 1 a first 0\n",
    );
    says(
        &rt,
        alloc,
        request(tx(1), 2, a, Date::At(Ident(1))),
        "sent 3 n2 n1 readreq 1 2 a at 1\n",
    );
    says(
        &rt,
        alloc,
        reply(tx(1), 1, Ident(0), Value(10)),
        "sent 3 n2 n1 readrep 1 1 0 10\n",
    );
    says(
        &rt,
        alloc,
        vote(tx(1), Ballot::Yes(Ident(1))),
        "sent 3 n2 n1 vote 1 yes 1\n",
    );
    says(
        &rt,
        alloc,
        vote(tx(2), Ballot::No(Cause::Holder(tx(1)))),
        "sent 3 n2 n1 vote 2 no holder 1\n",
    );
    says(
        &rt,
        alloc,
        vote(tx(1), Ballot::No(Cause::Newer(a, Ident(1)))),
        "sent 3 n2 n1 vote 1 no newer a 1\n",
    );
    Ok(())
}

#[test]
fn messages_of_ends(rt: HostRuntime) -> Result<(), Fail> {
    let alloc = rt.alloc();
    let t = tx(1);
    says(
        &rt,
        alloc,
        Message::Tell {
            t,
            outcome: Outcome::Commit(Ident(1)),
        },
        "sent 3 n2 n1 tell 1 commit 1\n",
    );
    says(
        &rt,
        alloc,
        Message::Tell {
            t,
            outcome: Outcome::Abort,
        },
        "sent 3 n2 n1 tell 1 abort\n",
    );
    says(&rt, alloc, Message::Ack { t }, "sent 3 n2 n1 ack 1\n");
    says(&rt, alloc, Message::Ask { t }, "sent 3 n2 n1 ask 1\n");
    says(
        &rt,
        alloc,
        Message::AskPeer { t },
        "sent 3 n2 n1 askpeer 1\n",
    );
    Ok(())
}

fn prepare(alloc: Global, reads: KeyList, writes: WriteList) -> Result<Message, Memory> {
    let mut parts = NodeList::new(alloc);
    parts.push(node(1))?;
    parts.push(node(2))?;
    Ok(Message::Prepare(Prepare {
        t: tx(1),
        sid: Ident(0),
        parts,
        reads,
        writes,
    }))
}

#[test]
fn message_prepare(rt: HostRuntime) -> Result<(), Fail> {
    let alloc = rt.alloc();
    let mut writes = WriteList::new(alloc);
    writes.push((key(b"b")?, Value(11)))?;
    let message = prepare(alloc, KeyList::new(alloc), writes)?;
    says(
        &rt,
        alloc,
        message,
        "sent 3 n2 n1 prepare 1 0 parts 2 n1 n2 reads 0 writes 1 b 11\n",
    );
    let mut reads = KeyList::new(alloc);
    reads.push(key(b"a")?)?;
    let message = prepare(alloc, reads, WriteList::new(alloc))?;
    says(
        &rt,
        alloc,
        message,
        "sent 3 n2 n1 prepare 1 0 parts 2 n1 n2 reads 1 a writes 0\n",
    );
    Ok(())
}

fn places(alloc: Global) -> Result<Places, Memory>
    ensures { IfOk result (λ p. p ≡ (1 ∷ []) ∷ (2 ∷ []) ∷ []) }
{
    let mut first = NodeList::new(alloc);
    first.push(node(1))?;
    let mut second = NodeList::new(alloc);
    second.push(node(2))?;
    let mut partitions = Vec::new(alloc);
    partitions.push(first)?;
    partitions.push(second)?;
    Ok(Places::new(partitions))
}

fn cluster(alloc: Global) -> Result<Cluster, Memory>
    ensures { IfOk result (λ c. c
        ≡ record { nodes = 2; places = (1 ∷ []) ∷ (2 ∷ []) ∷ []; inits = (codes "a", 10) ∷ (codes "b", 0) ∷ [] }) }
{
    let mut inits = WriteList::new(alloc);
    inits.push((key(b"a")?, Value(10)))?;
    inits.push((key(b"b")?, Value(0)))?;
    Ok(Cluster {
        nodes: 2,
        places: places(alloc)?,
        inits,
    })
}

/// A transaction of n1 that reads `a`.
fn reader(alloc: Global, number: TxId) -> Result<Script, Memory>
    ensures { IfOk result (λ s. s ≡ record { number = number; home = 1; session = 0; ops = Op.Read (codes "a") ∷ [] }) }
{
    let mut draft = ScriptDraft::new(alloc, number, node(1), 0);
    draft.push_read(key(b"a")?)?;
    Ok(draft.finish())
}

/// Two nodes, two keys with values, and one transaction.
fn one_reader(alloc: Global) -> Result<Document, Memory> {
    let mut scripts = ScriptList::new(alloc);
    scripts.push(reader(alloc, tx(1))?)?;
    Ok(Document {
        cluster: cluster(alloc)?,
        scripts,
        items: ItemList::new(alloc),
    })
}

/// The same with two transactions, the greater number first.
fn two_readers(alloc: Global) -> Result<Document, Memory> {
    let mut scripts = ScriptList::new(alloc);
    scripts.push(reader(alloc, tx(10))?)?;
    scripts.push(reader(alloc, tx(9))?)?;
    Ok(Document {
        cluster: cluster(alloc)?,
        scripts,
        items: ItemList::new(alloc),
    })
}

/// The acts from the start of two nodes to the end of a read of `a` at n2 by transaction 1 of n1.
fn first_read(alloc: Global) -> Result<Vec<Act>, Memory> {
    let mut acts = Vec::new(alloc);
    acts.push(Act::Up(node(1), Flag::Untouched))?;
    acts.push(Act::Up(node(2), Flag::Untouched))?;
    acts.push(Act::Began(tx(1), node(1), Ident(0)))?;
    let asked = request(tx(1), 1, key(b"a")?, Date::First(Ident(0)));
    acts.push(Act::Sent(1, node(1), node(2), asked))?;
    acts.push(Act::Got(1))?;
    push_reply(&mut acts)?;
    Ok(acts)
}

fn push_reply(acts: &mut Vec<Act>) -> Result<(), Memory> {
    let (t, a) = (tx(1), key(b"a")?);
    acts.push(Act::Served(node(2), t, 1, a, Ident(0), Ident(0), Value(10)))?;
    let answer = reply(t, 1, Ident(0), Value(10));
    acts.push(Act::Sent(2, node(2), node(1), answer))?;
    acts.push(Act::Got(2))?;
    acts.push(Act::Taken(t, 1, Ident(0), Value(10)))?;
    acts.push(Act::Finished(t))?;
    Ok(())
}

#[test]
fn text_of_a_first_read(rt: HostRuntime) -> Result<(), Fail> {
    let alloc = rt.alloc();
    let doc = one_reader(alloc)?.copy()?;
    let acts = first_read(alloc)?;
    let mut out = Vec::new(alloc);
    write_history(&doc, acts.as_slice(), &mut out)?;
    let want = "\
up n1 none
up n2 none
began 1 n1 0
sent 1 n1 n2 readreq 1 1 a first 0
got 1
served n2 1 1 a 0 0 10
sent 2 n2 n1 readrep 1 1 0 10
got 2
taken 1 1 0 10
finished 1
summary
tx 1 read 0
key a n2 10 0
key b n1 0 0
";
    assert_eq!(rt; out.as_slice(), want.as_bytes());
    Ok(())
}

#[test]
fn summary_in_rising_number(rt: HostRuntime) -> Result<(), Fail> {
    let alloc = rt.alloc();
    let doc = two_readers(alloc)?;
    let mut acts = Vec::new(alloc);
    acts.push(Act::Began(tx(10), node(1), Ident(0)))?;
    let mut out = Vec::new(alloc);
    write_summary(&doc, acts.as_slice(), &mut out)?;
    let want = "\
summary
tx 9 unbegun
tx 10 reading 1
key a n2 10 0
key b n1 0 0
";
    assert_eq!(rt; out.as_slice(), want.as_bytes());
    Ok(())
}
