//! Stores of worked journals: what they answer, and where a record does not fit.
ghost use Rattle.std.specs.Prelude.{◌≡◌, ◌≤◌, ◌<◌, ◌∷◌, [], length, codes, IfOk, IsTrue};
ghost use Rattle.score_base.specs.Keys.{is_key};
ghost use Rattle.version_chain.specs.Kept.{AreTwoLookups};
ghost use Rattle.grid_store.specs.Given.{keys_written, times_written};

use super::*;
use placement::{Cluster, Places};
use score_base::{
    Ident, Key, KeyList, Memory, NodeId, NodeList, Outcome, Record, Steps, TryCopy, TxId, Value,
    WriteList, push,
};
use std::alloc::Global;
use std::marker::Brand;
use std::sync::ledger::{Blank, Ledger};
use std::test::Fail;

fn node(number: u8) -> NodeId
    requires least { 1 ≤ number }
    requires most { number ≤ 16 }
    ensures { result ≡ number }
{
    NodeId { number }
}

fn tx(number: u16) -> TxId
    requires { 1 ≤ number }
    ensures { result ≡ number }
{
    TxId { number }
}

fn key(bytes: &[u8]) -> Key
    requires { IsTrue (is_key bytes.now) }
    ensures { result ≡ bytes.now }
{
    Key::new(bytes).unwrap()
}

fn places(alloc: Global) -> Result<Places, Memory>
    ensures { IfOk result (λ p. p ≡ (1 ∷ []) ∷ (2 ∷ []) ∷ []) }
{
    let mut first = NodeList::new(alloc);
    first.push(node(1))?;
    let mut second = NodeList::new(alloc);
    second.push(node(2))?;
    let mut partitions = Vec::new(alloc);
    push(&mut partitions, first)?;
    push(&mut partitions, second)?;
    Ok(Places::new(partitions))
}

/// Two nodes: `b` is on n1, and `a`, with the value 10, and `c` are on n2.
fn cluster(alloc: Global) -> Result<Cluster, Memory> {
    let mut inits = WriteList::new(alloc);
    inits.push((key(b"a"), Value(10)))?;
    Ok(Cluster {
        nodes: 2,
        places: places(alloc)?,
        inits,
    })
}

/// The Prepared record of a transaction of n1 with one part, its snapshot and its proposal.
fn prepared_of(
    alloc: Global,
    part: NodeId,
    t: TxId,
    idents: (u64, u64),
    reads: &[Key],
    writes: &[(Key, Value)],
) -> Result<Record, Memory> {
    let mut parts = NodeList::new(alloc);
    parts.push(part)?;
    Ok(Record::Prepared {
        t,
        home: node(1),
        parts,
        sid: Ident(idents.0),
        p: Ident(idents.1),
        reads: KeyList::from_vec(Vec::from_slice(alloc, reads)?),
        writes: WriteList::from_vec(Vec::from_slice(alloc, writes)?),
    })
}

/// As [`prepared_of`], at n2.
fn prepared(
    alloc: Global,
    t: TxId,
    idents: (u64, u64),
    reads: &[Key],
    writes: &[(Key, Value)],
) -> Result<Record, Memory> {
    prepared_of(alloc, node(2), t, idents, reads, writes)
}

fn committed(t: TxId, f: u64) -> Record {
    let outcome = Outcome::Commit(Ident(f));
    Record::Ended { t, outcome }
}

fn aborted(t: TxId) -> Record {
    let outcome = Outcome::Abort;
    Record::Ended { t, outcome }
}

/// t1 reads `a` and writes `c`, and proposes 1.
fn first_vote(alloc: Global) -> Result<Record, Memory> {
    prepared(
        alloc,
        tx(1),
        (0, 1),
        &[key(b"a")],
        &[(key(b"c"), Value(11))],
    )
}

/// t2 reads `a`, and proposes 2.
fn second_vote(alloc: Global) -> Result<Record, Memory> {
    prepared(alloc, tx(2), (0, 2), &[key(b"a")], &[])
}

/// The records of n2 behind the two votes.
fn two_votes(alloc: Global) -> Result<Vec<Record>, Memory> {
    let mut records = Vec::new(alloc);
    push(&mut records, first_vote(alloc)?)?;
    push(&mut records, second_vote(alloc)?)?;
    Ok(records)
}

/// These records with one more.
fn with(records: Vec<Record>, rec: Record) -> Result<Vec<Record>, Memory> {
    let mut records = records;
    push(&mut records, rec)?;
    Ok(records)
}

/// Then t2 commits at 5, while t1 is pending with the proposal 1.
fn one_commit(alloc: Global) -> Result<Vec<Record>, Memory> {
    with(two_votes(alloc)?, committed(tx(2), 5))
}

/// Then t1 commits at 6.
fn two_commits(alloc: Global) -> Result<Vec<Record>, Memory> {
    with(one_commit(alloc)?, committed(tx(1), 6))
}

/// Then n2 promises reads up to 64.
fn with_ceiling(alloc: Global) -> Result<Vec<Record>, Memory> {
    with(two_commits(alloc)?, Record::Ceiling { c: Ident(64) })
}

/// The store of n2 behind these records.
fn store_of(alloc: Global, records: &[Record]) -> Result<Store, Fail> {
    let cluster = cluster(alloc)?;
    match Store::replay(alloc, &cluster, node(2), records) {
        Ok(store) => Ok(store),
        Err(_) => Err(Fail::new("no store")),
    }
}

/// The transaction that holds `a` against t where t writes it.
fn holder_of_a(store: &Store, t: TxId) -> Option<TxId> {
    store.holder(&[], &[(key(b"a"), Value(1))], t)
}

/// Two are pending.
fn are_pending(store: &Store) -> bool {
    store.pending(tx(1)) == Some(Ident(1))
        && store.pending(tx(2)) == Some(Ident(2))
        && store.pending(tx(3)) == None
        && store.least() == Some(Ident(1))
        && store.home(tx(2)) == Some(node(1))
        && store.home(tx(3)) == None
}

/// Who is pending has its part, and nothing else.
fn has_parts(store: &Store) -> bool {
    store.part(tx(1), node(2)) && !store.part(tx(1), node(1)) && !store.part(tx(3), node(2))
}

/// Nothing is applied: each key has its initial value.
fn are_initial(store: &Store) -> bool {
    store.at(&key(b"a"), Ident(9)) == (Ident(0), Value(10))
        && store.at(&key(b"c"), Ident(9)) == (Ident(0), Value(0))
        && store.newer(&[key(b"a"), key(b"c")], Ident(0)).is_none()
}

/// A key that both read is held against a write alone, and one that t1 writes against a read.
fn are_locked(store: &Store) -> bool {
    store.holder(&[key(b"a")], &[], tx(3)) == None
        && holder_of_a(store, tx(3)) == Some(tx(1))
        && holder_of_a(store, tx(1)) == Some(tx(2))
        && store.holder(&[key(b"c")], &[], tx(2)) == Some(tx(1))
}

fn votes_stand(alloc: Global) -> Result<bool, Fail> {
    let records = two_votes(alloc)?;
    let store = store_of(alloc, records.as_slice())?;
    Ok(are_pending(&store) && are_locked(&store) && has_parts(&store) && are_initial(&store))
}

// What two votes leave: they are pending, and hold their keys.
#[test]
fn locks_of_reads(rt: HostRuntime) -> Result<(), Fail> {
    assert!(rt; votes_stand(rt.alloc())?);
    Ok(())
}

fn is_commit_at(outcome: &Option<Outcome>, f: Ident) -> bool {
    match outcome {
        Some(Outcome::Commit(g)) => *g == f,
        _ => false,
    }
}

/// t2 is committed and holds what it read.
fn is_waiting(store: &Store) -> bool {
    is_commit_at(&store.ended(tx(2)), Ident(5))
        && store.pending(tx(2)) == None
        && store.floor() == Ident(5)
        && store.commit_id() == Ident(0)
        && holder_of_a(store, tx(1)) == Some(tx(2))
}

/// All is applied, and nothing is held.
fn is_over(store: &Store) -> bool {
    is_commit_at(&store.ended(tx(1)), Ident(6))
        && store.least() == None
        && store.next() == Ident(6)
        && store.commit_id() == Ident(6)
        && holder_of_a(store, tx(3)) == None
        && store.holder(&[key(b"c")], &[], tx(3)) == None
}

/// What t1 wrote to `c` is seen from 6 on, and is newer than 5.
fn is_written(store: &Store) -> bool {
    let newer = match store.newer(&[key(b"a"), key(b"c")], Ident(5)) {
        Some(found) => found.0 == key(b"c") && found.1 == Ident(6),
        None => false,
    };
    newer
        && store.at(&key(b"c"), Ident(5)) == (Ident(0), Value(0))
        && store.at(&key(b"c"), Ident(6)) == (Ident(6), Value(11))
        && store.newer(&[key(b"c")], Ident(6)).is_none()
        && !store.part(tx(1), node(2))
}

fn commit_waits(alloc: Global) -> Result<bool, Fail> {
    let records = one_commit(alloc)?;
    let store = store_of(alloc, records.as_slice())?;
    Ok(is_waiting(&store) && are_initial(&store))
}

fn commits_are_over(alloc: Global) -> Result<bool, Fail> {
    let records = two_commits(alloc)?;
    let store = store_of(alloc, records.as_slice())?;
    Ok(is_over(&store) && is_written(&store))
}

// A commit keeps its keys until every pending proposal is above its final identifier.
#[test]
fn lock_until_applied(rt: HostRuntime) -> Result<(), Fail> {
    assert!(rt; commit_waits(rt.alloc())?);
    assert!(rt; commits_are_over(rt.alloc())?);
    Ok(())
}

/// Floor and clock stand at the ceiling, and a read raises the clock alone.
fn is_promised(store: &mut Store) -> bool {
    store.floor() == Ident(64)
        && store.next() == Ident(64)
        && store.raise(Ident(70))
        && !store.raise(Ident(65))
        && store.next() == Ident(70)
        && store.floor() == Ident(64)
}

fn ceiling_stands(alloc: Global) -> Result<bool, Fail> {
    let records = with_ceiling(alloc)?;
    let mut store = store_of(alloc, records.as_slice())?;
    Ok(is_promised(&mut store))
}

// A ceiling is part of the floor, and so a clock that starts anew stands there.
#[test]
fn ceiling_after_crash(rt: HostRuntime) -> Result<(), Fail> {
    assert!(rt; ceiling_stands(rt.alloc())?);
    Ok(())
}

/// Whether this record is the first that does not fit, behind these.
fn is_strange_behind(alloc: Global, before: Vec<Record>, last: Record) -> Result<bool, Fail> {
    let cluster = cluster(alloc)?;
    let place = before.len();
    let records = with(before, last)?;
    match Store::replay(alloc, &cluster, node(2), records.as_slice()) {
        Err(ReplayEnd::Strange(i)) => Ok(i == place),
        _ => Ok(false),
    }
}

/// Behind the two commits.
fn is_strange(alloc: Global, last: Record) -> Result<bool, Fail> {
    is_strange_behind(alloc, two_commits(alloc)?, last)
}

/// A Prepared of t3 behind the two commits.
fn is_strange_vote(
    alloc: Global,
    idents: (u64, u64),
    reads: &[Key],
    writes: &[(Key, Value)],
) -> Result<bool, Fail> {
    is_strange(alloc, prepared(alloc, tx(3), idents, reads, writes)?)
}

// A Prepared: what fits; a proposal at its snapshot, and one at a final identifier.
#[test]
fn votes_with_numbers_that_do_not_fit(rt: HostRuntime) -> Result<(), Fail> {
    let a = key(b"a");
    let c = key(b"c");
    assert!(rt; !is_strange_vote(rt.alloc(), (6, 7), &[a, c], &[(a, Value(1))])?);
    assert!(rt; is_strange_vote(rt.alloc(), (7, 7), &[a], &[])?);
    assert!(rt; is_strange_vote(rt.alloc(), (5, 6), &[a], &[])?);
    Ok(())
}

// A Prepared: no key; a key twice in a list, read or written; a key of another node, read or written.
#[test]
fn votes_with_keys_that_do_not_fit(rt: HostRuntime) -> Result<(), Fail> {
    let a = key(b"a");
    let b = key(b"b");
    assert!(rt; is_strange_vote(rt.alloc(), (6, 7), &[], &[])?);
    assert!(rt; is_strange_vote(rt.alloc(), (6, 7), &[a, a], &[])?);
    assert!(rt; is_strange_vote(rt.alloc(), (6, 7), &[], &[(a, Value(1)), (a, Value(2))])?);
    assert!(rt; is_strange_vote(rt.alloc(), (6, 7), &[b], &[])?);
    assert!(rt; is_strange_vote(rt.alloc(), (6, 7), &[], &[(b, Value(1))])?);
    assert!(rt; is_strange_vote(rt.alloc(), (5, 7), &[key(b"c")], &[])?);
    Ok(())
}

/// A Prepared of t1 again.
fn voted_twice(alloc: Global) -> Result<bool, Fail> {
    is_strange(alloc, prepared(alloc, tx(1), (6, 7), &[key(b"a")], &[])?)
}

/// A Prepared of which n2 is no part.
fn voted_elsewhere(alloc: Global) -> Result<bool, Fail> {
    is_strange(
        alloc,
        prepared_of(alloc, node(1), tx(3), (6, 7), &[key(b"a")], &[])?,
    )
}

/// A proposal that a pending transaction has.
fn voted_alike(alloc: Global) -> Result<bool, Fail> {
    is_strange_behind(
        alloc,
        two_votes(alloc)?,
        prepared(alloc, tx(3), (1, 2), &[key(b"a")], &[])?,
    )
}

/// A write of a key that a pending transaction read.
fn voted_against(alloc: Global) -> Result<bool, Fail> {
    is_strange_behind(
        alloc,
        two_votes(alloc)?,
        prepared(alloc, tx(3), (2, 3), &[], &[(key(b"a"), Value(1))])?,
    )
}

// A Prepared: of who voted; where this node is no part; a proposal of another; a held key.
#[test]
fn votes_beside_others_that_do_not_fit(rt: HostRuntime) -> Result<(), Fail> {
    assert!(rt; voted_twice(rt.alloc())?);
    assert!(rt; voted_elsewhere(rt.alloc())?);
    assert!(rt; voted_alike(rt.alloc())?);
    assert!(rt; voted_against(rt.alloc())?);
    Ok(())
}

/// A commit below its proposal.
fn committed_low(alloc: Global) -> Result<bool, Fail> {
    is_strange_behind(alloc, two_votes(alloc)?, committed(tx(2), 1))
}

// An Ended of who ended, or never voted, and a commit below its proposal; a ceiling that is no
// multiple of 64, and one at the floor.
#[test]
fn ends_and_ceilings_that_do_not_fit(rt: HostRuntime) -> Result<(), Fail> {
    assert!(rt; is_strange(rt.alloc(), committed(tx(1), 6))?);
    assert!(rt; is_strange(rt.alloc(), aborted(tx(3)))?);
    assert!(rt; committed_low(rt.alloc())?);
    assert!(rt; is_strange(rt.alloc(), Record::Ceiling { c: Ident(65) })?);
    assert!(rt;
        is_strange_behind(
            rt.alloc(),
            with_ceiling(rt.alloc())?,
            Record::Ceiling { c: Ident(64) }
        )?
    );
    assert!(rt; !is_strange(rt.alloc(), Record::Ceiling { c: Ident(64) })?);
    Ok(())
}

/// t1 decided, at this identifier.
fn decided(alloc: Global, f: u64) -> Result<Record, Memory> {
    let mut parts = NodeList::new(alloc);
    parts.push(node(2))?;
    Ok(Record::Decided {
        t: tx(1),
        f: Ident(f),
        parts,
    })
}

fn one_decision(alloc: Global) -> Result<Vec<Record>, Memory> {
    with(Vec::new(alloc), decided(alloc, 6)?)
}

fn one_closed(alloc: Global) -> Result<Vec<Record>, Memory> {
    with(one_decision(alloc)?, Record::Closed { t: tx(1) })
}

// A Decided at 0, and one of who is decided; a Closed of who is not, and of who is closed. Who is
// closed may be decided again.
#[test]
fn decisions_that_do_not_fit(rt: HostRuntime) -> Result<(), Fail> {
    let closed = Record::Closed { t: tx(1) };
    assert!(rt; is_strange_behind(rt.alloc(), Vec::new(rt.alloc()), decided(rt.alloc(), 0)?)?);
    assert!(rt;
        is_strange_behind(
            rt.alloc(),
            one_decision(rt.alloc())?,
            decided(rt.alloc(), 7)?
        )?
    );
    assert!(rt; is_strange(rt.alloc(), Record::Closed { t: tx(1) })?);
    assert!(rt; is_strange_behind(rt.alloc(), one_closed(rt.alloc())?, closed)?);
    assert!(rt; !is_strange_behind(rt.alloc(), one_closed(rt.alloc())?, decided(rt.alloc(), 7)?)?);
    Ok(())
}

/// What a key is at `sid`, by a counter that stands at 0: so many comparisons as a look-up among the keys
/// that the records write, and one among the versions of this key.
fn read_counted<L: Ledger>(
    store: &Store,
    key: &Key,
    sid: Ident,
    steps: &mut Steps<L>,
) -> (Ident, Value)
    requires { steps.old ≡ 0 }
    ensures { AreTwoLookups (length (keys_written store.now.journal))
        (times_written store.now.journal key.now) steps.new }
{
    store.at_counted(key, sid, steps)
}

/// The read, by a counter that is opened here.
fn read_alone<L: Ledger>(store: &Store, key: &Key, sid: Ident, blank: Blank) -> (Ident, Value)
    requires { (blank.name ≡ L.name) × (blank.parts ≡ L.parts) × (0 < L.parts) }
{
    let (book, share) = blank.open::<L>();
    let mut steps = Steps::new(book, share);
    read_counted(store, key, sid, &mut steps)
}

/// The read, counted.
fn counted_read(store: &Store, key: &Key, sid: Ident) -> (Ident, Value) {
    read_alone::<Brand>(store, key, sid, Blank::new(1))
}

/// Behind the two commits: a key that is written, and one that is only read.
fn counted_reads(alloc: Global) -> Result<bool, Fail> {
    let records = two_commits(alloc)?;
    let store = store_of(alloc, records.as_slice())?;
    Ok(
        counted_read(&store, &key(b"c"), Ident(6)) == (Ident(6), Value(11))
            && counted_read(&store, &key(b"c"), Ident(5)) == (Ident(0), Value(0))
            && counted_read(&store, &key(b"a"), Ident(9)) == (Ident(0), Value(10)),
    )
}

// Reads by a counter answer as others do.
#[test]
fn counted_reads_of_two_keys(rt: HostRuntime) -> Result<(), Fail> {
    assert!(rt; counted_reads(rt.alloc())?);
    Ok(())
}
