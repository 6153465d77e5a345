//! What participants answer in worked runs.

use crate::documents::{a, b, c, first_at_n1, first_at_n2, n1, n2, t1, t2, t3, writes_at_n2};
use crate::participants::{Participant, Said, Told, end, hears, says, start};
use grid_store::Store;
use score_base::{Cause, Ident, Key, Outcome, TxId, Value};
use std::alloc::Global;
use std::test::Fail;

/// Whether it answers this where a commit at `f` is told.
fn learns(node: &mut Participant, t: TxId, f: u64, answer: Told) -> Result<bool, Fail> {
    hears(node, t, Outcome::Commit(Ident(f)), answer)
}

/// Whether it settles the commit of t at `f`, and acknowledges it to n1.
fn settles(node: &mut Participant, t: TxId, f: u64) -> Result<bool, Fail> {
    learns(node, t, f, Told::Settled(Some(n1())))
}

/// Whether it answers this where an abort is told.
fn ends(node: &mut Participant, t: TxId, answer: Told) -> Result<bool, Fail> {
    hears(node, t, Outcome::Abort, answer)
}

/// Whether n2 answers this where t writes one key with its number.
fn votes(
    alloc: Global,
    node: &mut Participant,
    t: TxId,
    key: Key,
    answer: Said,
) -> Result<bool, Fail> {
    let prepare = writes_at_n2(alloc, t, key, t.number as u64)?;
    says(alloc, node, n1(), &prepare, answer)
}

fn is_commit_at(outcome: &Option<Outcome>, f: Ident) -> bool {
    match outcome {
        Some(Outcome::Commit(g)) => *g == f,
        _ => false,
    }
}

/// Whether a read of `key` at `sid` finds this version.
fn finds(store: &Store, key: Key, sid: u64, version: (u64, u64)) -> bool {
    let (ident, value) = store.at(&key, Ident(sid));
    ident == Ident(version.0) && value == Value(version.1)
}

/// Whether a read of `key` at 0 is too old, by a version at 1.
fn is_newer(store: &Store, key: Key) -> bool {
    match store.newer(&[key], Ident(0)) {
        Some((found, f)) => found == key && f == Ident(1),
        None => false,
    }
}

/// The floor and the clock stand at 1.
fn stands_at_one(store: &Store) -> bool {
    store.floor() == Ident(1)
        && store.next() == Ident(1)
        && store.needs(Ident(1)) == None
        && store.needs(Ident(2)) == Some(Ident(64))
        && store.propose(Ident(0)) == Ident(2)
}

/// t1 is pending at 1.
fn is_pending(store: &Store) -> bool {
    store.pending(t1()) == Some(Ident(1))
        && store.ended(t1()).is_none()
        && store.home(t1()) == Some(n1())
        && store.part(t1(), n2())
        && !store.part(t2(), n2())
        && store.least() == Some(Ident(1))
        && store.commit_id() == Ident(0)
        && store.len() == 1
        && stands_at_one(store)
}

/// t1 is committed at 1.
fn is_committed(store: &Store) -> bool {
    store.pending(t1()) == None
        && is_commit_at(&store.ended(t1()), Ident(1))
        && store.home(t1()) == Some(n1())
        && !store.part(t1(), n2())
        && store.least() == None
        && store.commit_id() == Ident(1)
        && store.len() == 2
        && stands_at_one(store)
}

/// `b` is held against others, and has its initial value.
fn holds_b(store: &Store) -> bool {
    store.holder(&[b()], &[], t2()) == Some(t1())
        && store.holder(&[b()], &[], t1()) == None
        && !is_newer(store, b())
        && finds(store, b(), 1, (0, 0))
}

/// `b` is free, and has its new value from 1 on.
fn wrote_b(store: &Store) -> bool {
    store.holder(&[b()], &[], t2()) == None
        && is_newer(store, b())
        && finds(store, b(), 0, (0, 0))
        && finds(store, b(), 1, (1, 11))
}

/// Whether n1, which t1 writes, gives this answer to its Prepare.
fn home_says(alloc: Global, node: &mut Participant, answer: Said) -> Result<bool, Fail> {
    let prepare = first_at_n1(alloc)?;
    says(alloc, node, n1(), &prepare, answer)
}

/// Whether n1 votes at 1 on t1, and what its store says then.
fn home_votes(alloc: Global, node: &mut Participant) -> Result<bool, Fail> {
    let yes = Said::Yes(n1(), Ident(1));
    Ok(home_says(alloc, node, yes)? && is_pending(node.store()) && holds_b(node.store()))
}

/// Whether n1 settles the commit of t1 at 1, and what its store says then.
fn home_ends(node: &mut Participant) -> Result<bool, Fail> {
    Ok(settles(node, t1(), 1)? && is_committed(node.store()) && wrote_b(node.store()))
}

/// The home's vote and its end.
fn is_home_run(alloc: Global, node: &mut Participant) -> Result<bool, Fail> {
    Ok(home_votes(alloc, node)? && home_ends(node)?)
}

fn home_run(alloc: Global) -> Result<bool, Fail> {
    let mut node = start(alloc, n1())?;
    let fits = is_home_run(alloc, &mut node);
    end(node);
    fits
}

// The home of an update votes at 1 on its own write, and ends it at 1.
#[test]
fn read_then_write(rt: HostRuntime) -> Result<(), Fail> {
    assert!(rt; home_run(rt.alloc())?);
    Ok(())
}

/// Whether n2, which t1 read, gives this answer to its Prepare.
fn reader_says(alloc: Global, node: &mut Participant, answer: Said) -> Result<bool, Fail> {
    let prepare = first_at_n2(alloc)?;
    says(alloc, node, n1(), &prepare, answer)
}

/// The vote, and the same vote once more.
fn reader_votes(alloc: Global, node: &mut Participant) -> Result<bool, Fail> {
    Ok(
        reader_says(alloc, node, Said::Yes(n1(), Ident(1)))?
            && is_pending(node.store())
            && reader_says(alloc, node, Said::Again(Ident(1)))?,
    )
}

/// The end; then nothing, and the acknowledgement once more.
fn reader_ends(alloc: Global, node: &mut Participant) -> Result<bool, Fail> {
    Ok(
        settles(node, t1(), 1)?
            && reader_says(alloc, node, Said::Done)?
            && learns(node, t1(), 1, Told::Ack(n1()))?,
    )
}

/// An abort behind the commit is ignored, and all is as before.
fn reader_stays(node: &mut Participant) -> Result<bool, Fail> {
    Ok(ends(node, t1(), Told::Ignore)? && is_committed(node.store()))
}

fn is_reader_run(alloc: Global, node: &mut Participant) -> Result<bool, Fail> {
    Ok(reader_votes(alloc, node)? && reader_ends(alloc, node)? && reader_stays(node)?)
}

fn reader_run(alloc: Global) -> Result<bool, Fail> {
    let mut node = start(alloc, n2())?;
    let fits = is_reader_run(alloc, &mut node);
    end(node);
    fits
}

// At the other part a repeated Prepare is answered with the same yes; behind the end it is not answered,
// and the commit is acknowledged once more.
#[test]
fn repeats_after_the_end(rt: HostRuntime) -> Result<(), Fail> {
    assert!(rt; reader_run(rt.alloc())?);
    Ok(())
}

/// Whether n2 votes at 1 on t1, which writes `a`, and at 2 on t2, which writes `c`.
fn votes_twice(alloc: Global, node: &mut Participant) -> Result<bool, Fail> {
    Ok(
        votes(alloc, node, t1(), a(), Said::Yes(n1(), Ident(1)))?
            && votes(alloc, node, t2(), c(), Said::Yes(n1(), Ident(2)))?,
    )
}

/// t2 is not applied, and t3 is not pending.
fn waits(store: &Store) -> bool {
    store.commit_id() == Ident(0)
        && store.pending(t3()) == None
        && !is_newer(store, c())
        && finds(store, c(), 2, (0, 0))
}

/// Both are applied: `a` has its new value from 1 on, `c` from 2 on, and `c` is free.
fn are_applied(store: &Store) -> bool {
    store.commit_id() == Ident(2)
        && finds(store, a(), 1, (1, 1))
        && finds(store, c(), 1, (0, 0))
        && finds(store, c(), 2, (2, 2))
        && store.holder(&[c()], &[], t3()) == None
}

/// t2 commits at 2, and t3, which writes `c` too, is refused.
fn third_refused(alloc: Global, node: &mut Participant) -> Result<bool, Fail> {
    Ok(
        settles(node, t2(), 2)?
            && votes(alloc, node, t3(), c(), Said::No(Cause::Holder(t2())))?
            && waits(node.store()),
    )
}

/// t1 commits at 1.
fn applies(node: &mut Participant) -> Result<bool, Fail> {
    Ok(settles(node, t1(), 1)? && are_applied(node.store()))
}

fn is_lock_run(alloc: Global, node: &mut Participant) -> Result<bool, Fail> {
    Ok(votes_twice(alloc, node)? && third_refused(alloc, node)? && applies(node)?)
}

fn lock_run(alloc: Global) -> Result<bool, Fail> {
    let mut node = start(alloc, n2())?;
    let fits = is_lock_run(alloc, &mut node);
    end(node);
    fits
}

// t2 commits at 2 while t1 is pending at 1: it is not applied, and keeps its key until t1 commits at 1.
#[test]
fn lock_until_applied(rt: HostRuntime) -> Result<(), Fail> {
    assert!(rt; lock_run(rt.alloc())?);
    Ok(())
}

/// t2 writes `a` at 1, and t1, which read `a` at 0, is refused.
fn is_stale_run(alloc: Global, node: &mut Participant) -> Result<bool, Fail> {
    Ok(
        votes(alloc, node, t2(), a(), Said::Yes(n1(), Ident(1)))?
            && settles(node, t2(), 1)?
            && reader_says(alloc, node, Said::No(Cause::Newer(a(), Ident(1))))?,
    )
}

fn stale_run(alloc: Global) -> Result<bool, Fail> {
    let mut node = start(alloc, n2())?;
    let fits = is_stale_run(alloc, &mut node);
    end(node);
    fits
}

// A read at 0 is refused where its key has a version at 1.
#[test]
fn stale_read_refused(rt: HostRuntime) -> Result<(), Fail> {
    assert!(rt; stale_run(rt.alloc())?);
    Ok(())
}

/// `a` is held against no write of t3.
fn is_free(store: &Store) -> bool {
    store.holder(&[], &[(a(), Value(3))], t3()) == None
}

fn is_abort_run(alloc: Global, node: &mut Participant) -> Result<bool, Fail> {
    Ok(votes_twice(alloc, node)? && ends(node, t1(), Told::Settled(None))? && is_free(node.store()))
}

fn abort_run(alloc: Global) -> Result<bool, Fail> {
    let mut node = start(alloc, n2())?;
    let fits = is_abort_run(alloc, &mut node);
    end(node);
    fits
}

// An abort frees its key at once, and is acknowledged to nobody.
#[test]
fn aborted(rt: HostRuntime) -> Result<(), Fail> {
    assert!(rt; abort_run(rt.alloc())?);
    Ok(())
}
