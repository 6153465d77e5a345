//! Worked runs, on the side of the home.

use crate::documents::{apart, copied, n1, n2, ring, t1, t2, two};
use crate::homes::{Home, ack, begin, count, reply, retry, vote, with_desk};
use crate::shown::{
    is_aborted, is_began, is_closed, is_commit, is_finished, is_prepare, is_request, is_taken,
    is_told,
};
use grid_model::Out;
use placement::Cluster;
use presumed_abort::Desk;
use score_base::{Ballot, Cause, Date, Ident, NodeId, Outcome, Record};
use std::alloc::Global;
use std::test::Fail;

/// Key a is on n2; key b is on n1.
const READ_THEN_WRITE: &[u8] = b"tx 1 n1\nread a\nwrite b a + 1\nend\n";

/// The begin of transaction 1, and the request of a at n2.
fn is_begin(outs: &[Out]) -> bool {
    match outs {
        [began, asked] => {
            is_began(began, 1, 1, 0) && is_request(asked, 2, 1, b"a", Date::First(Ident(0)))
        }
        _ => false,
    }
}

/// The value 10 of a, and a Prepare to each node, b written with 11 at n1.
fn is_prepared(outs: &[Out]) -> bool {
    match outs {
        [taken, one, two] => {
            is_taken(taken, 1, 10)
                && is_prepare(one, 1, 2, 0, &[(b"b", 11)])
                && is_prepare(two, 2, 2, 1, &[])
        }
        _ => false,
    }
}

/// The request of a goes to n2; with its value, a Prepare goes to each node.
fn collects(alloc: Global, cluster: &Cluster) -> Result<(Home, bool), Fail> {
    let (home, first) = begin(alloc, cluster, READ_THEN_WRITE)?;
    let began = is_begin(first.as_slice());
    let (home, second) = reply(alloc, cluster, home, 1, 10)?;
    Ok((home, began && is_prepared(second.as_slice())))
}

/// A yes at 1 gives nothing.
fn hears(alloc: Global, home: Home, from: NodeId) -> Result<(Home, bool), Fail> {
    let (home, outs) = vote(alloc, home, from, t1(), &Ballot::Yes(Ident(1)))?;
    Ok((home, outs.is_empty()))
}

/// A yes at 1 gives the commit.
fn decides(alloc: Global, home: Home, from: NodeId) -> Result<(Home, bool), Fail> {
    let (home, outs) = vote(alloc, home, from, t1(), &Ballot::Yes(Ident(1)))?;
    Ok((home, is_commit(outs.as_slice())))
}

/// Both vote yes: nothing at the first, the commit at the second.
fn commits(alloc: Global, home: Home) -> Result<(Home, bool), Fail> {
    let (home, first) = hears(alloc, home, n1())?;
    let (home, second) = decides(alloc, home, n2())?;
    Ok((home, first && second))
}

fn is_end(outs: &[Out]) -> bool {
    match outs {
        [closed] => is_closed(closed),
        _ => false,
    }
}

/// Both acknowledge: nothing at the first, the end at the second.
fn closes(alloc: Global, home: Home) -> Result<(Home, bool), Fail> {
    let (home, first) = ack(alloc, home, n1())?;
    let none = first.is_empty();
    let (home, second) = ack(alloc, home, n2())?;
    Ok((home, none && is_end(second.as_slice())))
}

#[test]
fn read_then_write(rt: HostRuntime) -> Result<(), Fail> {
    let alloc = rt.alloc();
    let cluster = apart(alloc)?;
    let (home, collects) = collects(alloc, &cluster)?;
    let (home, commits) = commits(alloc, home)?;
    let (home, closes) = closes(alloc, home)?;
    assert!(rt; collects && commits && closes);
    assert!(rt; count(&home) == 2 && !home.desk.has(t1()));
    Ok(())
}

/// A yes of n2, twice.
fn hears_twice(alloc: Global, home: Home) -> Result<(Home, bool), Fail> {
    let (home, first) = hears(alloc, home, n2())?;
    let (home, second) = hears(alloc, home, n2())?;
    Ok((home, first && second))
}

/// A yes of n1, twice: the first completes the votes.
fn decides_once(alloc: Global, home: Home) -> Result<(Home, bool), Fail> {
    let (home, first) = decides(alloc, home, n1())?;
    let (home, second) = hears(alloc, home, n1())?;
    Ok((home, first && second))
}

/// A second vote of a part changes nothing, before the commit and behind it.
#[test]
fn repeated_votes(rt: HostRuntime) -> Result<(), Fail> {
    let alloc = rt.alloc();
    let cluster = apart(alloc)?;
    let (home, _) = collects(alloc, &cluster)?;
    let (home, twice) = hears_twice(alloc, home)?;
    let (home, once) = decides_once(alloc, home)?;
    assert!(rt; twice && once && count(&home) == 1);
    Ok(())
}

/// Two updates of a; n2 refuses the second, whose home it is.
const WRITE_CONFLICT: &[u8] = b"tx 2 n2\nwrite a 2\nend\n";

fn is_abort(outs: &[Out]) -> bool {
    match outs {
        [aborted] => is_aborted(aborted, 2, 2),
        _ => false,
    }
}

#[test]
fn write_conflict(rt: HostRuntime) -> Result<(), Fail> {
    let alloc = rt.alloc();
    let cluster = apart(alloc)?;
    let (home, _) = begin(alloc, &cluster, WRITE_CONFLICT)?;
    let no = Ballot::No(Cause::Holder(t1()));
    let (home, outs) = vote(alloc, home, n2(), t2(), &no)?;
    assert!(rt; is_abort(outs.as_slice()) && !home.desk.has(t2()));
    Ok(())
}

/// The abort by n2, of which n1 is told.
fn is_refusal(outs: &[Out]) -> bool {
    match outs {
        [aborted, told] => is_aborted(aborted, 1, 2) && is_told(told, 1, Outcome::Abort),
        _ => false,
    }
}

/// n2 refuses.
fn refuses(alloc: Global, home: Home) -> Result<(Home, bool), Fail> {
    let no = Ballot::No(Cause::Holder(t2()));
    let (home, outs) = vote(alloc, home, n2(), t1(), &no)?;
    Ok((home, is_refusal(outs.as_slice())))
}

/// n2 refuses a read that is stale; n1, which votes yes behind that, is told the abort.
#[test]
fn stale_read_refused(rt: HostRuntime) -> Result<(), Fail> {
    let alloc = rt.alloc();
    let cluster = apart(alloc)?;
    let (home, _) = collects(alloc, &cluster)?;
    let (home, refused) = refuses(alloc, home)?;
    let (home, late) = hears(alloc, home, n1())?;
    assert!(rt; refused && late && count(&home) == 0);
    Ok(())
}

/// Whether n2, which asks, is told just this; or nothing.
fn answers(alloc: Global, desk: &Desk, wanted: Option<Outcome>) -> Result<bool, Fail> {
    let outs = desk.ask(alloc, n2(), t1())?;
    Ok(match (outs.as_slice(), wanted) {
        ([], None) => true,
        ([told], Some(outcome)) => is_told(told, 2, outcome),
        _ => false,
    })
}

/// Who asks while votes are collected is told nothing; behind a stop of the home, that it is aborted.
#[test]
fn presumed_abort(rt: HostRuntime) -> Result<(), Fail> {
    let alloc = rt.alloc();
    let cluster = apart(alloc)?;
    let (home, _) = collects(alloc, &cluster)?;
    let opened = Desk::replay(alloc, &[])?;
    let none = answers(alloc, &home.desk, None)?;
    let abort = answers(alloc, &opened, Some(Outcome::Abort))?;
    assert!(rt; none && abort);
    Ok(())
}

/// A home that stopped behind the decision of transaction 1 at 1, with parts n1 and n2.
fn stopped(alloc: Global) -> Result<Home, Fail> {
    let decided = Record::Decided {
        t: t1(),
        f: Ident(1),
        parts: two(alloc, n1(), n2())?,
    };
    with_desk(alloc, Desk::replay(alloc, &[decided])?)
}

/// The commit at 1 for both parts.
fn are_told(outs: &[Out]) -> bool {
    match outs {
        [first, second] => {
            is_told(first, 1, Outcome::Commit(Ident(1)))
                && is_told(second, 2, Outcome::Commit(Ident(1)))
        }
        _ => false,
    }
}

/// A home that stopped behind its decision tells it again, to both parts.
#[test]
fn stop_at_the_decision(rt: HostRuntime) -> Result<(), Fail> {
    let alloc = rt.alloc();
    let cluster = apart(alloc)?;
    let home = stopped(alloc)?;
    let (home, outs) = retry(alloc, &cluster, home)?;
    let told = answers(alloc, &home.desk, Some(Outcome::Commit(Ident(1))))?;
    assert!(rt; told && are_told(outs.as_slice()));
    Ok(())
}

/// Key a is on n2 and n3.
const TWO_HOLDERS: &[u8] = b"tx 1 n1\nread a\nend\n";

/// Whether this is just the request of a, to this node.
fn asks_for_a(outs: &[Out], to: u8) -> bool {
    match outs {
        [asked] => is_request(asked, to, 1, b"a", Date::First(Ident(0))),
        _ => false,
    }
}

/// A retry asks this node for a.
fn asks_again(alloc: Global, cluster: &Cluster, home: Home, to: u8) -> Result<(Home, bool), Fail> {
    let (home, outs) = retry(alloc, cluster, home)?;
    Ok((home, asks_for_a(outs.as_slice(), to)))
}

/// The value 10 of a, and the end of a transaction that wrote nothing.
fn is_answer(outs: &[Out]) -> bool {
    match outs {
        [taken, finished] => is_taken(taken, 1, 10) && is_finished(finished),
        _ => false,
    }
}

#[test]
fn retry_at_the_other_holder(rt: HostRuntime) -> Result<(), Fail> {
    let alloc = rt.alloc();
    let cluster = copied(alloc)?;
    let (home, first) = begin(alloc, &cluster, TWO_HOLDERS)?;
    let (home, second) = asks_again(alloc, &cluster, home, 3)?;
    let (home, third) = asks_again(alloc, &cluster, home, 2)?;
    let (home, last) = reply(alloc, &cluster, home, 1, 10)?;
    assert!(rt; is_begin(first.as_slice()) && second && third);
    assert!(rt; is_answer(last.as_slice()) && !home.desk.has(t1()));
    Ok(())
}

/// Each key is on two nodes: a on n2 and n3, b on n3 and n1.
const TRANSFER: &[u8] = b"tx 1 n1\nread a\nread b\nwrite a a - 30\nwrite b b + 30\nend\n";

/// The value 100 of a, and the request of b, to the home itself.
fn is_next(outs: &[Out]) -> bool {
    match outs {
        [taken, asked] => {
            is_taken(taken, 1, 100) && is_request(asked, 1, 2, b"b", Date::At(Ident(0)))
        }
        _ => false,
    }
}

/// The Prepares: b to n1, a to n2, both to n3.
fn are_transfer(outs: &[Out]) -> bool {
    match outs {
        [taken, one, two, three] => {
            is_taken(taken, 2, 20)
                && is_prepare(one, 1, 3, 1, &[(b"b", 50)])
                && is_prepare(two, 2, 3, 1, &[(b"a", 70)])
                && is_prepare(three, 3, 3, 2, &[(b"a", 70), (b"b", 50)])
        }
        _ => false,
    }
}

#[test]
fn replicated_transfer(rt: HostRuntime) -> Result<(), Fail> {
    let alloc = rt.alloc();
    let cluster = ring(alloc)?;
    let (home, _) = begin(alloc, &cluster, TRANSFER)?;
    let (home, first) = reply(alloc, &cluster, home, 1, 100)?;
    let (_, second) = reply(alloc, &cluster, home, 2, 20)?;
    assert!(rt; is_next(first.as_slice()) && are_transfer(second.as_slice()));
    Ok(())
}
