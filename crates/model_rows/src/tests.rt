//! What the words have to answer on the journals of small runs.
use crate::answers::{
    fits, has, is_clear_up_to, is_closed, is_dated, is_held, is_home, is_newer, is_newest,
    is_undone, stands,
};
use crate::journals::{
    Vote, add, add_committed, add_decided, add_prepared, cluster, key, node, tx,
};
use score_base::{Ident, Key, NodeId, Outcome, Record, TxId, Value};
use std::process::Abort;

/// The vote of n1 in the run that reads `a`, 10, at n2 and writes `b`, 11, at n1: the snapshot and both
/// clocks are 0, so both nodes propose 1, which is the final identifier.
fn add_writer(rt: &impl Abort, journal: &mut Vec<Record>) {
    let vote = Vote {
        t: tx(1),
        home: node(1),
        parts: &[node(1), node(2)],
        idents: (0, 1),
        reads: &[],
        writes: &[(key(b"b"), Value(11))],
    };
    add_prepared(rt, journal, &vote);
}

/// The vote of n2 in the same run.
fn add_reader(rt: &impl Abort, journal: &mut Vec<Record>) {
    let vote = Vote {
        t: tx(1),
        home: node(1),
        parts: &[node(1), node(2)],
        idents: (0, 1),
        reads: &[key(b"a")],
        writes: &[],
    };
    add_prepared(rt, journal, &vote);
}

/// The vote of a node that is the only part, for a transaction that writes one key.
fn add_write(
    rt: &impl Abort,
    journal: &mut Vec<Record>,
    t: TxId,
    home: NodeId,
    part: NodeId,
    idents: (u64, u64),
    write: (Key, Value),
) {
    let vote = Vote {
        t,
        home,
        parts: &[part],
        idents,
        reads: &[],
        writes: &[write],
    };
    add_prepared(rt, journal, &vote);
}

// n1 before the decision: transaction 1 is pending with 1, so reads from 1 on wait, and it keeps others
// from `b`.
#[test]
fn read_then_write_pending(rt: HostRuntime) {
    let alloc = rt.alloc();
    let mut journal = Vec::new(alloc);
    add_writer(&rt, &mut journal);
    stands(&rt, &journal, tx(1), Some(Ident(1)), None);
    is_dated(&rt, alloc, &journal, 1, 0);
    is_clear_up_to(&rt, alloc, &journal, 0);
    is_held(&rt, alloc, &journal, tx(2), &[key(b"b")], &[], Some(tx(1)));
    is_held(&rt, alloc, &journal, tx(1), &[key(b"b")], &[], None);
    add_decided(&rt, &mut journal, tx(1), 1, &[node(1), node(2)]);
    is_undone(&rt, &journal, tx(1), 1, &[node(1), node(2)]);
}

// n1 at the end: nothing is pending, so transaction 1 is applied. `b` has the version 1, which is newer
// than a snapshot at 0.
#[test]
fn read_then_write_ended(rt: HostRuntime) {
    let alloc = rt.alloc();
    let mut journal = Vec::new(alloc);
    add_writer(&rt, &mut journal);
    add_decided(&rt, &mut journal, tx(1), 1, &[node(1), node(2)]);
    add_committed(&rt, &mut journal, tx(1), 1);
    add(&rt, &mut journal, Record::Closed { t: tx(1) });
    is_closed(&rt, &journal, tx(1), 1);
    is_dated(&rt, alloc, &journal, 1, 1);
    has(&rt, alloc, &journal, &key(b"b"), (0, 0), (0, 0, 0));
    has(&rt, alloc, &journal, &key(b"b"), (0, 1), (1, 1, 11));
    is_held(&rt, alloc, &journal, tx(2), &[key(b"b")], &[], None);
    is_newer(
        &rt,
        alloc,
        &journal,
        &[key(b"b")],
        0,
        Some((key(b"b"), Ident(1))),
    );
    is_newer(&rt, alloc, &journal, &[key(b"b")], 1, None);
}

// n2 reads `a`: another reader is let in, a writer isn't. Once it is ended, a repeated Prepare finds the
// end, and a repeated commit finds whom to tell. It wrote nothing here, and yet is applied.
#[test]
fn repeats_after_the_end(rt: HostRuntime) {
    let alloc = rt.alloc();
    let mut journal = Vec::new(alloc);
    add_reader(&rt, &mut journal);
    is_held(&rt, alloc, &journal, tx(2), &[key(b"a")], &[], None);
    is_held(
        &rt,
        alloc,
        &journal,
        tx(2),
        &[],
        &[(key(b"a"), Value(3))],
        Some(tx(1)),
    );
    add_committed(&rt, &mut journal, tx(1), 1);
    stands(&rt, &journal, tx(1), None, Some(Outcome::Commit(Ident(1))));
    is_home(&rt, &journal, tx(1), Some(node(1)));
    is_dated(&rt, alloc, &journal, 1, 1);
    has(&rt, alloc, &journal, &key(b"a"), (10, 1), (0, 0, 10));
    is_newest(&rt, alloc, &journal, &key(b"a"), 0);
}

// n2 promises reads up to 64 for one at 1, crashes, and is asked to prepare transaction 3 with the
// snapshot 1: the clock stands at the floor 64, so it proposes 65.
#[test]
fn ceiling_after_crash(rt: HostRuntime) {
    let alloc = rt.alloc();
    let mut journal = Vec::new(alloc);
    add(&rt, &mut journal, Record::Ceiling { c: Ident(64) });
    is_dated(&rt, alloc, &journal, 64, 0);
    add_write(
        &rt,
        &mut journal,
        tx(3),
        node(1),
        node(2),
        (1, 65),
        (key(b"a"), Value(7)),
    );
    stands(&rt, &journal, tx(3), Some(Ident(65)), None);
    is_dated(&rt, alloc, &journal, 65, 0);
    is_clear_up_to(&rt, alloc, &journal, 64);
    has(&rt, alloc, &journal, &key(b"a"), (10, 64), (0, 0, 10));
}

/// The journal of a home that is the only part: it proposes 1, and decides that.
fn add_all(rt: &impl Abort, journal: &mut Vec<Record>, t: TxId, home: NodeId, write: (Key, Value)) {
    add_write(rt, journal, t, home, home, (0, 1), write);
    add_decided(rt, journal, t, 1, &[home]);
    add_committed(rt, journal, t, 1);
    add(rt, journal, Record::Closed { t });
}

// Transaction 1 writes `b` at its home n1, and transaction 2 writes `a` at its home n2. Each node
// proposes 1 by itself, so both have the final identifier 1, and a snapshot at 1 has both.
#[test]
fn equal_finals(rt: HostRuntime) {
    let alloc = rt.alloc();
    let mut first = Vec::new(alloc);
    add_all(&rt, &mut first, tx(1), node(1), (key(b"b"), Value(5)));
    is_dated(&rt, alloc, &first, 1, 1);
    has(&rt, alloc, &first, &key(b"b"), (0, 1), (1, 1, 5));
    let mut second = Vec::new(alloc);
    add_all(&rt, &mut second, tx(2), node(2), (key(b"a"), Value(7)));
    is_dated(&rt, alloc, &second, 1, 1);
    has(&rt, alloc, &second, &key(b"a"), (10, 1), (1, 2, 7));
    is_newest(&rt, alloc, &second, &key(b"a"), 1);
}

/// Transactions 1 and 2 of n1 write `a` and `c`, both at n2, which proposes 1 and 2. Transaction 2 ends
/// first, with 2.
fn add_unapplied(rt: &impl Abort, journal: &mut Vec<Record>) {
    add_write(
        rt,
        journal,
        tx(1),
        node(1),
        node(2),
        (0, 1),
        (key(b"a"), Value(1)),
    );
    add_write(
        rt,
        journal,
        tx(2),
        node(1),
        node(2),
        (0, 2),
        (key(b"c"), Value(2)),
    );
    add_committed(rt, journal, tx(2), 2);
}

// The proposal 1 is pending below 2, so transaction 2 isn't applied and keeps `c`. Of two holders the
// least is the cause.
#[test]
fn lock_until_applied(rt: HostRuntime) {
    let alloc = rt.alloc();
    let mut journal = Vec::new(alloc);
    add_unapplied(&rt, &mut journal);
    stands(&rt, &journal, tx(2), None, Some(Outcome::Commit(Ident(2))));
    is_dated(&rt, alloc, &journal, 2, 0);
    is_clear_up_to(&rt, alloc, &journal, 0);
    has(&rt, alloc, &journal, &key(b"c"), (0, 2), (0, 0, 0));
    is_held(
        &rt,
        alloc,
        &journal,
        tx(3),
        &[],
        &[(key(b"c"), Value(3))],
        Some(tx(2)),
    );
    is_held(
        &rt,
        alloc,
        &journal,
        tx(3),
        &[key(b"a")],
        &[(key(b"c"), Value(3))],
        Some(tx(1)),
    );
}

// Were transaction 1 aborted, transaction 2 would be applied, and `c` would be free, and newer than 1.
#[test]
fn applied_after_the_abort(rt: HostRuntime) {
    let alloc = rt.alloc();
    let mut journal = Vec::new(alloc);
    add_unapplied(&rt, &mut journal);
    let outcome = Outcome::Abort;
    add(&rt, &mut journal, Record::Ended { t: tx(1), outcome });
    stands(&rt, &journal, tx(1), None, Some(Outcome::Abort));
    is_dated(&rt, alloc, &journal, 2, 2);
    has(&rt, alloc, &journal, &key(b"a"), (10, 2), (0, 0, 10));
    has(&rt, alloc, &journal, &key(b"c"), (0, 2), (2, 2, 2));
    is_held(
        &rt,
        alloc,
        &journal,
        tx(3),
        &[],
        &[(key(b"c"), Value(3))],
        None,
    );
    is_newer(
        &rt,
        alloc,
        &journal,
        &[key(b"a"), key(b"c")],
        1,
        Some((key(b"c"), Ident(2))),
    );
}

// The home n1 of that run has only its decision, which counts neither for the floor nor as applied.
// It may be closed once.
#[test]
fn decided_elsewhere(rt: HostRuntime) {
    let alloc = rt.alloc();
    let grid = cluster(alloc).expect(&rt, "memory");
    let mut journal = Vec::new(alloc);
    fits(
        &rt,
        alloc,
        &grid,
        node(1),
        &journal,
        &Record::Closed { t: tx(2) },
        false,
    );
    add_decided(&rt, &mut journal, tx(2), 2, &[node(2)]);
    is_undone(&rt, &journal, tx(2), 2, &[node(2)]);
    is_dated(&rt, alloc, &journal, 0, 0);
    is_home(&rt, &journal, tx(2), None);
    fits(
        &rt,
        alloc,
        &grid,
        node(1),
        &journal,
        &Record::Closed { t: tx(2) },
        true,
    );
}

// A ceiling is a multiple of 64 above the floor.
#[test]
fn fitting_ceilings(rt: HostRuntime) {
    let alloc = rt.alloc();
    let grid = cluster(alloc).expect(&rt, "memory");
    let mut journal = Vec::new(alloc);
    fits(
        &rt,
        alloc,
        &grid,
        node(2),
        &journal,
        &Record::Ceiling { c: Ident(64) },
        true,
    );
    add(&rt, &mut journal, Record::Ceiling { c: Ident(64) });
    fits(
        &rt,
        alloc,
        &grid,
        node(2),
        &journal,
        &Record::Ceiling { c: Ident(64) },
        false,
    );
    fits(
        &rt,
        alloc,
        &grid,
        node(2),
        &journal,
        &Record::Ceiling { c: Ident(100) },
        false,
    );
    fits(
        &rt,
        alloc,
        &grid,
        node(2),
        &journal,
        &Record::Ceiling { c: Ident(128) },
        true,
    );
}
