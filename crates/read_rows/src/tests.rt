//! What the calls of a read answer in worked runs.
use crate::documents::{a, committed, node, request, tx, vote};
use crate::servers::{Said, Server, admit, end, releases, reopened, says, start};
use grid_store::Store;
use score_base::{Date, Ident, Value};
use snapshot_read::{Answer, Waits};
use std::alloc::Global;
use std::test::Fail;

/// The answer to n1 with the initial value of `a`, for a read at 1 of this operation of t2.
fn initial(op: u8, raised: bool) -> Answer {
    Answer {
        to: node(1),
        t: tx(2),
        op,
        key: a(),
        sid: Ident(1),
        vn: Ident(0),
        value: Value(10),
        raised,
    }
}

/// n2 votes on t1, which read `a` at 0, and proposes 1.
fn votes(alloc: Global, server: &mut Server) -> Result<(), Fail> {
    admit(server, vote(alloc, tx(1), 1)?)
}

/// Whether a read of `a` at 1, at which the clock stands, is held.
fn is_held(server: &mut Server) -> Result<bool, Fail> {
    let waits = Waits {
        sid: Ident(1),
        raised: false,
    };
    says(
        server,
        request(tx(2), 2, Date::At(Ident(1))),
        Said::Held(waits),
    )
}

/// n2 votes, and a read at 1 is held.
fn holds(alloc: Global, server: &mut Server) -> Result<bool, Fail> {
    votes(alloc, server)?;
    is_held(server)
}

/// Whether one read is held, and none behind a stop.
fn are_dropped(server: &mut Server) -> bool {
    let one = server.held() == 1;
    server.let_go();
    one && server.held() == 0
}

fn is_stop_run(alloc: Global, server: &mut Server) -> Result<bool, Fail> {
    Ok(holds(alloc, server)? && are_dropped(server))
}

fn stop_run(alloc: Global) -> Result<bool, Fail> {
    let mut server = start(alloc)?;
    let fits = is_stop_run(alloc, &mut server);
    end(server);
    fits
}

// A stop of n2 lets the read go that is held there.
#[test]
fn held_reads_of_a_stop(rt: HostRuntime) -> Result<(), Fail> {
    assert!(rt; stop_run(rt.alloc())?);
    Ok(())
}

/// Whether the read is not released yet.
fn waits(server: &mut Server) -> bool {
    releases(server, None) && server.held() == 1
}

/// Whether the read is answered in the step that ends t1.
fn is_freed(server: &mut Server) -> Result<bool, Fail> {
    admit(server, committed(tx(1), 1))?;
    Ok(releases(server, Some(initial(2, false))) && server.held() == 0)
}

fn is_held_run(alloc: Global, server: &mut Server) -> Result<bool, Fail> {
    Ok(holds(alloc, server)? && waits(server) && is_freed(server)?)
}

fn held_run(alloc: Global) -> Result<bool, Fail> {
    let mut server = start(alloc)?;
    let fits = is_held_run(alloc, &mut server);
    end(server);
    fits
}

// n2 voted on t1, which read `a` there and proposes 1. Then t2 reads `a` at 1: held, and served with the
// initial value in the step that ends t1.
#[test]
fn held_read(rt: HostRuntime) -> Result<(), Fail> {
    assert!(rt; held_run(rt.alloc())?);
    Ok(())
}

/// Whether a first read at 1 is served behind a ceiling, with the initial value of `a`.
fn is_promised(server: &mut Server) -> Result<bool, Fail> {
    says(
        server,
        request(tx(2), 1, Date::First(Ident(1))),
        Said::Promised(initial(1, true)),
    )
}

/// The clock rose to the read, and the next proposal is above it.
fn stands_at_read(store: &Store) -> bool {
    store.floor() == Ident(64) && store.next() == Ident(1) && store.propose(Ident(0)) == Ident(2)
}

/// The clock stands at the ceiling: the next proposal for a transaction whose snapshot is 1 is 65.
fn proposes_above(store: &Store) -> bool {
    store.floor() == Ident(64) && store.next() == Ident(64) && store.propose(Ident(1)) == Ident(65)
}

/// Whether it proposes above the ceiling behind a crash.
fn proposes_behind(alloc: Global, server: &mut Server) -> Result<bool, Fail> {
    let after = reopened(alloc, server)?;
    let fits = proposes_above(after.store());
    end(after);
    Ok(fits)
}

fn is_ceiling_run(alloc: Global, server: &mut Server) -> Result<bool, Fail> {
    Ok(is_promised(server)? && stands_at_read(server.store()) && proposes_behind(alloc, server)?)
}

fn ceiling_run(alloc: Global) -> Result<bool, Fail> {
    let mut server = start(alloc)?;
    let fits = is_ceiling_run(alloc, &mut server);
    end(server);
    fits
}

// n2 has no records, and n1 asks for `a` for the first read of t2, with 1: the ceiling 64 is kept, the
// clock rises to 1, and the initial value is served. Behind a crash n2 proposes 65.
#[test]
fn ceiling_after_crash(rt: HostRuntime) -> Result<(), Fail> {
    assert!(rt; ceiling_run(rt.alloc())?);
    Ok(())
}
