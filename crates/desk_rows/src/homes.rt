//! A home: a desk over a journal on a disk in memory, and the steps that it takes.

ghost use Rattle.std.specs.Prelude.{◌≡◌, Some, IfOk};
ghost use Rattle.journal_records.specs.Records.{CanEncode};
ghost use Rattle.presumed_abort.specs.declared.stands.Stand.TheVariants as stand;
ghost use Rattle.presumed_abort.specs.Stands.{standing};
ghost use Rattle.presumed_abort.specs.Dues.{IsOf};

use crate::documents::{script, t1};
use grid_model::{Out, ReadRep};
use node_journal::{Journal, Kept};
use placement::Cluster;
use presumed_abort::{Desk, DeskDue, DeskTurn};
use score_base::{Ballot, Ident, NodeId, Record, TxId, Value};
use score_disk::MemDisk;
use std::alloc::Global;
use std::test::Fail;

/// A desk, and its journal; none where that stopped.
#[derive(Drop)]
pub(crate) struct Home {
    pub(crate) desk: Desk,
    journal: Option<Journal<MemDisk>>,
}

/// A home with this desk, and an empty journal.
pub(crate) fn with_desk(alloc: Global, desk: Desk) -> Result<Home, Fail> {
    match Journal::open(alloc, MemDisk::new(alloc, Vec::new(alloc))) {
        Ok((journal, _)) => Ok(Home {
            desk,
            journal: Some(journal),
        }),
        Err(_) => Err(Fail::new("no journal")),
    }
}

/// How many records its journal has.
pub(crate) fn count(home: &Home) -> u64 {
    match &home.journal {
        Some(journal) => journal.count(),
        None => 0,
    }
}

/// A home at which the script of a text has begun at 0, and what was given.
pub(crate) fn begin(
    alloc: Global,
    cluster: &Cluster,
    text: &[u8],
) -> Result<(Home, Vec<Out>), Fail> {
    let script = script(alloc, text)?;
    let mut desk = Desk::new(alloc);
    let outs = desk.begin(alloc, cluster, script, Ident(0))?;
    Ok((with_desk(alloc, desk)?, outs))
}

/// A reply to transaction 1 comes, at 0.
pub(crate) fn reply(
    alloc: Global,
    cluster: &Cluster,
    home: Home,
    op: u8,
    value: u64,
) -> Result<(Home, Vec<Out>), Fail> {
    let mut home = home;
    let q = ReadRep {
        t: t1(),
        op,
        sid: Ident(0),
        value: Value(value),
    };
    let outs = home.desk.reply(alloc, cluster, &q)?;
    Ok((home, outs))
}

/// The receipt of the record; none where the journal stopped.
fn keep(journal: &mut Option<Journal<MemDisk>>, rec: Record) -> Result<Kept, Fail>
    requires { CanEncode rec }
    ensures { IfOk result (λ kept. kept.rec ≡ rec) }
{
    let Some(mut open) = journal.take() else {
        return Err(Fail::new("no journal"));
    };
    if open.room().is_err() {
        return Err(Fail::new("no memory"));
    }
    match open.append(rec) {
        Ok((open, kept)) => {
            *journal = Some(open);
            Ok(kept)
        }
        Err(_) => Err(Fail::new("stopped")),
    }
}

/// What is due is made, once its record is kept, and its outs are given.
fn settle(
    journal: &mut Option<Journal<MemDisk>>,
    desk: &mut Desk,
    due: DeskDue,
    rec: Record,
) -> Result<Vec<Out>, Fail>
    requires of { IsOf due.due rec }
    requires fit { CanEncode rec }
    requires place { standing desk.old due.t ≡ Some stand.Away }
{
    match keep(journal, rec) {
        Ok(kept) => {
            let (outs, _rec) = due.release(desk, kept);
            Ok(outs)
        }
        Err(fail) => {
            due.give_up();
            Err(fail)
        }
    }
}

/// What the desk hands out is given, or settled first.
fn vote_on(
    alloc: Global,
    home: &mut Home,
    from: NodeId,
    t: TxId,
    ballot: &Ballot,
) -> Result<Vec<Out>, Fail> {
    match home.desk.vote(alloc, from, t, ballot)? {
        DeskTurn::Outs(outs) => Ok(outs),
        DeskTurn::Due(due, rec) => settle(&mut home.journal, &mut home.desk, due, rec),
    }
}

/// A vote comes.
pub(crate) fn vote(
    alloc: Global,
    home: Home,
    from: NodeId,
    t: TxId,
    ballot: &Ballot,
) -> Result<(Home, Vec<Out>), Fail> {
    let mut home = home;
    let outs = vote_on(alloc, &mut home, from, t, ballot)?;
    Ok((home, outs))
}

fn ack_on(alloc: Global, home: &mut Home, from: NodeId) -> Result<Vec<Out>, Fail> {
    match home.desk.ack(alloc, from, t1())? {
        DeskTurn::Outs(outs) => Ok(outs),
        DeskTurn::Due(due, rec) => settle(&mut home.journal, &mut home.desk, due, rec),
    }
}

/// An acknowledgement of transaction 1 comes.
pub(crate) fn ack(alloc: Global, home: Home, from: NodeId) -> Result<(Home, Vec<Out>), Fail> {
    let mut home = home;
    let outs = ack_on(alloc, &mut home, from)?;
    Ok((home, outs))
}

/// Transaction 1 is retried.
pub(crate) fn retry(
    alloc: Global,
    cluster: &Cluster,
    home: Home,
) -> Result<(Home, Vec<Out>), Fail> {
    let mut home = home;
    let outs = home.desk.retry(alloc, cluster, t1())?;
    Ok((home, outs))
}
