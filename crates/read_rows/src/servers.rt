//! The node n2 over a journal in memory, and the steps that it takes.

ghost use Rattle.std.specs.Prelude.{◌≡◌, ◌≤◌, true, IfOk, IfErr, IsTrue};
ghost use Rattle.score_disk.specs.Files.{IsSettled};
ghost use Rattle.score_disk.specs.MemoryFile.{memory_file};
ghost use Rattle.journal_records.specs.Records.{CanEncode};
ghost use Rattle.journal_words.specs.Journals.{fits};
ghost use Rattle.grid_store.specs.Given.{HasRoom};
ghost use Rattle.grid_model.specs.Stories.{is_small, is_small_node};
ghost use Rattle.grid_model.specs.Fitness.{date_ident, is_fit_request};
ghost use Rattle.snapshot_read.specs.Reads.{ceiling_for};

use crate::documents::{cluster, node};
use grid_model::ReadReq;
use grid_store::Store;
use node_journal::{Journal, Kept, Stopped};
use score_base::{Date, Ident, Record};
use score_disk::{CrashDisk, MemDisk};
use snapshot_read::{Answer, Arrived, CeilingDue, Promised, Waiting, Waits};
use std::alloc::Global;
use std::marker::Model;
use std::test::Fail;

/// What n2 knows, the reads that it holds, and its journal; none where it stopped.
#[derive(Drop)]
pub(crate) struct Server {
    store: Store,
    waiting: Waiting,
    journal: Option<Journal<MemDisk>>,
}

// Clauses see nothing of a server, which keeps the proofs of its callers small.
impl Model for Server {
    ghost use Rattle.std.specs.Prelude.{⊤};

    ghost Value = { ⊤ };

    ghost view = { λ _. tt };
}

/// What it said to a request: at once, or behind the ceiling that it kept.
#[derive(Clone, Copy)]
pub(crate) enum Said {
    Held(Waits),
    Served(Answer),
    Promised(Answer),
}

impl Server {
    /// What it knows.
    pub(crate) fn store(&self) -> &Store {
        &self.store
    }

    /// How many reads it holds.
    pub(crate) fn held(&self) -> usize {
        self.waiting.len()
    }

    /// Lets go of all held reads.
    pub(crate) fn let_go(&mut self) {
        self.waiting.drop_all();
    }
}

/// The store of n2 behind these records.
fn store_of(alloc: Global, records: &[Record]) -> Result<Store, Fail> {
    let cluster = cluster(alloc)?;
    match Store::replay(alloc, &cluster, node(2), records) {
        Ok(store) => Ok(store),
        Err(_) => Err(Fail::new("no store")),
    }
}

/// n2 over this journal with these records, and no read held.
fn opened(alloc: Global, journal: Journal<MemDisk>, records: Vec<Record>) -> Result<Server, Fail> {
    match store_of(alloc, records.as_slice()) {
        Ok(store) => Ok(Server {
            store,
            waiting: Waiting::new(alloc),
            journal: Some(journal),
        }),
        Err(why) => Err(why),
    }
}

/// n2 over what this disk has.
fn open(alloc: Global, disk: MemDisk) -> Result<Server, Fail>
    requires { IsSettled (memory_file disk) }
{
    match Journal::open(alloc, disk) {
        Ok((journal, records)) => opened(alloc, journal, records),
        Err(_) => Err(Fail::new("no journal")),
    }
}

/// n2 without records.
pub(crate) fn start(alloc: Global) -> Result<Server, Fail> {
    open(alloc, MemDisk::new(alloc, Vec::new(alloc)))
}

/// The disk of n2 behind a crash; n2 has no journal then.
fn crash(journal: &mut Option<Journal<MemDisk>>) -> Result<MemDisk, Fail>
    ensures { IfOk result (λ disk. IsSettled (memory_file disk)) }
{
    match journal.take() {
        Some(journal) => {
            let mut disk = journal.stop();
            disk.crash(0);
            Ok(disk)
        }
        None => Err(Fail::new("stopped")),
    }
}

/// n2 crashes and is opened anew over its disk.
pub(crate) fn reopened(alloc: Global, server: &mut Server) -> Result<Server, Fail> {
    let disk = crash(&mut server.journal)?;
    open(alloc, disk)
}

/// n2 ends. Its parts are freed here alone, since each place where they are freed is proved for itself.
pub(crate) fn end(server: Server) {
    drop(server);
}

/// The record is kept, or given back.
fn keep(journal: &mut Option<Journal<MemDisk>>, rec: Record) -> Result<Kept, Record>
    requires { CanEncode rec }
    ensures kept { IfOk result (λ kept. kept.rec ≡ rec) }
    ensures back { IfErr result (λ back. back ≡ rec) }
{
    let Some(mut open) = journal.take() else {
        return Err(rec);
    };
    if open.room().is_err() {
        return Err(rec);
    }
    match open.append(rec) {
        Ok((open, kept)) => {
            *journal = Some(open);
            Ok(kept)
        }
        Err(Stopped { disk: _, rec }) => Err(rec),
    }
}

/// Keeps a record, and takes it into the store.
pub(crate) fn admit(server: &mut Server, rec: Record) -> Result<(), Fail>
    requires { CanEncode rec }
{
    if !server.store.fits(&rec) {
        return Err(Fail::new("strange"));
    }
    server.store.reserve(&rec)?;
    match keep(&mut server.journal, rec) {
        Ok(kept) => {
            server.store.admit(kept.spend());
            Ok(())
        }
        Err(_) => Err(Fail::new("stopped")),
    }
}

fn is_small(i: Ident) -> bool
    ensures { result ≡ is_small i }
{
    i.0 < 1 << 22
}

/// The number of a date.
fn date_ident(date: Date) -> Ident
    ensures { result ≡ date_ident date }
{
    match &date {
        Date::First(sid0) => *sid0,
        Date::At(sid) => *sid,
    }
}

/// Whether a request may be handed to the store.
fn is_fit(store: &Store, req: &ReadReq) -> bool
    ensures node { IsTrue result → IsTrue (is_small_node store.now.journal store.now.next) }
    ensures fit { IsTrue result → IsTrue (is_fit_request store.now.cluster store.now.node req.now) }
{
    let numbers = is_small(store.floor())
        && is_small(store.next())
        && is_small(date_ident(req.date));
    let ops = 1 <= req.op && req.op <= 32;
    numbers && ops && store.cluster().places.holds(store.node(), &req.key)
}

/// The ceiling of a read is kept, and the read answered.
fn promise(
    journal: &mut Option<Journal<MemDisk>>,
    waiting: &mut Waiting,
    store: &mut Store,
    due: CeilingDue,
    rec: Record,
) -> Result<Said, Fail>
    requires of { rec ≡ ceiling_for due.read }
    requires spelt { CanEncode rec }
    requires fit { fits store.old.cluster store.old.node store.old.journal rec ≡ true }
    requires room { HasRoom rec store.old.room }
    requires place { 1 ≤ waiting.old.spare }
{
    match keep(journal, rec) {
        Ok(kept) => match due.go(waiting, store, kept) {
            Promised::Serve(answer) => Ok(Said::Promised(answer)),
            Promised::Hold(waits) => Ok(Said::Held(waits)),
        },
        Err(rec) => {
            due.down(rec);
            Err(Fail::new("stopped"))
        }
    }
}

/// n1 asks n2.
fn ask(server: &mut Server, req: &ReadReq) -> Result<Said, Fail> {
    if !is_fit(&server.store, req) {
        return Err(Fail::new("unfit"));
    }
    match server.waiting.arrive(&mut server.store, node(1), req)? {
        Arrived::Hold(waits) => Ok(Said::Held(waits)),
        Arrived::Serve(answer) => Ok(Said::Served(answer)),
        Arrived::NeedCeiling(due, rec) => promise(
            &mut server.journal,
            &mut server.waiting,
            &mut server.store,
            due,
            rec,
        ),
    }
}

fn is_said(said: &Said, wanted: &Said) -> bool {
    match (said, wanted) {
        (Said::Held(waits), Said::Held(other)) => *waits == *other,
        (Said::Served(answer), Said::Served(other)) => *answer == *other,
        (Said::Promised(answer), Said::Promised(other)) => *answer == *other,
        _ => false,
    }
}

/// Whether n2 says this where n1 asks.
pub(crate) fn says(server: &mut Server, req: ReadReq, wanted: Said) -> Result<bool, Fail> {
    let said = ask(server, &req)?;
    Ok(is_said(&said, &wanted))
}

/// Whether n2 releases a held read with this answer, or none.
pub(crate) fn releases(server: &mut Server, wanted: Option<Answer>) -> bool {
    let answer = server.waiting.release(&server.store);
    match (&answer, &wanted) {
        (None, None) => true,
        (Some(answer), Some(other)) => *answer == *other,
        _ => false,
    }
}
