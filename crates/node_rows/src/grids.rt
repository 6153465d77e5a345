//! The node n1 on two disks in memory, and what it plays.

ghost use Rattle.std.specs.Prelude.{◌≡◌, ◌≤◌, IfOk};
ghost use Rattle.score_disk.specs.Files.{IsSettled};
ghost use Rattle.score_disk.specs.MemoryFile.{memory_file};

use crate::events::n1;
use grid_model::{Act, Event, Head, Message, Out};
use node_core::{Node, Opened, Stepped};
use placement::Cluster;
use score_base::{Ballot, Ident, Memory, Outcome, push};
use score_disk::{CrashDisk, Disk, Fused, MemDisk};
use std::alloc::Global;
use std::marker::Model;
use std::test::Fail;

/// A node that is up.
#[derive(Drop)]
pub(crate) struct Grid {
    node: Node<MemDisk>,
}

// Clauses see the cluster of a grid alone, which keeps the proofs of its callers small.
impl Model for Grid {
    ghost use Rattle.placement.specs.Clusters.{ClusterData};

    ghost Value = { ClusterData };

    ghost view = { λ g. g.node.store.cluster };
}

/// The two disks of a node, settled.
#[derive(Drop)]
pub(crate) struct Disks {
    first: MemDisk,
    second: MemDisk,
    ghost settled_first: { IsSettled (memory_file first) },
    ghost settled_second: { IsSettled (memory_file second) },
}

/// A node that stopped while this was being written, and its disks behind a crash.
#[derive(Drop)]
pub(crate) struct Halt {
    pub(crate) disks: Disks,
    pub(crate) head: Head,
}

/// How an opening ends.
#[derive(Clone, Copy)]
pub(crate) enum How {
    Up(u64),
    Failed,
    NotJournal(u64),
    Strange(usize),
    Memory,
}

/// The grid ends. Its parts are freed here alone, since each place where they are freed is proved for
/// itself.
pub(crate) fn end(grid: Grid) {
    drop(grid);
}

/// The disks of a grid that ends.
pub(crate) fn stopped(grid: Grid) -> Disks {
    let Grid { node } = grid;
    let (first, second) = node.stop();
    Disks { first, second }
}

/// Whether both disks have the same bytes as these.
pub(crate) fn are_same(disks: &Disks, others: &Disks) -> bool {
    disks.first.bytes() == others.first.bytes() && disks.second.bytes() == others.second.bytes()
}

/// Whether the first disk has these bytes.
pub(crate) fn has_bytes(disks: &Disks, bytes: &[u8]) -> bool {
    disks.first.bytes() == bytes
}

/// Two empty disks, of which the first fails at its `k`-th call; none where `k` is 0.
pub(crate) fn empty(alloc: Global, k: u64) -> Result<Disks, Fail> {
    let mut fails = Vec::new(alloc);
    fails.push(k)?;
    Ok(Disks {
        first: MemDisk::new(alloc, fails),
        second: MemDisk::new(alloc, Vec::new(alloc)),
    })
}

/// A disk whose file, settled, has these bytes.
fn disk_of(alloc: Global, bytes: &[u8]) -> Result<MemDisk, Fail>
    ensures { IfOk result (λ disk. IsSettled (memory_file disk)) }
{
    let mut disk = MemDisk::new(alloc, Vec::new(alloc));
    disk.room(bytes.len() as u64)?;
    disk.write(0, bytes)?;
    disk.crash(1);
    Ok(disk)
}

/// Two disks, of which the first has these bytes and the second none.
pub(crate) fn disks_of(alloc: Global, bytes: &[u8]) -> Result<Disks, Fail> {
    Ok(Disks {
        first: disk_of(alloc, bytes)?,
        second: MemDisk::new(alloc, Vec::new(alloc)),
    })
}

/// The node n1 that two disks open to.
pub(crate) fn opened(alloc: Global, cluster: &Cluster, disks: Disks) -> Result<Grid, Fail>
    ensures { IfOk result (λ g. g ≡ cluster.now) }
{
    let Disks { first, second } = disks;
    match Node::open(alloc, n1(), cluster, first, second) {
        Opened::Up(node) => Ok(Grid { node }),
        _ => Err(Fail::new("not up")),
    }
}

/// How the opening of two disks ends, and with how many records.
pub(crate) fn how_opened(alloc: Global, cluster: &Cluster, disks: Disks) -> How {
    let Disks { first, second } = disks;
    match Node::open(alloc, n1(), cluster, first, second) {
        Opened::Up(node) => {
            let count = node.count();
            end(Grid { node });
            How::Up(count)
        }
        Opened::Failed(_, _) => How::Failed,
        Opened::NotJournal(_, _, at) => How::NotJournal(at),
        Opened::Strange(_, _, i) => How::Strange(i),
        Opened::Memory(_, _) => How::Memory,
    }
}

impl Grid {
    /// The records of the live file.
    pub(crate) fn count(&self) -> u64 {
        self.node.count()
    }

    /// The generation of the live file.
    pub(crate) fn generation(&self) -> u64 {
        self.node.generation()
    }
}

/// The disks behind a crash.
fn crashed_disks(first: MemDisk, second: MemDisk) -> Disks {
    let (mut first, mut second) = (first, second);
    first.crash(0);
    second.crash(0);
    Disks { first, second }
}

/// The grid behind an event, and what it gives, or where it stopped.
pub(crate) fn step(
    alloc: Global,
    cluster: &Cluster,
    grid: Grid,
    event: Event,
) -> Result<Result<(Grid, Vec<Out>), Halt>, Fail>
    requires { cluster.now ≡ grid }
    ensures { IfOk result (λ r. IfOk r (λ x. x.0 ≡ cluster.now)) }
{
    let Grid { node } = grid;
    match node.step(alloc, cluster, event) {
        Stepped::Done(node, outs) => Ok(Ok((Grid { node }, outs))),
        Stepped::Down(first, second, head) => Ok(Err(Halt {
            disks: crashed_disks(first, second),
            head,
        })),
        Stepped::Memory(node) => {
            end(Grid { node });
            Err(Fail::new("memory"))
        }
    }
}

/// An act goes into the text as a letter and, where it has one, its identifier, which is below 10.
fn put_act(text: &mut Vec<u8>, act: &Act) -> Result<(), Memory> {
    let (letter, ident) = match act {
        Act::Began(_, _, sid0) => (b'b', *sid0),
        Act::Held(_, _, _, sid) => (b'h', *sid),
        Act::Served(_, _, _, _, _, vn, _) => (b's', *vn),
        Act::Taken(_, _, sid, _) => (b't', *sid),
        Act::Prepared(_, _, p) => (b'p', *p),
        Act::Decided(_, f) => (b'd', *f),
        Act::Ended(_, _, Outcome::Commit(f)) => (b'e', *f),
        Act::Finished(_) => (b'f', Ident(0)),
        Act::Closed(_) => (b'c', Ident(0)),
        Act::Compacted(_) => (b'm', Ident(0)),
        _ => (b'x', Ident(0)),
    };
    push(text, letter)?;
    push(text, b'0' + (ident.0 % 10) as u8)
}

/// The acts go into the text, and the messages behind those that wait.
fn sorted(outs: Vec<Out>, text: &mut Vec<u8>, sent: &mut Vec<Message>) -> Result<(), Memory> {
    for out in outs {
        match out {
            Out::Act(act) => put_act(text, &act)?,
            Out::Send(_, message) => push(sent, message)?,
        }
    }
    Ok(())
}

/// What came of an event and of the messages behind it.
#[derive(Drop)]
pub(crate) struct Played {
    pub(crate) text: Vec<u8>,
    sent: Vec<Message>,
}

/// One event of a run: what it gives goes behind what came before.
fn one(
    alloc: Global,
    cluster: &Cluster,
    grid: Grid,
    event: Event,
    so_far: &mut Played,
) -> Result<Result<Grid, Halt>, Fail>
    requires { cluster.now ≡ grid }
    ensures { IfOk result (λ r. IfOk r (λ g. g ≡ cluster.now)) }
{
    match step(alloc, cluster, grid, event)? {
        Ok((grid, outs)) => match sorted(outs, &mut so_far.text, &mut so_far.sent) {
            Ok(()) => Ok(Ok(grid)),
            Err(_) => {
                end(grid);
                Err(Fail::new("memory"))
            }
        },
        Err(halt) => Ok(Err(halt)),
    }
}

/// Nothing came yet.
fn nothing(alloc: Global) -> Played {
    Played {
        text: Vec::new(alloc),
        sent: Vec::new(alloc),
    }
}

/// Plays an event, and then every message that comes of it, in order, with so many steps at most.
fn run_on(
    alloc: Global,
    cluster: &Cluster,
    grid: Grid,
    event: Event,
    so_far: &mut Played,
) -> Result<Result<Grid, Halt>, Fail>
    requires { cluster.now ≡ grid }
    ensures { IfOk result (λ r. IfOk r (λ g. g ≡ cluster.now)) }
{
    let mut grid = grid;
    let mut event = event;
    'messages: for _turn in 0..64 {
        match one(alloc, cluster, grid, event, so_far)? {
            Ok(next) => grid = next,
            Err(halt) => return Ok(Err(halt)),
        }
        if so_far.sent.is_empty() {
            return Ok(Ok(grid));
        }
        event = Event::Deliver(n1(), so_far.sent.remove(0));
    }
    end(grid);
    Err(Fail::new("no end"))
}

/// Plays an event, and then every message that comes of it, in order; the node and its acts, or where it
/// stopped.
pub(crate) fn run(
    alloc: Global,
    cluster: &Cluster,
    grid: Grid,
    event: Event,
) -> Result<Result<(Grid, Vec<u8>), Halt>, Fail>
    requires { cluster.now ≡ grid }
    ensures { IfOk result (λ r. IfOk r (λ x. x.0 ≡ cluster.now)) }
{
    let mut so_far = nothing(alloc);
    match run_on(alloc, cluster, grid, event, &mut so_far)? {
        Ok(grid) => Ok(Ok((grid, so_far.text))),
        Err(halt) => Ok(Err(halt)),
    }
}

/// The same, where it does not stop.
pub(crate) fn runs(
    alloc: Global,
    cluster: &Cluster,
    grid: Grid,
    event: Event,
) -> Result<(Grid, Vec<u8>), Fail>
    requires { cluster.now ≡ grid }
    ensures { IfOk result (λ x. x.0 ≡ cluster.now) }
{
    match run(alloc, cluster, grid, event)? {
        Ok(ran) => Ok(ran),
        Err(_) => Err(Fail::new("down")),
    }
}

/// The grid behind an event, whatever it gives.
pub(crate) fn behind(
    alloc: Global,
    cluster: &Cluster,
    grid: Grid,
    event: Event,
) -> Result<Grid, Fail>
    requires { cluster.now ≡ grid }
    ensures { IfOk result (λ g. g ≡ cluster.now) }
{
    match step(alloc, cluster, grid, event)? {
        Ok((grid, _)) => Ok(grid),
        Err(_) => Err(Fail::new("down")),
    }
}

/// Whether the event gives nothing, and leaves the disks as they were.
pub(crate) fn is_quiet(
    alloc: Global,
    cluster: &Cluster,
    grid: Grid,
    before: &Disks,
    event: Event,
) -> Result<bool, Fail>
    requires { cluster.now ≡ grid }
{
    match step(alloc, cluster, grid, event)? {
        Ok((grid, outs)) => {
            let none = outs.is_empty();
            Ok(are_same(&stopped(grid), before) && none)
        }
        Err(_) => Ok(false),
    }
}

/// Whether the event gives something.
pub(crate) fn is_heard(
    alloc: Global,
    cluster: &Cluster,
    grid: Grid,
    event: Event,
) -> Result<bool, Fail>
    requires { cluster.now ≡ grid }
{
    match step(alloc, cluster, grid, event)? {
        Ok((grid, outs)) => {
            end(grid);
            Ok(!outs.is_empty())
        }
        Err(_) => Ok(false),
    }
}

/// Whether the event gives these acts, whatever it sends.
pub(crate) fn gives(
    alloc: Global,
    cluster: &Cluster,
    grid: Grid,
    event: Event,
    acts: &[u8],
) -> Result<bool, Fail>
    requires { cluster.now ≡ grid }
{
    let mut so_far = nothing(alloc);
    match one(alloc, cluster, grid, event, &mut so_far)? {
        Ok(grid) => {
            end(grid);
            Ok(so_far.text.as_slice() == acts)
        }
        Err(_) => Ok(false),
    }
}

/// A Prepared with the proposal 1.
const VOTED: &[u8] = b"p1";

/// Whether the only message is a yes to transaction 1 with the proposal 1.
fn is_yes(sent: &[Message]) -> bool {
    match sent {
        [
            Message::Vote {
                t,
                ballot: Ballot::Yes(p),
            },
        ] => t.get() == 1 && *p == Ident(1),
        _ => false,
    }
}

/// Whether the event gives a Prepared with the proposal 1, and sends the yes to it alone.
pub(crate) fn is_voted_on(
    alloc: Global,
    cluster: &Cluster,
    grid: Grid,
    event: Event,
) -> Result<bool, Fail>
    requires { cluster.now ≡ grid }
{
    let mut so_far = nothing(alloc);
    match one(alloc, cluster, grid, event, &mut so_far)? {
        Ok(grid) => {
            end(grid);
            Ok(so_far.text.as_slice() == VOTED && is_yes(&so_far.sent))
        }
        Err(_) => Ok(false),
    }
}

/// A node over fuses on empty disks.
fn fused(alloc: Global, cluster: &Cluster) -> Result<Node<Fused<MemDisk>>, Fail>
    ensures { IfOk result (λ node. node.store.cluster ≡ cluster.now) }
{
    let first = Fused::new(MemDisk::new(alloc, Vec::new(alloc)));
    let second = Fused::new(MemDisk::new(alloc, Vec::new(alloc)));
    match Node::open(alloc, n1(), cluster, first, second) {
        Opened::Up(node) => Ok(node),
        _ => Err(Fail::new("not up")),
    }
}

/// The same, whose fuses are armed with `k`.
fn armed(node: Node<Fused<MemDisk>>, k: u64) -> Node<Fused<MemDisk>>
    requires { 1 ≤ k }
    ensures { result.store.cluster ≡ node.store.cluster }
{
    let mut node = node;
    node.arm(k);
    node
}

/// Where a node over fuses stops at this event whose fuses are armed with `k`.
pub(crate) fn fused_stop(
    alloc: Global,
    cluster: &Cluster,
    k: u64,
    event: Event,
) -> Result<Head, Fail>
    requires { 1 ≤ k }
{
    let node = fused(alloc, cluster)?;
    match armed(node, k).step(alloc, cluster, event) {
        Stepped::Down(first, second, head) => {
            drop(first);
            drop(second);
            Ok(head)
        }
        Stepped::Done(node, outs) => {
            drop(node);
            drop(outs);
            Err(Fail::new("done"))
        }
        Stepped::Memory(node) => {
            drop(node);
            Err(Fail::new("memory"))
        }
    }
}
