//! The bytes of a journal, what is none, and a stop at each device call.
ghost use Rattle.std.specs.Prelude.{◌≡◌, ◌≤◌, ◌∷◌, [], IfOk};
ghost use Rattle.score_disk.specs.Files.{IsSettled, Settled};
ghost use Rattle.score_disk.specs.MemoryFile.{memory_file};
ghost use Rattle.journal_records.specs.Records.{CanEncode};

use super::*;
use score_base::{Ident, Key, KeyList, NodeId, NodeList, Outcome, Record, TxId, Value, WriteList};
use score_disk::{CrashDisk, Disk, Fused, MemDisk};
use std::alloc::Global;
use std::test::Fail;

/// The version; a Prepared, a Decided, an Ended and a Closed of transaction 1; a closed gate.
const FOUR_RECORDS: [u8; 78] = [
    1, // the version
    1, 0, 0x23, 1, 0, 1, 1, 2, 1, 2, 0, 0, 0, 0, 0, 0, 0, 0, 0, 0, 0, 0, 0, 0, 0, 1, 0, 1, 1, 0x62,
    0, 0, 0, 0, 0, 0, 0, 0x0b, // Prepared
    1, 0, 0x0e, 4, 0, 1, 0, 0, 0, 0, 0, 0, 0, 1, 2, 1, 2, // Decided
    1, 0, 0x0c, 2, 0, 1, 1, 0, 0, 0, 0, 0, 0, 0, 1, // Ended
    1, 0, 3, 5, 0, 1, // Closed
    0,
];

/// A disk whose file, settled, has these bytes.
fn disk_of(alloc: Global, bytes: &[u8]) -> Result<MemDisk, Fail>
    ensures { IfOk result (λ disk. IsSettled (memory_file disk)) }
{
    let mut disk = MemDisk::new(alloc, Vec::new(alloc));
    disk.room(bytes.len() as u64)?;
    disk.write(0, bytes)?;
    disk.crash(1);
    Ok(disk)
}

fn open<D: Disk>(alloc: Global, disk: D) -> Result<(Journal<D>, Vec<Record>), Fail>
    requires { Settled (D.tells disk) (D.file disk) }
{
    match Journal::open(alloc, disk) {
        Ok(opened) => Ok(opened),
        Err(OpenEnd::Failed(_)) => Err(Fail::new("failed")),
        Err(OpenEnd::NotJournal(_, place)) => Err(Fail::new(place)),
        Err(OpenEnd::Memory(_)) => Err(Fail::new("no memory")),
    }
}

fn append<D: Disk>(journal: Journal<D>, rec: Record) -> Result<Journal<D>, Fail>
    requires { CanEncode rec }
{
    let mut journal = journal;
    journal.room()?;
    match journal.append(rec) {
        Ok((journal, kept)) => {
            let _ = kept.spend();
            Ok(journal)
        }
        Err(_) => Err(Fail::new("stopped")),
    }
}

fn closed(t: u16) -> Record
    requires { 1 ≤ t }
    ensures { CanEncode result }
{
    Record::Closed {
        t: TxId { number: t },
    }
}

fn nodes(alloc: Global) -> Result<NodeList, Fail>
    ensures { IfOk result (λ list. list ≡ 1 ∷ 2 ∷ []) }
{
    let mut nodes = NodeList::new(alloc);
    nodes.push(NodeId { number: 1 })?;
    nodes.push(NodeId { number: 2 })?;
    Ok(nodes)
}

fn prepared(alloc: Global) -> Result<Record, Fail>
    ensures { IfOk result CanEncode }
{
    let mut writes = WriteList::new(alloc);
    writes.push((Key::new(b"b").ok_or("key")?, Value(11)))?;
    Ok(Record::Prepared {
        t: TxId { number: 1 },
        home: NodeId { number: 1 },
        parts: nodes(alloc)?,
        sid: Ident(0),
        p: Ident(1),
        reads: KeyList::new(alloc),
        writes,
    })
}

fn decided(alloc: Global) -> Result<Record, Fail>
    ensures { IfOk result CanEncode }
{
    Ok(Record::Decided {
        t: TxId { number: 1 },
        f: Ident(1),
        parts: nodes(alloc)?,
    })
}

fn ended() -> Record
    ensures { CanEncode result }
{
    Record::Ended {
        t: TxId { number: 1 },
        outcome: Outcome::Commit(Ident(1)),
    }
}

/// A disk to which a journal wrote the four records.
fn four_records(alloc: Global) -> Result<MemDisk, Fail>
    ensures { IfOk result (λ disk. IsSettled (memory_file disk)) }
{
    let (journal, _) = open(alloc, MemDisk::new(alloc, Vec::new(alloc)))?;
    let journal = append(journal, prepared(alloc)?)?;
    let journal = append(journal, decided(alloc)?)?;
    let journal = append(journal, ended())?;
    let journal = append(journal, closed(1))?;
    Ok(journal.stop())
}

#[test]
fn journal_bytes(rt: HostRuntime) -> Result<(), Fail> {
    let disk = four_records(rt.alloc())?;
    assert_eq!(rt; disk.bytes(), FOUR_RECORDS.as_slice());
    Ok(())
}

/// The four records.
fn the_four(alloc: Global) -> Result<Vec<Record>, Fail> {
    let mut records = Vec::new(alloc);
    records.push(prepared(alloc)?)?;
    records.push(decided(alloc)?)?;
    records.push(ended())?;
    records.push(closed(1))?;
    Ok(records)
}

/// Whether two lists of records print alike.
fn alike(alloc: Global, a: &[Record], b: &[Record]) -> Result<bool, Fail> {
    let first = format!(in alloc; "{:?}", a)?;
    let second = format!(in alloc; "{:?}", b)?;
    Ok(first == second)
}

#[test]
fn records_of_a_journal(rt: HostRuntime) -> Result<(), Fail> {
    let alloc = rt.alloc();
    let (journal, records) = open(alloc, four_records(alloc)?)?;
    assert_eq!(rt; journal.count(), 4);
    assert!(rt; alike(alloc, &records, &the_four(alloc)?)?);
    Ok(())
}

/// The place at which these bytes are no journal.
fn fault(alloc: Global, bytes: &[u8]) -> Result<Option<u64>, Fail> {
    match Journal::open(alloc, disk_of(alloc, bytes)?) {
        Ok((_, _)) => Ok(None),
        Err(OpenEnd::NotJournal(_, place)) => Ok(Some(place)),
        Err(_) => Err(Fail::new("no answer on the bytes")),
    }
}

#[test]
fn not_a_journal(rt: HostRuntime) -> Result<(), Fail> {
    let alloc = rt.alloc();
    assert_eq!(rt; fault(alloc, &[2, 0, 0])?, Some(0));
    assert_eq!(rt; fault(alloc, &[1, 1, 0, 1, 7, 0])?, Some(1));
    let (journal, records) = open(alloc, disk_of(alloc, &[5])?)?;
    assert_eq!(rt; records.len(), 0);
    assert_eq!(rt; journal.stop().bytes(), [1u8, 0].as_slice());
    Ok(())
}

/// How many records are left of one and another, whose append stops at the `k`-th device call, after
/// the crash `how`.
fn left_by(alloc: Global, k: u64, how: u64) -> Result<usize, Fail>
    requires { 1 ≤ k }
{
    let disk = Fused::new(MemDisk::new(alloc, Vec::new(alloc)));
    let (journal, _) = open(alloc, disk)?;
    let mut journal = append(journal, closed(1))?;
    journal.room()?;
    journal.arm(k);
    match journal.append(closed(2)) {
        Ok((_, kept)) => {
            let _ = kept.spend();
            Err(Fail::new("not stopped"))
        }
        Err(stopped) => {
            let Stopped { mut disk, rec: _ } = stopped;
            disk.crash(how);
            let (_, records) = open(alloc, disk)?;
            Ok(records.len())
        }
    }
}

#[test]
fn stop_at_each_call(rt: HostRuntime) -> Result<(), Fail> {
    let alloc = rt.alloc();
    for how in [0, 1, 2, 5] {
        assert_eq!(rt; left_by(alloc, 1, how)?, 1);
        assert_eq!(rt; left_by(alloc, 2, how)?, 1);
    }
    for k in [3, 4] {
        assert_eq!(rt; left_by(alloc, k, 0)?, 1);
        assert_eq!(rt; left_by(alloc, k, 1)?, 2);
        assert_eq!(rt; left_by(alloc, k, 2)?, 1);
        assert_eq!(rt; left_by(alloc, k, 5)?, 2);
    }
    Ok(())
}

#[test]
fn disarmed_in_time(rt: HostRuntime) -> Result<(), Fail> {
    let alloc = rt.alloc();
    let disk = Fused::new(MemDisk::new(alloc, Vec::new(alloc)));
    let (mut journal, _) = open(alloc, disk)?;
    journal.arm(1);
    journal.disarm();
    let journal = append(journal, closed(1))?;
    assert_eq!(rt; journal.count(), 1);
    Ok(())
}

/// A disk to which a journal wrote 3,000 records.
fn three_thousand(alloc: Global) -> Result<MemDisk, Fail>
    ensures { IfOk result (λ disk. IsSettled (memory_file disk)) }
{
    let (mut journal, _) = open(alloc, MemDisk::new(alloc, Vec::new(alloc)))?;
    for t in 1..=3000 {
        journal = append(journal, closed(t))?;
    }
    Ok(journal.stop())
}

#[test]
fn three_thousand_records(rt: HostRuntime) -> Result<(), Fail> {
    let alloc = rt.alloc();
    let (journal, records) = open(alloc, three_thousand(alloc)?)?;
    assert_eq!(rt; journal.count(), 3000);
    assert_eq!(rt; records.len(), 3000);
    assert!(rt; alike(alloc, &records[2999..], &[closed(3000)])?);
    Ok(())
}

/// A file of version 2 and generation 1: a Prepared and an Ended of transaction 1; a closed gate.
const TWO_RECORDS: [u8; 63] = [
    2, 0, 0, 0, 0, 0, 0, 0, 1, // the version and the generation
    1, 0, 0x23, 1, 0, 1, 1, 2, 1, 2, 0, 0, 0, 0, 0, 0, 0, 0, 0, 0, 0, 0, 0, 0, 0, 1, 0, 1, 1, 0x62,
    0, 0, 0, 0, 0, 0, 0, 0x0b, // Prepared
    1, 0, 0x0c, 2, 0, 1, 1, 0, 0, 0, 0, 0, 0, 0, 1, // Ended
    0,
];

fn pair_of<D: Disk>(alloc: Global, first: D, second: D) -> Result<(Pair<D>, Vec<Record>), Fail>
    requires first { Settled (D.tells first) (D.file first) }
    requires second { Settled (D.tells second) (D.file second) }
{
    match Pair::open(alloc, first, second) {
        Ok(opened) => Ok(opened),
        Err(_) => Err(Fail::new("no pair")),
    }
}

/// A pair whose live file has the four records, and whose other file has these bytes.
fn pair_with(alloc: Global, other: &[u8]) -> Result<Pair<MemDisk>, Fail> {
    let (pair, _) = pair_of(alloc, four_records(alloc)?, disk_of(alloc, other)?)?;
    Ok(pair)
}

fn add<D: Disk>(pair: Pair<D>, rec: Record) -> Result<Pair<D>, Fail>
    requires { CanEncode rec }
{
    let mut pair = pair;
    pair.room()?;
    match pair.append(rec) {
        Ok((pair, kept)) => {
            let _ = kept.spend();
            Ok(pair)
        }
        Err(_) => Err(Fail::new("stopped")),
    }
}

/// A compaction of the pair, done or stopped.
fn compact<D: Disk>(pair: Pair<D>) -> Result<Result<Pair<D>, Compacting<D>>, Fail> {
    let mut pair = pair;
    let records = pair.small()?;
    if pair.generation() == u64::MAX {
        return Err(Fail::new("the last generation"));
    }
    pair.room_for(&records)?;
    Ok(pair.compact(&records))
}

fn compacted<D: Disk>(pair: Pair<D>) -> Result<Pair<D>, Fail> {
    match compact(pair)? {
        Ok(pair) => Ok(pair),
        Err(_) => Err(Fail::new("stopped")),
    }
}

#[test]
fn compaction_bytes(rt: HostRuntime) -> Result<(), Fail> {
    let pair = compacted(pair_with(rt.alloc(), &[])?)?;
    assert_eq!(rt; pair.generation(), 1);
    assert_eq!(rt; pair.count(), 2);
    let (first, second) = pair.stop();
    assert_eq!(rt; first.bytes(), FOUR_RECORDS.as_slice());
    assert_eq!(rt; second.bytes(), TWO_RECORDS.as_slice());
    Ok(())
}

/// The pair that its two disks open to.
fn reopened(alloc: Global, pair: Pair<MemDisk>) -> Result<Pair<MemDisk>, Fail> {
    let (first, second) = pair.stop();
    let (pair, _) = pair_of(alloc, first, second)?;
    Ok(pair)
}

/// Whether these are the bytes of the two records under generation 2, but for what stands behind them.
fn is_second(bytes: &[u8]) -> bool {
    bytes.len() == 69 && bytes[8] == 2 && bytes[9..62] == TWO_RECORDS[9..62]
}

#[test]
fn there_and_back(rt: HostRuntime) -> Result<(), Fail> {
    let alloc = rt.alloc();
    let pair = compacted(pair_with(alloc, &[])?)?;
    let pair = compacted(reopened(alloc, pair)?)?;
    let pair = add(reopened(alloc, pair)?, closed(2))?;
    assert_eq!(rt; pair.generation(), 2);
    assert_eq!(rt; pair.count(), 3);
    let (first, second) = pair.stop();
    assert!(rt; is_second(first.bytes()));
    assert_eq!(rt; second.bytes(), TWO_RECORDS.as_slice());
    Ok(())
}

/// How many records are left, and under which generation, where a compaction of the pair stops at the
/// `k`-th device call, after the crash `how`.
fn left_behind(alloc: Global, pair: Pair<MemDisk>, k: u64, how: u64) -> Result<(usize, u64), Fail>
    requires { 1 ≤ k }
{
    let (first, second) = pair.stop();
    let (mut pair, _) = pair_of(alloc, Fused::new(first), Fused::new(second))?;
    pair.arm(k);
    match compact(pair)? {
        Ok(_) => Err(Fail::new("not stopped")),
        Err(stopped) => {
            let Compacting {
                mut first,
                mut second,
            } = stopped;
            first.crash(how);
            second.crash(how);
            let (pair, records) = pair_of(alloc, first, second)?;
            Ok((records.len(), pair.generation()))
        }
    }
}

/// Whether such a stop leaves the four records in the live file.
fn leaves_old(alloc: Global, other: &[u8], k: u64, how: u64) -> Result<bool, Fail>
    requires { 1 ≤ k }
{
    let (count, generation) = left_behind(alloc, pair_with(alloc, other)?, k, how)?;
    Ok(count == 4 && generation == 0)
}

/// Whether such a stop leaves the two records in the other file.
fn leaves_new(alloc: Global, other: &[u8], k: u64, how: u64) -> Result<bool, Fail>
    requires { 1 ≤ k }
{
    let (count, generation) = left_behind(alloc, pair_with(alloc, other)?, k, how)?;
    Ok(count == 2 && generation == 1)
}

#[test]
fn compaction_stopped(rt: HostRuntime) -> Result<(), Fail> {
    let alloc = rt.alloc();
    for how in [0, 1, 2, 5, 8] {
        for k in 1..5 {
            assert!(rt; leaves_old(alloc, &[], k, how)?);
        }
    }
    for k in 5..7 {
        for how in [0, 2, 5] {
            assert!(rt; leaves_old(alloc, &[], k, how)?);
        }
        for how in [1, 8] {
            assert!(rt; leaves_new(alloc, &[], k, how)?);
        }
    }
    Ok(())
}

#[test]
fn first_byte_of_the_other(rt: HostRuntime) -> Result<(), Fail> {
    let alloc = rt.alloc();
    for k in 1..7 {
        assert!(rt; leaves_old(alloc, &FOUR_RECORDS, k, 8)?);
    }
    for k in 7..9 {
        assert!(rt; leaves_new(alloc, &FOUR_RECORDS, k, 8)?);
    }
    for k in 1..5 {
        assert!(rt; leaves_old(alloc, &[5, 1, 2], k, 8)?);
    }
    for k in 5..7 {
        assert!(rt; leaves_new(alloc, &[5, 1, 2], k, 8)?);
    }
    Ok(())
}

/// The same of a pair of generation 2 whose other file is of generation 1: whether two records are left.
fn leaves_second(alloc: Global, k: u64, how: u64) -> Result<bool, Fail>
    requires { 1 ≤ k }
{
    let pair = compacted(compacted(pair_with(alloc, &[])?)?)?;
    let (count, generation) = left_behind(alloc, pair, k, how)?;
    Ok(count == 2 && generation == 2)
}

#[test]
fn later_compaction_stopped(rt: HostRuntime) -> Result<(), Fail> {
    let alloc = rt.alloc();
    for k in 1..7 {
        for how in [0, 1, 2, 8, 767] {
            assert!(rt; leaves_second(alloc, k, how)?);
        }
    }
    Ok(())
}
