//! Worked documents and their text; each refusal and each fault with its code.
ghost use Rattle.score_cli.specs.Disks.{AreBlank};

use crate::{rows, stop_rows};
use score_base::Memory;
use score_cli::{memory_disks, score};
use score_disk::{Disk, MemDisk};
use score_io::{MemSink, MemSource};
use std::alloc::Global;
use std::process::Abort;
use std::test::Fail;

const HEAD: &str = "\
nodes 2
partition 0 n1
partition 1 n2
init a 10
init b 0
";

const EMPTY_SCHEDULE: &str = "schedule\n";

const EMPTY_SCHEDULE_TEXT: &str = "\
up n1 none
up n2 none
summary
key a n2 10 0
key b n1 0 0
";

const FIRST_READ: &str = "\
tx 1 n1
read a
end
schedule
begin 1
deliver 1
deliver 2
";

const FIRST_READ_TEXT: &str = "\
up n1 none
up n2 none
began 1 n1 0
sent 1 n1 n2 readreq 1 1 a first 0
got 1
served n2 1 1 a 0 0 10
sent 2 n2 n1 readrep 1 1 0 10
got 2
taken 1 1 0 10
finished 1
summary
tx 1 read 0
key a n2 10 0
key b n1 0 0
";

/// The words of a line.
fn words_of(alloc: Global, line: &str) -> Result<Vec<String>, Memory> {
    let mut words = Vec::new(alloc);
    for word in line.split(' ') {
        if !word.is_empty() {
            words.push(String::from_str(alloc, word)?)?;
        }
    }
    Ok(words)
}

/// One call of the top call over these disks: the code that it answers, and what it writes.
pub fn call_over(
    alloc: Global,
    line: &str,
    bytes: Vec<u8>,
    source_fails: u64,
    sink_fails: u64,
    disks: &mut Vec<MemDisk>,
) -> Result<(u8, Vec<u8>), Memory>
    requires { AreBlank ⟦<MemDisk as Disk>⟧ disks.old.items }
{
    let words = words_of(alloc, line)?;
    let mut source = MemSource::new(bytes, [source_fails].to_vec(alloc)?);
    let mut sink = MemSink::new(alloc, [sink_fails].to_vec(alloc)?);
    let status = score(alloc, &words, &mut source, &mut sink, disks);
    Ok((status.code, Vec::from_slice(alloc, sink.bytes())?))
}

/// One call of the top call over disks that do not fail.
pub fn call(
    alloc: Global,
    line: &str,
    bytes: Vec<u8>,
    source_fails: u64,
    sink_fails: u64,
) -> Result<(u8, Vec<u8>), Memory> {
    let mut disks = memory_disks(alloc)?;
    call_over(alloc, line, bytes, source_fails, sink_fails, &mut disks)
}

/// The bytes of a document in two pieces.
fn bytes_of(alloc: Global, head: &str, rest: &str) -> Result<Vec<u8>, Memory> {
    let mut bytes = Vec::from_slice(alloc, head.as_bytes())?;
    bytes.extend_from_slice(rest.as_bytes())?;
    Ok(bytes)
}

/// A line of a text, from 0; behind the last one nothing.
fn line_at(text: &str, number: usize) -> &str {
    text.split('\n').nth(number).unwrap_or("")
}

/// The first line in which two texts differ, or one behind the last.
fn first_difference(one: &str, other: &str) -> usize {
    let mut number = 0;
    for line in one.split('\n') {
        if line != line_at(other, number) {
            return number;
        }
        number = number.saturating_add(1);
    }
    number
}

/// What a row of this name answered is what it should be; else the row and the first line at fault are shown.
pub fn compare(rt: &impl Abort, name: &str, code: u8, bytes: &[u8], wanted_code: u8, wanted: &str) {
    let text = str::from_utf8(bytes).unwrap_or("bytes that are no text");
    let at = first_difference(text, wanted);
    let number = at.saturating_add(1);
    assert_eq!(rt;
        line_at(text, at),
        line_at(wanted, at),
        "{name}, line {number}"
    );
    assert_eq!(rt; code, wanted_code, "{name}, the code");
}

/// One call of the top call, compared with the code and the text that it should have.
pub fn called(
    rt: &impl Abort,
    alloc: Global,
    name: &str,
    line: &str,
    head: &str,
    rest: &str,
    source_fails: u64,
    sink_fails: u64,
    code: u8,
    text: &str,
) {
    let answer = match bytes_of(alloc, head, rest) {
        Ok(bytes) => call(alloc, line, bytes, source_fails, sink_fails),
        Err(memory) => Err(memory),
    };
    match answer {
        Ok((answered, bytes)) => compare(rt, name, answered, &bytes, code, text),
        Err(_) => assert!(rt; false, "{name}: want of memory"),
    }
}

pub fn runs(rt: &impl Abort, alloc: Global, name: &str, document: &str, text: &str) {
    called(rt, alloc, name, "run", document, "", 0, 0, 0, text);
}

fn refuses(rt: &impl Abort, alloc: Global, rest: &str, text: &str) {
    called(rt, alloc, rest, "run", HEAD, rest, 0, 0, 3, text);
}

#[test]
fn reads(rt: HostRuntime) {
    let alloc = rt.alloc();
    called(
        &rt,
        alloc,
        "empty schedule",
        "run",
        HEAD,
        EMPTY_SCHEDULE,
        0,
        0,
        0,
        EMPTY_SCHEDULE_TEXT,
    );
    called(
        &rt,
        alloc,
        "first read",
        "run",
        HEAD,
        FIRST_READ,
        0,
        0,
        0,
        FIRST_READ_TEXT,
    );
}

#[test]
fn updates(rt: HostRuntime) {
    let alloc = rt.alloc();
    runs(
        &rt,
        alloc,
        "read then write",
        rows::READ_THEN_WRITE,
        rows::READ_THEN_WRITE_TEXT,
    );
    runs(
        &rt,
        alloc,
        "next update",
        rows::NEXT_UPDATE,
        rows::NEXT_UPDATE_TEXT,
    );
    runs(
        &rt,
        alloc,
        "write conflict",
        rows::WRITE_CONFLICT,
        rows::WRITE_CONFLICT_TEXT,
    );
    runs(
        &rt,
        alloc,
        "stale read refused",
        rows::STALE_READ_REFUSED,
        rows::STALE_READ_REFUSED_TEXT,
    );
    runs(
        &rt,
        alloc,
        "held read",
        rows::HELD_READ,
        rows::HELD_READ_TEXT,
    );
    runs(
        &rt,
        alloc,
        "repeats after the end",
        rows::REPEATS_AFTER_THE_END,
        rows::REPEATS_AFTER_THE_END_TEXT,
    );
    runs(
        &rt,
        alloc,
        "repeated votes",
        rows::REPEATED_VOTES,
        rows::REPEATED_VOTES_TEXT,
    );
    runs(
        &rt,
        alloc,
        "equal finals",
        rows::EQUAL_FINALS,
        rows::EQUAL_FINALS_TEXT,
    );
    runs(&rt, alloc, "own read", rows::OWN_READ, rows::OWN_READ_TEXT);
    runs(&rt, alloc, "session", rows::SESSION, rows::SESSION_TEXT);
    runs(
        &rt,
        alloc,
        "without session",
        rows::WITHOUT_SESSION,
        rows::WITHOUT_SESSION_TEXT,
    );
    runs(
        &rt,
        alloc,
        "bystander gets nothing",
        rows::BYSTANDER_GETS_NOTHING,
        rows::BYSTANDER_GETS_NOTHING_TEXT,
    );
    runs(
        &rt,
        alloc,
        "replicated transfer",
        rows::REPLICATED_TRANSFER,
        rows::REPLICATED_TRANSFER_TEXT,
    );
    runs(
        &rt,
        alloc,
        "lock until applied",
        rows::LOCK_UNTIL_APPLIED,
        rows::LOCK_UNTIL_APPLIED_TEXT,
    );
}

#[test]
fn refusals(rt: HostRuntime) {
    let alloc = rt.alloc();
    refuses(
        &rt,
        alloc,
        "tx 1 n1\nread A\nend\nschedule\n",
        "refused 7 5\n",
    );
    refuses(&rt, alloc, "tx 1 n1\nread a\n", "refused 8 10\n");
    refuses(&rt, alloc, "tx 1 n1\nread a", "refused 7 10\n");
    refuses(
        &rt,
        alloc,
        "tx 1 n1\nwrite b a\nend\nschedule\n",
        "refused 7 7\n",
    );
    refuses(&rt, alloc, "schedule\nretry 1\n", "refused 7 6\n");
    called(
        &rt,
        alloc,
        "empty input",
        "run",
        "",
        "",
        0,
        0,
        3,
        "refused 1 10\n",
    );
    called(
        &rt,
        alloc,
        "usage",
        "run run",
        HEAD,
        EMPTY_SCHEDULE,
        0,
        0,
        2,
        "usage\n",
    );
    called(
        &rt,
        alloc,
        "usage",
        "",
        HEAD,
        EMPTY_SCHEDULE,
        0,
        0,
        2,
        "usage\n",
    );
}

#[test]
fn faults(rt: HostRuntime) {
    let alloc = rt.alloc();
    called(
        &rt,
        alloc,
        "read fault",
        "run",
        HEAD,
        EMPTY_SCHEDULE,
        1,
        0,
        4,
        "read fault\n",
    );
    called(
        &rt,
        alloc,
        "write fault",
        "run",
        HEAD,
        EMPTY_SCHEDULE,
        0,
        1,
        5,
        "",
    );
    called(
        &rt,
        alloc,
        "write fault at the second call",
        "run",
        HEAD,
        EMPTY_SCHEDULE,
        0,
        2,
        5,
        stop_rows::SINK_FAILS_AT_ITS_SECOND_CALL_TEXT,
    );
}

/// The text of a run of so many events that change nothing.
fn text_of_voids(alloc: Global, count: usize) -> Result<Vec<u8>, Memory> {
    let mut text = Vec::from_slice(alloc, b"up n1 none\nup n2 none\n")?;
    for _ in 0..count {
        text.extend_from_slice(b"void 4\n")?;
    }
    text.extend_from_slice(b"summary\nkey a n2 10 0\nkey b n1 0 0\n")?;
    Ok(text)
}

/// As many events as a schedule may have, with no message to deliver.
fn are_all_void(alloc: Global) -> Result<bool, Memory> {
    let words = words_of(alloc, "run")?;
    let bytes = bytes_of(alloc, HEAD, "schedule\nnext 50000\n")?;
    let mut source = MemSource::new(bytes, Vec::new(alloc));
    let mut sink = MemSink::new(alloc, Vec::new(alloc));
    let mut disks = memory_disks(alloc)?;
    let status = score(alloc, &words, &mut source, &mut sink, &mut disks);
    let text = text_of_voids(alloc, 50000)?;
    Ok(status.code == 0 && sink.bytes() == text.as_slice())
}

#[test]
fn event_limit(rt: HostRuntime) {
    let alloc = rt.alloc();
    assert!(rt; matches!(are_all_void(alloc), Ok(true)));
    refuses(
        &rt,
        alloc,
        "schedule\nnext 50000\nnext 1\n",
        "refused 8 9\n",
    );
}

// An input of one byte more than is read.
#[test]
fn too_long(rt: HostRuntime) -> Result<(), Fail> {
    let alloc = rt.alloc();
    let bytes = vec![in alloc; 32u8; 4194305]?;
    let (code, text) = call(alloc, "run", bytes, 0, 0)?;
    compare(&rt, "too long", code, &text, 3, "too long\n");
    Ok(())
}
