//! Worked runs with stops: their texts, and what they leave on the disks.
ghost use Rattle.std.specs.Prelude.{IfOk};
ghost use Rattle.score_cli.specs.Disks.{AreBlank};

use crate::tests::{call, call_over, called, compare, runs};
use crate::{commit_stops, rows, stop_disks, stop_rows};
use score_base::{Memory, push};
use score_cli::memory_disks;
use score_disk::{Disk, MemDisk};
use std::alloc::Global;
use std::process::Abort;
use std::test::Fail;

fn put_pieces(bytes: &mut Vec<u8>, pieces: &[&str]) -> Result<(), Memory> {
    for piece in pieces {
        bytes.extend_from_slice(piece.as_bytes())?;
    }
    Ok(())
}

/// These pieces, one behind the other.
fn joined(alloc: Global, pieces: &[&str]) -> Result<Vec<u8>, Memory> {
    let mut bytes = Vec::new(alloc);
    put_pieces(&mut bytes, pieces)?;
    Ok(bytes)
}

/// A document in which this node has a fuse.
fn with_fuse(
    alloc: Global,
    front: &str,
    node: &str,
    pair: &str,
    rest: &str,
) -> Result<Vec<u8>, Memory> {
    joined(alloc, &[front, "fuse ", node, " ", pair, "\n", rest])
}

/// What such a run gives: what stands before the fuse is armed, and these pieces behind it.
fn text_with_fuse(
    alloc: Global,
    front: &str,
    node: &str,
    pair: &str,
    behind: &[&str],
) -> Result<Vec<u8>, Memory> {
    let mut text = joined(alloc, &[front, "armed ", node, " ", pair, "\n"])?;
    put_pieces(&mut text, behind)?;
    Ok(text)
}

/// One run with a fuse, compared with its text.
fn stopped_run(
    rt: &impl Abort,
    alloc: Global,
    node: &str,
    pair: &str,
    front: &str,
    rest: &str,
    text: &str,
    behind: &[&str],
) -> Result<(), Memory> {
    let document = with_fuse(alloc, front, node, pair, rest)?;
    let wanted = text_with_fuse(alloc, text, node, pair, behind)?;
    let (code, bytes) = call(alloc, "run", document, 0, 0)?;
    compare(
        rt,
        pair,
        code,
        &bytes,
        0,
        str::from_utf8(&wanted).unwrap_or("no text"),
    );
    Ok(())
}

/// The same run for each pair of a call that stops and how the disk crashes.
fn stopped_runs(
    rt: &impl Abort,
    alloc: Global,
    pairs: &[&str],
    front: &str,
    rest: &str,
    text: &str,
    behind: &str,
) -> Result<(), Memory> {
    for pair in pairs {
        stopped_run(rt, alloc, "n1", pair, front, rest, text, &[behind])?;
    }
    Ok(())
}

/// Stops in a commit, for each line of a table: of a node, in the record whose pieces these are.
fn stopped_commits(
    rt: &impl Abort,
    alloc: Global,
    node: &str,
    rest: &str,
    pairs: &str,
    behind: &[&str],
) -> Result<(), Memory> {
    for pair in pairs.split('\n') {
        if !pair.is_empty() {
            stopped_run(
                rt,
                alloc,
                node,
                pair,
                commit_stops::COMMIT_STOPS,
                rest,
                "up n1 none\nup n2 none\n",
                behind,
            )?;
        }
    }
    Ok(())
}

/// A digit of a hexadecimal number.
fn digit(number: u8) -> u8 {
    if number < 10 {
        b'0'.saturating_add(number)
    } else {
        b'a'.saturating_add(number.saturating_sub(10))
    }
}

/// Bytes in hexadecimal digits.
fn digits(alloc: Global, bytes: &[u8]) -> Result<Vec<u8>, Memory> {
    let mut digits = Vec::new(alloc);
    for byte in bytes {
        digits.push(digit(*byte / 16))?;
        digits.push(digit(*byte % 16))?;
    }
    Ok(digits)
}

/// The disks hold these files, from the first on, and no others.
pub fn have_files(
    rt: &impl Abort,
    alloc: Global,
    name: &str,
    disks: &[MemDisk],
    files: &[&str],
) -> Result<(), Memory> {
    let mut place = 0usize;
    for disk in disks {
        let held = digits(alloc, disk.bytes())?;
        assert_eq!(rt;
            str::from_utf8(&held).unwrap_or("no text"),
            *files.get(place).unwrap_or(&""),
            "{name}, the file at place {place}"
        );
        place = place.saturating_add(1);
    }
    Ok(())
}

/// One run, whose disks are compared.
fn leaves(
    rt: &impl Abort,
    alloc: Global,
    name: &str,
    document: &[&str],
    files: &[&str],
) -> Result<(), Memory> {
    let mut disks = memory_disks(alloc)?;
    let bytes = joined(alloc, document)?;
    let (code, _) = call_over(alloc, "run", bytes, 0, 0, &mut disks)?;
    assert_eq!(rt; code, 0, "{name}, the code");
    have_files(rt, alloc, name, disks.as_slice(), files)
}

/// Stops at the decision, for each pair: they leave these files.
fn stops_leave(
    rt: &impl Abort,
    alloc: Global,
    pairs: &[&str],
    files: &[&str],
) -> Result<(), Memory> {
    for pair in pairs {
        let document = [
            stop_rows::STOP_AT_THE_DECISION,
            "fuse n1 ",
            pair,
            "\n",
            stop_rows::STOP_AT_THE_DECISION_REST,
        ];
        leaves(rt, alloc, pair, &document, files)?;
    }
    Ok(())
}

/// The numbers of the calls of a disk that fail: this one, or none.
fn failing_call(alloc: Global, fails: bool, call: u64) -> Result<Vec<u64>, Memory> {
    let mut calls = Vec::new(alloc);
    if fails {
        calls.push(call)?;
    }
    Ok(calls)
}

/// Disks in memory, of which that at this place fails once, at this call.
fn failing_disks(alloc: Global, place: usize, call: u64) -> Result<Vec<MemDisk>, Memory>
    ensures { IfOk result (λ disks. AreBlank ⟦<MemDisk as Disk>⟧ disks.items) }
{
    let mut disks = Vec::new(alloc);
    for i in 0..32usize {
        let calls = failing_call(alloc, i == place, call)?;
        push(&mut disks, MemDisk::new(alloc, calls))?;
    }
    Ok(disks)
}

/// One run in which a call of the first disk of node 2 fails, compared with its text.
fn failing_run(
    rt: &impl Abort,
    alloc: Global,
    call: u64,
    document: &str,
    text: &str,
) -> Result<Vec<MemDisk>, Memory> {
    let mut disks = failing_disks(alloc, 2, call)?;
    let bytes = joined(alloc, &[document])?;
    let (code, written) = call_over(alloc, "run", bytes, 0, 0, &mut disks)?;
    compare(rt, "a call that fails", code, &written, 0, text);
    Ok(disks)
}

/// The same run for each of these calls.
fn failing_runs(
    rt: &impl Abort,
    alloc: Global,
    first: u64,
    last: u64,
    document: &str,
    text: &str,
) -> Result<(), Memory> {
    for call in first..=last {
        let _ = failing_run(rt, alloc, call, document, text)?;
    }
    Ok(())
}

#[test]
fn stops(rt: HostRuntime) {
    let alloc = rt.alloc();
    runs(
        &rt,
        alloc,
        "ceiling after a crash",
        stop_rows::CEILING_AFTER_CRASH,
        stop_rows::CEILING_AFTER_CRASH_TEXT,
    );
    runs(
        &rt,
        alloc,
        "presumed abort",
        stop_rows::PRESUMED_ABORT,
        stop_rows::PRESUMED_ABORT_TEXT,
    );
    runs(
        &rt,
        alloc,
        "retry at the other holder",
        stop_rows::RETRY_AT_THE_OTHER_HOLDER,
        stop_rows::RETRY_AT_THE_OTHER_HOLDER_TEXT,
    );
    runs(
        &rt,
        alloc,
        "void events",
        stop_rows::VOID_EVENTS,
        stop_rows::VOID_EVENTS_TEXT,
    );
    runs(
        &rt,
        alloc,
        "stop at an opening",
        stop_rows::STOP_AT_AN_OPENING,
        stop_rows::STOP_AT_AN_OPENING_TEXT,
    );
    runs(
        &rt,
        alloc,
        "items at their limits",
        stop_rows::ITEMS_AT_THEIR_LIMITS,
        stop_rows::ITEMS_AT_THEIR_LIMITS_TEXT,
    );
    runs(
        &rt,
        alloc,
        "told by a peer",
        stop_rows::TOLD_BY_A_PEER,
        stop_rows::TOLD_BY_A_PEER_TEXT,
    );
    runs(
        &rt,
        alloc,
        "peer in doubt",
        stop_rows::PEER_IN_DOUBT,
        stop_rows::PEER_IN_DOUBT_TEXT,
    );
    runs(
        &rt,
        alloc,
        "compaction where down",
        stop_rows::COMPACTION_WHERE_DOWN,
        stop_rows::COMPACTION_WHERE_DOWN_TEXT,
    );
    runs(
        &rt,
        alloc,
        "compaction",
        stop_rows::COMPACTION,
        stop_rows::COMPACTION_TEXT,
    );
    runs(
        &rt,
        alloc,
        "second compaction",
        stop_rows::SECOND_COMPACTION,
        stop_rows::SECOND_COMPACTION_TEXT,
    );
    runs(
        &rt,
        alloc,
        "fuse ended by a compaction",
        stop_rows::FUSE_ENDED_BY_A_COMPACTION,
        stop_rows::FUSE_ENDED_BY_A_COMPACTION_TEXT,
    );
}

#[test]
fn tables(rt: HostRuntime) -> Result<(), Fail> {
    let alloc = rt.alloc();
    stopped_runs(
        &rt,
        alloc,
        &stop_rows::STOP_AT_THE_DECISION_GONE,
        stop_rows::STOP_AT_THE_DECISION,
        stop_rows::STOP_AT_THE_DECISION_REST,
        stop_rows::STOP_AT_THE_DECISION_TEXT,
        stop_rows::STOP_AT_THE_DECISION_GONE_TEXT,
    )?;
    stopped_runs(
        &rt,
        alloc,
        &stop_rows::STOP_AT_THE_DECISION_KEPT,
        stop_rows::STOP_AT_THE_DECISION,
        stop_rows::STOP_AT_THE_DECISION_REST,
        stop_rows::STOP_AT_THE_DECISION_TEXT,
        stop_rows::STOP_AT_THE_DECISION_KEPT_TEXT,
    )?;
    stopped_runs(
        &rt,
        alloc,
        &stop_rows::STOP_AT_A_COMPACTION_GONE,
        stop_rows::STOP_AT_A_COMPACTION,
        stop_rows::STOP_AT_A_COMPACTION_REST,
        stop_rows::STOP_AT_A_COMPACTION_TEXT,
        stop_rows::STOP_AT_A_COMPACTION_GONE_TEXT,
    )?;
    stopped_runs(
        &rt,
        alloc,
        &stop_rows::STOP_AT_A_COMPACTION_KEPT,
        stop_rows::STOP_AT_A_COMPACTION,
        stop_rows::STOP_AT_A_COMPACTION_REST,
        stop_rows::STOP_AT_A_COMPACTION_TEXT,
        stop_rows::STOP_AT_A_COMPACTION_KEPT_TEXT,
    )?;
    stopped_runs(
        &rt,
        alloc,
        &stop_rows::STOP_AT_A_COMPACTION_OVER_A_FIRST_JOURNAL_GONE,
        stop_rows::STOP_AT_A_COMPACTION_OVER_A_FIRST_JOURNAL,
        stop_rows::STOP_AT_A_COMPACTION_OVER_A_FIRST_JOURNAL_REST,
        stop_rows::STOP_AT_A_COMPACTION_OVER_A_FIRST_JOURNAL_TEXT,
        stop_rows::STOP_AT_A_COMPACTION_OVER_A_FIRST_JOURNAL_GONE_TEXT,
    )?;
    stopped_runs(
        &rt,
        alloc,
        &stop_rows::STOP_AT_A_COMPACTION_OVER_A_FIRST_JOURNAL_KEPT,
        stop_rows::STOP_AT_A_COMPACTION_OVER_A_FIRST_JOURNAL,
        stop_rows::STOP_AT_A_COMPACTION_OVER_A_FIRST_JOURNAL_REST,
        stop_rows::STOP_AT_A_COMPACTION_OVER_A_FIRST_JOURNAL_TEXT,
        stop_rows::STOP_AT_A_COMPACTION_OVER_A_FIRST_JOURNAL_KEPT_TEXT,
    )?;
    stopped_runs(
        &rt,
        alloc,
        &stop_rows::STOP_AT_A_COMPACTION_OVER_A_SMALL_ONE_GONE,
        stop_rows::STOP_AT_A_COMPACTION_OVER_A_SMALL_ONE,
        stop_rows::STOP_AT_A_COMPACTION_OVER_A_SMALL_ONE_REST,
        stop_rows::STOP_AT_A_COMPACTION_OVER_A_SMALL_ONE_TEXT,
        stop_rows::STOP_AT_A_COMPACTION_OVER_A_SMALL_ONE_GONE_TEXT,
    )?;
    stopped_runs(
        &rt,
        alloc,
        &stop_rows::STOP_AT_A_COMPACTION_OVER_A_SMALL_ONE_KEPT,
        stop_rows::STOP_AT_A_COMPACTION_OVER_A_SMALL_ONE,
        stop_rows::STOP_AT_A_COMPACTION_OVER_A_SMALL_ONE_REST,
        stop_rows::STOP_AT_A_COMPACTION_OVER_A_SMALL_ONE_TEXT,
        stop_rows::STOP_AT_A_COMPACTION_OVER_A_SMALL_ONE_KEPT_TEXT,
    )?;
    Ok(())
}

#[test]
fn commits_to_the_decision(rt: HostRuntime) -> Result<(), Fail> {
    let alloc = rt.alloc();
    stopped_commits(
        &rt,
        alloc,
        "n1",
        commit_stops::COMMIT_STOPS_FIRST_NODE,
        commit_stops::FIRST_RECORD_GONE,
        &[
            commit_stops::TO_FIRST_PREPARED,
            commit_stops::FIRST_PREPARED_GONE,
        ],
    )?;
    stopped_commits(
        &rt,
        alloc,
        "n1",
        commit_stops::COMMIT_STOPS_FIRST_NODE,
        commit_stops::FIRST_RECORD_KEPT,
        &[
            commit_stops::TO_FIRST_PREPARED,
            commit_stops::FIRST_PREPARED_KEPT,
        ],
    )?;
    stopped_commits(
        &rt,
        alloc,
        "n2",
        commit_stops::COMMIT_STOPS_SECOND_NODE,
        commit_stops::FIRST_RECORD_GONE,
        &[
            commit_stops::TO_FIRST_PREPARED,
            commit_stops::TO_SECOND_PREPARED,
            commit_stops::SECOND_PREPARED_GONE,
        ],
    )?;
    stopped_commits(
        &rt,
        alloc,
        "n2",
        commit_stops::COMMIT_STOPS_SECOND_NODE,
        commit_stops::FIRST_RECORD_KEPT,
        &[
            commit_stops::TO_FIRST_PREPARED,
            commit_stops::TO_SECOND_PREPARED,
            commit_stops::SECOND_PREPARED_KEPT,
        ],
    )?;
    stopped_commits(
        &rt,
        alloc,
        "n1",
        commit_stops::COMMIT_STOPS_FIRST_NODE,
        commit_stops::SECOND_RECORD_GONE,
        &[
            commit_stops::TO_FIRST_PREPARED,
            commit_stops::TO_SECOND_PREPARED,
            commit_stops::TO_DECIDED,
            commit_stops::DECIDED_GONE,
        ],
    )?;
    stopped_commits(
        &rt,
        alloc,
        "n1",
        commit_stops::COMMIT_STOPS_FIRST_NODE,
        commit_stops::SECOND_RECORD_KEPT,
        &[
            commit_stops::TO_FIRST_PREPARED,
            commit_stops::TO_SECOND_PREPARED,
            commit_stops::TO_DECIDED,
            commit_stops::DECIDED_KEPT,
        ],
    )?;
    Ok(())
}

#[test]
fn commits_behind_the_decision(rt: HostRuntime) -> Result<(), Fail> {
    let alloc = rt.alloc();
    stopped_commits(
        &rt,
        alloc,
        "n1",
        commit_stops::COMMIT_STOPS_FIRST_NODE,
        commit_stops::THIRD_RECORD_GONE,
        &[
            commit_stops::TO_FIRST_PREPARED,
            commit_stops::TO_SECOND_PREPARED,
            commit_stops::TO_DECIDED,
            commit_stops::TO_FIRST_ENDED,
            commit_stops::FIRST_ENDED_GONE,
        ],
    )?;
    stopped_commits(
        &rt,
        alloc,
        "n1",
        commit_stops::COMMIT_STOPS_FIRST_NODE,
        commit_stops::THIRD_RECORD_KEPT,
        &[
            commit_stops::TO_FIRST_PREPARED,
            commit_stops::TO_SECOND_PREPARED,
            commit_stops::TO_DECIDED,
            commit_stops::TO_FIRST_ENDED,
            commit_stops::FIRST_ENDED_KEPT,
        ],
    )?;
    stopped_commits(
        &rt,
        alloc,
        "n2",
        commit_stops::COMMIT_STOPS_SECOND_NODE,
        commit_stops::SECOND_RECORD_GONE,
        &[
            commit_stops::TO_FIRST_PREPARED,
            commit_stops::TO_SECOND_PREPARED,
            commit_stops::TO_DECIDED,
            commit_stops::TO_FIRST_ENDED,
            commit_stops::TO_SECOND_ENDED,
            commit_stops::SECOND_ENDED_GONE,
        ],
    )?;
    stopped_commits(
        &rt,
        alloc,
        "n2",
        commit_stops::COMMIT_STOPS_SECOND_NODE,
        commit_stops::SECOND_RECORD_KEPT,
        &[
            commit_stops::TO_FIRST_PREPARED,
            commit_stops::TO_SECOND_PREPARED,
            commit_stops::TO_DECIDED,
            commit_stops::TO_FIRST_ENDED,
            commit_stops::TO_SECOND_ENDED,
            commit_stops::SECOND_ENDED_KEPT,
        ],
    )?;
    stopped_commits(
        &rt,
        alloc,
        "n1",
        commit_stops::COMMIT_STOPS_FIRST_NODE,
        commit_stops::FOURTH_RECORD_GONE,
        &[
            commit_stops::TO_FIRST_PREPARED,
            commit_stops::TO_SECOND_PREPARED,
            commit_stops::TO_DECIDED,
            commit_stops::TO_FIRST_ENDED,
            commit_stops::TO_SECOND_ENDED,
            commit_stops::TO_CLOSED,
            commit_stops::CLOSED_GONE,
        ],
    )?;
    stopped_commits(
        &rt,
        alloc,
        "n1",
        commit_stops::COMMIT_STOPS_FIRST_NODE,
        commit_stops::FOURTH_RECORD_KEPT,
        &[
            commit_stops::TO_FIRST_PREPARED,
            commit_stops::TO_SECOND_PREPARED,
            commit_stops::TO_DECIDED,
            commit_stops::TO_FIRST_ENDED,
            commit_stops::TO_SECOND_ENDED,
            commit_stops::TO_CLOSED,
            commit_stops::CLOSED_KEPT,
        ],
    )?;
    Ok(())
}

#[test]
fn files(rt: HostRuntime) -> Result<(), Fail> {
    let alloc = rt.alloc();
    leaves(
        &rt,
        alloc,
        "read then write",
        &[rows::READ_THEN_WRITE],
        &stop_disks::READ_THEN_WRITE_DISKS,
    )?;
    leaves(
        &rt,
        alloc,
        "ceiling after a crash",
        &[stop_rows::CEILING_AFTER_CRASH],
        &stop_disks::CEILING_AFTER_CRASH_DISKS,
    )?;
    leaves(
        &rt,
        alloc,
        "presumed abort",
        &[stop_rows::PRESUMED_ABORT],
        &stop_disks::PRESUMED_ABORT_DISKS,
    )?;
    leaves(
        &rt,
        alloc,
        "told by a peer",
        &[stop_rows::TOLD_BY_A_PEER],
        &stop_disks::TOLD_BY_A_PEER_DISKS,
    )?;
    leaves(
        &rt,
        alloc,
        "compaction",
        &[stop_rows::COMPACTION],
        &stop_disks::COMPACTION_DISKS,
    )?;
    leaves(
        &rt,
        alloc,
        "second compaction",
        &[stop_rows::SECOND_COMPACTION],
        &stop_disks::SECOND_COMPACTION_DISKS,
    )?;
    Ok(())
}

#[test]
fn files_of_stops(rt: HostRuntime) -> Result<(), Fail> {
    let alloc = rt.alloc();
    stops_leave(
        &rt,
        alloc,
        &stop_disks::STOP_AT_THE_DECISION_NOTHING_WRITTEN,
        &stop_disks::STOP_AT_THE_DECISION_NOTHING_WRITTEN_DISKS,
    )?;
    stops_leave(
        &rt,
        alloc,
        &stop_disks::STOP_AT_THE_DECISION_BEHIND_THE_GATE,
        &stop_disks::STOP_AT_THE_DECISION_BEHIND_THE_GATE_DISKS,
    )?;
    stops_leave(
        &rt,
        alloc,
        &stop_disks::STOP_AT_THE_DECISION_ZEROS,
        &stop_disks::STOP_AT_THE_DECISION_ZEROS_DISKS,
    )?;
    stops_leave(
        &rt,
        alloc,
        &stop_disks::STOP_AT_THE_DECISION_ONES,
        &stop_disks::STOP_AT_THE_DECISION_ONES_DISKS,
    )?;
    stops_leave(
        &rt,
        alloc,
        &stop_disks::STOP_AT_THE_DECISION_KEPT,
        &stop_disks::STOP_AT_THE_DECISION_KEPT_DISKS,
    )?;
    Ok(())
}

#[test]
fn failing_calls(rt: HostRuntime) -> Result<(), Fail> {
    let alloc = rt.alloc();
    failing_runs(
        &rt,
        alloc,
        1,
        2,
        commit_stops::FAILING_CALL_AT_THE_START,
        commit_stops::FAILING_CALL_AT_THE_START_TEXT,
    )?;
    failing_runs(
        &rt,
        alloc,
        3,
        6,
        stop_rows::FAILING_DEVICE_CALL,
        stop_rows::FAILING_DEVICE_CALL_TEXT,
    )?;
    failing_runs(
        &rt,
        alloc,
        7,
        10,
        commit_stops::FAILING_CALL_AT_THE_END,
        commit_stops::FAILING_CALL_AT_THE_END_TEXT,
    )?;
    failing_runs(
        &rt,
        alloc,
        3,
        3,
        stop_rows::STOP_AT_THE_PREPARE,
        stop_rows::STOP_AT_THE_PREPARE_TEXT,
    )?;
    Ok(())
}

#[test]
fn files_of_a_failing_call(rt: HostRuntime) -> Result<(), Fail> {
    let alloc = rt.alloc();
    let disks = failing_run(
        &rt,
        alloc,
        3,
        stop_rows::FAILING_DEVICE_CALL,
        stop_rows::FAILING_DEVICE_CALL_TEXT,
    )?;
    have_files(
        &rt,
        alloc,
        "a call that fails",
        disks.as_slice(),
        &stop_disks::FAILING_DEVICE_CALL_DISKS,
    )?;
    Ok(())
}

#[test]
fn refused_items(rt: HostRuntime) {
    let alloc = rt.alloc();
    for row in &stop_rows::REFUSED_ITEMS {
        called(
            &rt,
            alloc,
            row.0,
            "run",
            stop_rows::REFUSED_ITEMS_FRONT,
            row.0,
            0,
            0,
            3,
            row.1,
        );
    }
}
