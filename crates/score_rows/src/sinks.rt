//! The sink fails in each part of a text, and no event is played behind that part.
use crate::rows::{READ_THEN_WRITE, READ_THEN_WRITE_TEXT};
use crate::stops::have_files;
use crate::tests::{call, call_over, compare};
use score_cli::memory_disks;
use std::test::Fail;

/// How many lines of the text of one update are written where each call of the sink fails in turn: each part of the
/// text goes by one call.
const LINES: [usize; 13] = [0, 2, 4, 7, 11, 14, 17, 18, 23, 26, 29, 30, 32];

/// So many lines of a text.
fn first_lines(text: &str, count: usize) -> &str {
    let mut end = 0usize;
    for line in text.split('\n').take(count) {
        end = end.saturating_add(line.len()).saturating_add(1);
    }
    text.get(0..end).unwrap_or("")
}

#[test]
fn sink_fails_in_each_part(rt: HostRuntime) -> Result<(), Fail> {
    let alloc = rt.alloc();
    let mut number = 1u64;
    for lines in LINES {
        let bytes = Vec::from_slice(alloc, READ_THEN_WRITE.as_bytes())?;
        let (code, text) = call(alloc, "run", bytes, 0, number)?;
        let wanted = first_lines(READ_THEN_WRITE_TEXT, lines);
        compare(&rt, "sink fails", code, &text, 5, wanted);
        number = number.saturating_add(1);
    }
    Ok(())
}

/// What the files hold where the sink fails in the lines of the first record: the record of n1 alone.
const FIRST_RECORD_FILES: [&str; 3] = [
    "\
01\
010023010001010201020000000000000000000000000000000100010162000000000000000b\
00",
    "",
    "0100",
];

#[test]
fn nothing_is_played_ahead_of_its_text(rt: HostRuntime) -> Result<(), Fail> {
    let alloc = rt.alloc();
    let mut disks = memory_disks(alloc)?;
    let bytes = Vec::from_slice(alloc, READ_THEN_WRITE.as_bytes())?;
    let (code, _) = call_over(alloc, "run", bytes, 0, 5, &mut disks)?;
    assert_eq!(rt; code, 5, "the code");
    have_files(
        &rt,
        alloc,
        "the first record",
        disks.as_slice(),
        &FIRST_RECORD_FILES,
    )?;
    Ok(())
}
