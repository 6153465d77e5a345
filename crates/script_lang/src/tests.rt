//! The worked rows: what expressions come to, and for each why some lines that have it.

use super::*;
use score_base::{Key, Memory, TryCopy, Value};
use std::alloc::Global;

fn key(reads: &mut Reads, bytes: &[u8], value: u64) -> Result<(), Memory> {
    match Key::new(bytes) {
        Some(key) => reads.set(key, Value(value)),
        None => Ok(()),
    }
}

// the value of the last write of a script where a is 10 and b is 3
fn value(alloc: Global, text: &[u8]) -> Result<Option<Value>, Memory> {
    let mut reads = Reads::new(alloc);
    key(&mut reads, b"a", 10)?;
    key(&mut reads, b"b", 3)?;
    match read_script(alloc, text, 1) {
        Ok(script) => match script.copy()?.ops() {
            [.., Op::Write(_, expr)] if has_each_key(expr, &reads) => Ok(Some(eval(expr, &reads))),
            _ => Ok(None),
        },
        Err(_) => Ok(None),
    }
}

fn gives(alloc: Global, text: &[u8], wanted: u64) -> bool {
    match value(alloc, text) {
        Ok(found) => found == Some(Value(wanted)),
        Err(_) => false,
    }
}

#[test]
fn arithmetic(rt: HostRuntime) {
    assert!(rt;
        gives(
            rt.alloc(),
            b"tx 1 n1\nread a\nread b\nwrite c a + b * 2\nend\n",
            26
        )
    );
    let below = 18446744073709551596;
    assert!(rt;
        gives(
            rt.alloc(),
            b"tx 1 n1\nread a\nread b\nwrite c a - 30\nend\n",
            below
        )
    );
    assert!(rt;
        gives(
            rt.alloc(),
            b"tx 1 n1\nread a\nread b\nwrite c a min b\nend\n",
            3
        )
    );
    assert!(rt;
        gives(
            rt.alloc(),
            b"tx 1 n1\nread a\nread b\nwrite c a pick 5 b\nend\n",
            5
        )
    );
    assert!(rt;
        gives(
            rt.alloc(),
            b"tx 1 n1\nread a\nread b\nwrite c 0 pick 5 b\nend\n",
            3
        )
    );
}

// the first line at fault, in a cluster of two nodes, is this one, and has this why
fn is_refused(alloc: Global, text: &[u8], line: usize, why: u8) -> bool {
    match read_script(alloc, text, 2) {
        Ok(_) => false,
        Err(ScriptEnd::Bad(at)) => at.line == line && at.why == why,
        Err(ScriptEnd::Memory) => false,
    }
}

#[test]
fn refused_lines(rt: HostRuntime) {
    assert!(rt; is_refused(rt.alloc(), b"", 1, 10));
    assert!(rt; is_refused(rt.alloc(), b"read a\n", 1, 1));
    assert!(rt; is_refused(rt.alloc(), b"tx 0 n1\n", 1, 6));
    assert!(rt; is_refused(rt.alloc(), b"tx 1 n3\n", 1, 3));
    assert!(rt; is_refused(rt.alloc(), b"tx 1 n1 \n", 1, 1));
    assert!(rt; is_refused(rt.alloc(), b"tx 1 n1\nend x\n", 2, 10));
    assert!(rt; is_refused(rt.alloc(), b"tx 1 n1\nread A\n", 2, 5));
    assert!(rt; is_refused(rt.alloc(), b"tx 1 n1\nread\ta\n", 2, 11));
    assert!(rt; is_refused(rt.alloc(), b"tx 1 n1\nread a\nend", 3, 10));
    assert!(rt; is_refused(rt.alloc(), b"tx 1 n1\nread a\n", 3, 10));
    assert!(rt; is_refused(rt.alloc(), b"tx 1 n1\nread a\nend\nread b\n", 4, 1));
    assert!(rt; read_script(rt.alloc(), b"tx 1 n1\nread a\nend\n", 2).is_ok());
}

// a script of its own has this session
fn has_session(alloc: Global, text: &[u8], session: u16) -> bool {
    match read_script(alloc, text, 1) {
        Ok(script) => match script.copy() {
            Ok(copy) => copy.session == session,
            Err(_) => false,
        },
        Err(_) => false,
    }
}

#[test]
fn session_words(rt: HostRuntime) {
    assert!(rt; has_session(rt.alloc(), b"tx 1 n1 session 5\nread a\nend\n", 5));
    assert!(rt; has_session(rt.alloc(), b"tx 1 n1\nread a\nend\n", 0));
    assert!(rt; is_refused(rt.alloc(), b"tx 1 n1 session 0\n", 1, 9));
}

#[test]
fn refused_expressions(rt: HostRuntime) {
    assert!(rt; is_refused(rt.alloc(), b"tx 1 n1\nwrite a\n", 2, 10));
    assert!(rt; is_refused(rt.alloc(), b"tx 1 n1\nwrite a 01\n", 2, 2));
    assert!(rt; is_refused(rt.alloc(), b"tx 1 n1\nwrite a b\nread b\n", 2, 7));
    assert!(rt; is_refused(rt.alloc(), b"tx 1 n1\nwrite a 1 ^ 2\n", 2, 1));
    assert!(rt; is_refused(rt.alloc(), b"tx 1 n1\nwrite a 1 +\n", 2, 10));
    assert!(rt; is_refused(rt.alloc(), b"tx 1 n1\nwrite a 1 + \n", 2, 5));
    assert!(rt; is_refused(rt.alloc(), b"tx 1 n1\nwrite a 1 pick 2\n", 2, 10));
    let long =
        b"tx 1 n1\nwrite a 0 + 1 + 2 + 3 + 4 + 5 + 6 + 7 + 8 + 9 + 10 + 11 + 12 + 13 + 14 + 15 + 16 +\n";
    assert!(rt; is_refused(rt.alloc(), long, 2, 9));
    let odd =
        b"tx 1 n1\nwrite a 0 + 1 + 2 + 3 + 4 + 5 + 6 + 7 + 8 + 9 + 10 + 11 + 12 + 13 + 14 + 15 + 16 /\n";
    assert!(rt; is_refused(rt.alloc(), odd, 2, 1));
}

// how many keys a script has, reads remotely, and writes
fn has_counts(
    alloc: Global,
    text: &[u8],
    all: usize,
    read: usize,
    written: usize,
) -> Result<bool, Memory> {
    match read_script(alloc, text, 1) {
        Ok(script) => {
            let copy = script.copy()?;
            Ok(
                keys(alloc, &copy)?.len() == all
                    && read_keys(alloc, &copy)?.len() == read
                    && write_keys(alloc, &copy)?.len() == written,
            )
        }
        Err(_) => Ok(false),
    }
}

#[test]
fn keys_of_a_script(rt: HostRuntime) {
    let text = b"tx 1 n1\nwrite b 1\nread a\nread b\nwrite c a\nwrite b 2\nend\n";
    assert!(rt; has_counts(rt.alloc(), text, 3, 1, 2).unwrap_or(false));
}
