//! The rows of the format: documents that are read, and for each why some lines that have it.

use crate::documents::read_document;
use crate::laws::law_one_spelling;
use crate::whys::DocEnd;
use grid_model::{Document, Item};
use score_base::{Key, Memory, NodeId, TxId, Value, put_bytes, put_number};
use std::alloc::Global;

const HEAD: &[u8] = b"nodes 2\npartition 0 n1\npartition 1 n2\ninit a 10\ninit b 0\n";

/// Whether the text is refused with this line and why.
fn is_refused(alloc: Global, text: &[u8], line: usize, why: u8) -> bool {
    match read_document(alloc, text) {
        Err(DocEnd::Refused(refusal)) => refusal.line == line && refusal.why == why,
        Err(DocEnd::Memory) => false,
        Ok(_) => false,
    }
}

/// Whether the text is a document.
fn is_accepted(alloc: Global, text: &[u8]) -> bool {
    read_document(alloc, text).is_ok()
}

fn behind(alloc: Global, front: &[u8], rest: &[u8]) -> Result<Vec<u8>, Memory> {
    let mut text = Vec::new(alloc);
    put_bytes(&mut text, front)?;
    put_bytes(&mut text, rest)?;
    Ok(text)
}

/// Whether these lines behind those of `HEAD` are refused with this line and why.
fn is_refused_behind(alloc: Global, rest: &[u8], line: usize, why: u8) -> bool {
    match behind(alloc, HEAD, rest) {
        Ok(text) => is_refused(alloc, text.as_slice(), line, why),
        Err(_) => false,
    }
}

/// Whether these lines behind those of `HEAD` make a document.
fn is_accepted_behind(alloc: Global, rest: &[u8]) -> bool {
    match behind(alloc, HEAD, rest) {
        Ok(text) => is_accepted(alloc, text.as_slice()),
        Err(_) => false,
    }
}

/// So many lines, each with its number, counted from 0, between two texts.
fn put_lines(text: &mut Vec<u8>, count: u64, front: &[u8], rest: &[u8]) -> Result<(), Memory> {
    for i in 0..count {
        put_bytes(text, front)?;
        put_number(text, i)?;
        put_bytes(text, rest)?;
    }
    Ok(())
}

/// A front, so many numbered lines, and an end.
fn lines(
    alloc: Global,
    head: &[u8],
    count: u64,
    front: &[u8],
    rest: &[u8],
    end: &[u8],
) -> Result<Vec<u8>, Memory> {
    let mut text = Vec::new(alloc);
    put_bytes(&mut text, head)?;
    put_lines(&mut text, count, front, rest)?;
    put_bytes(&mut text, end)?;
    Ok(text)
}

/// Whether a front, so many numbered lines and an end make a document.
fn are_accepted(
    alloc: Global,
    head: &[u8],
    count: u64,
    front: &[u8],
    rest: &[u8],
    end: &[u8],
) -> bool {
    match lines(alloc, head, count, front, rest, end) {
        Ok(text) => is_accepted(alloc, text.as_slice()),
        Err(_) => false,
    }
}

/// Whether the line behind so many numbered ones, those of a front before them, is refused for a limit.
fn are_past_a_limit(
    alloc: Global,
    head: &[u8],
    count: u64,
    front: &[u8],
    rest: &[u8],
    end: &[u8],
    line: usize,
) -> bool {
    match lines(alloc, head, count, front, rest, end) {
        Ok(text) => is_refused(alloc, text.as_slice(), line, 9),
        Err(_) => false,
    }
}

/// Whether a document with each form is read as it.
fn has_each_form(alloc: Global) -> bool {
    let rest =
        b"tx 7 n1\nread a\nwrite b a + 1\nend\nschedule\nbegin 7\ndeliver 1\ndrop 2\nnext 3\n";
    match behind(alloc, HEAD, rest) {
        Ok(text) => match read_document(alloc, text.as_slice()) {
            Ok(document) => is_as_spelled(&document),
            Err(_) => false,
        },
        Err(_) => false,
    }
}

fn is_as_spelled(document: &Document) -> bool {
    match Key::new(b"a") {
        Some(a) => {
            document.cluster().nodes() == 2
                && document.cluster().init(&a) == Value(10)
                && document.scripts().len() == 1
                && are_as_spelled(document.items())
        }
        None => false,
    }
}

fn are_as_spelled(items: &[Item]) -> bool {
    items.len() == 4
        && items[0] == Item::Begin(TxId { number: 7 })
        && items[1] == Item::Deliver(1)
        && items[2] == Item::Drop(2)
        && items[3] == Item::Next(3)
}

#[test]
fn reads_a_document_with_each_form(rt: HostRuntime) {
    law_one_spelling();
    assert!(rt; has_each_form(rt.alloc()));
}

#[test]
fn ends_of_input(rt: HostRuntime) {
    let alloc = rt.alloc();
    assert!(rt; is_refused(alloc, b"", 1, 10));
    assert!(rt; is_refused(alloc, b"nodes 2\npartition 0 n1\nfoo\t", 3, 10));
    assert!(rt; is_refused_behind(alloc, b"", 6, 10));
    assert!(rt; is_refused_behind(alloc, b"tx 1 n1\nread a", 7, 10));
    assert!(rt; is_refused_behind(alloc, b"tx 1 n1\nread a\n", 8, 10));
    assert!(rt; is_refused_behind(alloc, b"tx 1 n1\nread a\nend\n", 9, 10));
    assert!(rt; is_refused_behind(alloc, b"schedule\nnext 1", 7, 10));
    assert!(rt; is_accepted(alloc, b"nodes 1\npartition 0 n1\nschedule\n"));
}

#[test]
fn words_that_cannot_stand_there(rt: HostRuntime) {
    let alloc = rt.alloc();
    assert!(rt; is_refused(alloc, b"\n", 1, 1));
    assert!(rt; is_refused(alloc, b" nodes 2\n", 1, 1));
    assert!(rt; is_refused(alloc, b"nodes 2\ninit a 1\n", 2, 1));
    assert!(rt; is_refused(alloc, b"nodes 2 \n", 1, 1));
    assert!(rt; is_refused_behind(alloc, b"partition 2 n1\n", 6, 1));
    assert!(rt; is_refused_behind(alloc, b"write a 1\n", 6, 1));
    assert!(rt; is_refused_behind(alloc, b"tx 1 n1\nread a\nend\ninit c 1\n", 9, 1));
    assert!(rt; is_refused_behind(alloc, b"tx 1 n1\nread a\nschedule\n", 8, 1));
    assert!(rt; is_refused_behind(alloc, b"tx 1 n1\ncrash n1 0\n", 7, 1));
    assert!(rt; is_refused_behind(alloc, b"tx 1 n1\nread a a\n", 7, 1));
    assert!(rt; is_refused_behind(alloc, b"tx 1 n1\nread a\nend x\n", 8, 1));
    assert!(rt; is_refused_behind(alloc, b"schedule\nschedule\n", 7, 1));
    assert!(rt; is_refused_behind(alloc, b"schedule\nwrite a 1\n", 7, 1));
    assert!(rt; is_refused_behind(alloc, b"schedule\nnext 1 1\n", 7, 1));
}

#[test]
fn words_too_few(rt: HostRuntime) {
    let alloc = rt.alloc();
    assert!(rt; is_refused(alloc, b"nodes\n", 1, 10));
    assert!(rt; is_refused(alloc, b"nodes 2\npartition 0\n", 2, 10));
    assert!(rt; is_refused_behind(alloc, b"init c\n", 6, 10));
    assert!(rt; is_refused_behind(alloc, b"tx 1\n", 6, 10));
    assert!(rt; is_refused_behind(alloc, b"tx 1 n1\nread\n", 7, 10));
    assert!(rt; is_refused_behind(alloc, b"tx 1 n1\nwrite\n", 7, 10));
    assert!(rt; is_refused_behind(alloc, b"tx 1 n1\nwrite b\n", 7, 10));
    assert!(rt; is_refused_behind(alloc, b"tx 1 n1\nend x\n", 7, 10));
    assert!(rt; is_refused_behind(alloc, b"schedule\nbegin\n", 7, 10));
    assert!(rt; is_refused_behind(alloc, b"schedule\ndeliver\n", 7, 10));
}

#[test]
fn misspelt_words(rt: HostRuntime) {
    let alloc = rt.alloc();
    assert!(rt; is_refused(alloc, b"nodes  2\n", 1, 2));
    assert!(rt; is_refused(alloc, b"nodes 18446744073709551616\n", 1, 2));
    assert!(rt; is_refused_behind(alloc, b"init c -1\n", 6, 2));
    assert!(rt; is_refused(alloc, b"nodes 2\npartition 0 n3\n", 2, 3));
    assert!(rt; is_refused(alloc, b"nodes 2\npartition 0 n1 \n", 2, 3));
    assert!(rt; is_refused(alloc, b"nodes 2\npartition 1 n1\n", 2, 4));
    let longer = b"init ccccccccccccccccccccccccccccccccc 1\nschedule\n";
    assert!(rt; is_refused_behind(alloc, longer, 6, 5));
    assert!(rt; is_refused_behind(alloc, b"tx 1 n1\nread A\nend\nschedule\n", 7, 5));
    assert!(rt; is_refused_behind(alloc, b"tx 0 n1\n", 6, 6));
    assert!(rt; is_refused_behind(alloc, b"tx 65536 n1\n", 6, 6));
    let other = b"tx 1 n1\nread a\nend\nschedule\nbegin 2\n";
    assert!(rt; is_refused_behind(alloc, other, 10, 6));
    assert!(rt; is_refused(alloc, b"nodes 2\npartition 0 n1 n2 n1\n", 2, 8));
    assert!(rt; is_refused_behind(alloc, b"init a 1\n", 6, 8));
    assert!(rt; is_refused_behind(alloc, b"tx 1 n1\nread a\nend\ntx 1 n1\n", 9, 8));
}

/// Whether the first and the last script behind the lines of `HEAD` have these sessions.
fn has_sessions(alloc: Global, rest: &[u8], first: u16, last: u16) -> bool {
    match behind(alloc, HEAD, rest) {
        Ok(text) => match read_document(alloc, text.as_slice()) {
            Ok(document) => match document.scripts() {
                [one, .., other] => one.session == first && other.session == last,
                _ => false,
            },
            Err(_) => false,
        },
        Err(_) => false,
    }
}

#[test]
fn session_words(rt: HostRuntime) {
    let alloc = rt.alloc();
    assert!(rt; is_refused_behind(alloc, b"tx 1 n1 session 0\n", 6, 9));
    assert!(rt; is_refused_behind(alloc, b"tx 1 n1 sess 5\n", 6, 1));
    assert!(rt; is_refused_behind(alloc, b"tx 1 n1 session\n", 6, 10));
    assert!(rt; is_refused_behind(alloc, b"tx 1 n1 session 05\n", 6, 2));
    assert!(rt; is_refused_behind(alloc, b"tx 1 n1 session 65536\n", 6, 9));
    assert!(rt; is_refused_behind(alloc, b"tx 1 n1 session 0 x\n", 6, 9));
    assert!(rt; is_refused_behind(alloc, b"tx 1 n1 session 5 5\n", 6, 1));
    let least = b"tx 1 n1 session 5\nread a\nend\ntx 2 n2\nread b\nend\nschedule\n";
    assert!(rt; has_sessions(alloc, least, 5, 0));
    let most = b"tx 1 n1 session 1\nread a\nend\ntx 2 n2 session 65535\nread b\nend\nschedule\n";
    assert!(rt; has_sessions(alloc, most, 1, 65535));
}

#[test]
fn writes(rt: HostRuntime) {
    let alloc = rt.alloc();
    assert!(rt; is_accepted_behind(alloc, b"tx 1 n1\nwrite b 1\nend\nschedule\n"));
    let chosen = b"tx 1 n1\nread min\nwrite b min min min pick 1 2\nend\nschedule\n";
    assert!(rt; is_accepted_behind(alloc, chosen));
    assert!(rt; is_refused_behind(alloc, b"tx 1 n1\nwrite b a\nend\nschedule\n", 7, 7));
    assert!(rt; is_refused_behind(alloc, b"tx 1 n1\nwrite b 1\nwrite a b\n", 8, 7));
    let other = b"tx 1 n1\nread a\nend\ntx 2 n1\nwrite b a\n";
    assert!(rt; is_refused_behind(alloc, other, 10, 7));
    assert!(rt; is_refused_behind(alloc, b"tx 1 n1\nwrite b 1 / 2\n", 7, 1));
    assert!(rt; is_refused_behind(alloc, b"tx 1 n1\nwrite b 1 \n", 7, 1));
    assert!(rt; is_refused_behind(alloc, b"tx 1 n1\nwrite b 01\n", 7, 2));
    assert!(rt; is_refused_behind(alloc, b"tx 1 n1\nwrite B A\n", 7, 5));
    let sixteen =
        b"tx 1 n1\nwrite b 0 + 1 + 2 + 3 + 4 + 5 + 6 + 7 + 8 + 9 + 10 + 11 + 12 + 13 + 14 + 15 + 16\nend\nschedule\n";
    assert!(rt; is_accepted_behind(alloc, sixteen));
    let more =
        b"tx 1 n1\nwrite b 0 + 1 + 2 + 3 + 4 + 5 + 6 + 7 + 8 + 9 + 10 + 11 + 12 + 13 + 14 + 15 + 16 + A\n";
    assert!(rt; is_refused_behind(alloc, more, 7, 9));
}

#[test]
fn first_fault_decides(rt: HostRuntime) {
    let alloc = rt.alloc();
    assert!(rt; is_refused(alloc, b"nodes x 1\n", 1, 2));
    assert!(rt; is_refused(alloc, b"nodes 17\npartition x\n", 1, 9));
    assert!(rt; is_refused(alloc, b"nodes 2\npartition 1 n9\n", 2, 4));
    assert!(rt; is_refused(alloc, b"nodes 2\npartition 0 n1 n1 n9\n", 2, 8));
    assert!(rt; is_refused_behind(alloc, b"init a x\n", 6, 8));
    assert!(rt; is_refused_behind(alloc, b"tx 1 n9 x\nread A\n", 6, 3));
    assert!(rt; is_refused_behind(alloc, b"foo\x7f\n", 6, 11));
    assert!(rt; is_refused_behind(alloc, b"schedule\r\n", 6, 11));
    assert!(rt; is_refused_behind(alloc, b"schedule\nask n3 x y\n", 7, 3));
    assert!(rt; is_refused_behind(alloc, b"schedule\nfuse n1 0 x\n", 7, 9));
    assert!(rt; is_refused_behind(alloc, b"schedule\ncrash n1 x y\n", 7, 2));
    assert!(rt; is_refused_behind(alloc, b"schedule\nopen n1\n", 7, 1));
}

/// Whether this line of the schedule is refused for this why, behind a script of number 7.
fn is_item_refused(alloc: Global, item: &[u8], why: u8) -> bool {
    let front = b"tx 7 n1\nread a\nend\nschedule\n";
    match behind(alloc, front, item) {
        Ok(text) => is_refused_behind(alloc, text.as_slice(), 10, why),
        Err(_) => false,
    }
}

/// Whether this line of the schedule is read as this item, behind a script of number 7.
fn is_item_read(alloc: Global, line: &[u8], item: Item) -> bool {
    let front = b"tx 7 n1\nread a\nend\nschedule\n";
    match behind(alloc, front, line) {
        Ok(rest) => match behind(alloc, HEAD, rest.as_slice()) {
            Ok(text) => match read_document(alloc, text.as_slice()) {
                Ok(document) => is_only_item(document.items(), item),
                Err(_) => false,
            },
            Err(_) => false,
        },
        Err(_) => false,
    }
}

fn is_only_item(items: &[Item], item: Item) -> bool {
    match items {
        [one] => *one == item,
        _ => false,
    }
}

const N1: NodeId = NodeId { number: 1 };

const N2: NodeId = NodeId { number: 2 };

const T7: TxId = TxId { number: 7 };

#[test]
fn items_of_a_transaction(rt: HostRuntime) {
    let alloc = rt.alloc();
    assert!(rt; is_item_read(alloc, b"retry 7\n", Item::Retry(T7)));
    assert!(rt; is_item_refused(alloc, b"retry 6\n", 6));
    assert!(rt; is_item_refused(alloc, b"retry\n", 10));
    assert!(rt; is_item_refused(alloc, b"retry 7 7\n", 1));
    assert!(rt; is_item_read(alloc, b"ask n2 7\n", Item::Ask(N2, T7)));
    assert!(rt; is_item_refused(alloc, b"ask n3 7\n", 3));
    assert!(rt; is_item_refused(alloc, b"ask n2 8\n", 6));
    assert!(rt; is_item_refused(alloc, b"ask n2\n", 10));
    assert!(rt; is_item_read(alloc, b"ask n2 7 n1\n", Item::AskPeer(N2, T7, N1)));
    assert!(rt; is_item_refused(alloc, b"ask n2 7 n0\n", 3));
    assert!(rt; is_item_refused(alloc, b"ask n2 7 n3\n", 3));
    assert!(rt; is_item_refused(alloc, b"ask n2 7 \n", 3));
    assert!(rt; is_item_refused(alloc, b"ask n2 7 n1 n1\n", 1));
}

#[test]
fn items_of_a_node(rt: HostRuntime) {
    let alloc = rt.alloc();
    assert!(rt; is_item_read(alloc, b"crash n1 0\n", Item::Crash(N1, 0)));
    assert!(rt;
        is_item_read(
            alloc,
            b"crash n2 4294967295\n",
            Item::Crash(N2, 4_294_967_295)
        )
    );
    assert!(rt; is_item_refused(alloc, b"crash n2 4294967296\n", 9));
    assert!(rt; is_item_refused(alloc, b"crash n3 0\n", 3));
    assert!(rt; is_item_refused(alloc, b"crash n1\n", 10));
    assert!(rt; is_item_refused(alloc, b"crash n1 0 0\n", 1));
    assert!(rt;
        is_item_read(
            alloc,
            b"fuse n1 1 4294967295\n",
            Item::Fuse(N1, 1, 4_294_967_295)
        )
    );
    assert!(rt; is_item_read(alloc, b"fuse n1 1000 0\n", Item::Fuse(N1, 1_000, 0)));
    assert!(rt; is_item_refused(alloc, b"fuse n1 0 0\n", 9));
    assert!(rt; is_item_refused(alloc, b"fuse n1 1001 0\n", 9));
    assert!(rt; is_item_refused(alloc, b"fuse n1 1 4294967296\n", 9));
    assert!(rt; is_item_refused(alloc, b"fuse n1 1\n", 10));
    assert!(rt; is_item_read(alloc, b"restart n2\n", Item::Restart(N2)));
    assert!(rt; is_item_refused(alloc, b"restart n3\n", 3));
    assert!(rt; is_item_refused(alloc, b"restart n2 0\n", 1));
    assert!(rt; is_item_read(alloc, b"compact n2\n", Item::Compact(N2)));
    assert!(rt; is_item_refused(alloc, b"compact n0\n", 3));
    assert!(rt; is_item_refused(alloc, b"compact\n", 10));
}

#[test]
fn limits_of_the_schedule(rt: HostRuntime) {
    let alloc = rt.alloc();
    assert!(rt; is_refused_behind(alloc, b"schedule\ndeliver 0\n", 7, 9));
    assert!(rt; is_refused_behind(alloc, b"schedule\ndrop 4294967296\n", 7, 9));
    assert!(rt; is_refused_behind(alloc, b"schedule\nnext 50001 x\n", 7, 9));
    assert!(rt; is_accepted_behind(alloc, b"schedule\nnext 49999\ndeliver 4294967295\n"));
    assert!(rt; is_refused_behind(alloc, b"schedule\nnext 49999\nnext 2 x\n", 8, 9));
    assert!(rt; is_refused_behind(alloc, b"schedule\nnext 50000\nnext\n", 8, 10));
    assert!(rt; is_refused_behind(alloc, b"schedule\nnext 50000\nnext x\n", 8, 2));
    assert!(rt; is_refused_behind(alloc, b"schedule\nnext 50000\nbegin\n", 8, 9));
    assert!(rt; is_refused_behind(alloc, b"schedule\nnext 50000\ndeliver x\n", 8, 9));
    assert!(rt; is_refused_behind(alloc, b"schedule\nnext 50000\ndrop\n", 8, 9));
    assert!(rt; is_refused_behind(alloc, b"schedule\nnext 50000\nfoo\n", 8, 1));
    assert!(rt; is_refused_behind(alloc, b"schedule\nnext 50000\nfuse n9 0\n", 8, 9));
    assert!(rt; is_accepted_behind(alloc, b"schedule\nnext 49999\ncompact n1\n"));
    assert!(rt; is_refused_behind(alloc, b"schedule\nnext 50000\ncompact n1\n", 8, 9));
}

#[test]
fn limits_of_the_cluster(rt: HostRuntime) {
    let alloc = rt.alloc();
    let head = b"nodes 1\n";
    assert!(rt; are_accepted(alloc, head, 64, b"partition ", b" n1\n", b"schedule\n"));
    assert!(rt; are_past_a_limit(alloc, head, 64, b"partition ", b" n1\n", b"partition\n", 66));
    assert!(rt; are_accepted(alloc, HEAD, 4094, b"init k", b" 0\n", b"schedule\n"));
    assert!(rt; are_past_a_limit(alloc, HEAD, 4094, b"init k", b" 0\n", b"init c x\n", 4100));
    let end = b"tx 1 n1\nread a\nwrite c x\n";
    assert!(rt; are_past_a_limit(alloc, HEAD, 4094, b"init k", b" 0\n", end, 4102));
}

#[test]
fn limits_of_the_scripts(rt: HostRuntime) {
    let alloc = rt.alloc();
    let script = b"nodes 1\npartition 0 n1\ntx 1 n1\n";
    assert!(rt; are_accepted(alloc, script, 32, b"read k", b"\n", b"end\nschedule\n"));
    assert!(rt; are_past_a_limit(alloc, script, 32, b"read k", b"\n", b"read\n", 36));
    assert!(rt; are_past_a_limit(alloc, script, 32, b"read k", b"\n", b"write\n", 36));
    let rest = b" n1\nread a\nend\n";
    assert!(rt; are_accepted(alloc, HEAD, 4096, b"tx 1", rest, b"schedule\n"));
    assert!(rt; are_past_a_limit(alloc, HEAD, 4096, b"tx 1", rest, b"tx\n", 12294));
}
