//! Keys, numbers, lists, texts and tables at their edges.
use super::*;
use std::test::Fail;

#[test]
fn numbers_are_spelled(rt: HostRuntime) -> Result<(), Fail> {
    let mut out = Vec::new(rt.alloc());
    put_bytes(&mut out, b"init a ")?;
    put_number(&mut out, 18446744073709551596)?;
    assert_eq!(rt; out.as_slice(), b"init a 18446744073709551596".as_slice());
    assert_eq!(rt; number(b"18446744073709551596"), Some(18446744073709551596));
    assert_eq!(rt; number(b"18446744073709551616"), None);
    assert_eq!(rt; number(b"010"), None);
    Ok(())
}

#[test]
fn keys_have_32_bytes_at_most(rt: HostRuntime) {
    assert!(rt; Key::new(b"cccccccccccccccccccccccccccccccc").is_some());
    assert!(rt; Key::new(b"ccccccccccccccccccccccccccccccccc").is_none());
    assert!(rt; Key::new(b"A").is_none());
    assert!(rt; Key::new(b"a").is_some_and(|key| key.bytes() == b"a".as_slice()));
}

#[test]
fn a_text_falls_into_lines_and_words(rt: HostRuntime) -> Result<(), Fail> {
    let whole = lines(rt.alloc(), b"init a 10\ninit b 0\n")?;
    assert_eq!(rt;
        whole.as_slice(),
        [Span { start: 0, end: 9 }, Span { start: 10, end: 18 }].as_slice()
    );
    let cut = lines(rt.alloc(), b"init a 10\n\ninit b 0")?;
    assert_eq!(rt;
        cut.as_slice(),
        [
            Span { start: 0, end: 9 },
            Span { start: 10, end: 10 },
            Span { start: 11, end: 19 }
        ]
        .as_slice()
    );
    assert!(rt; lines(rt.alloc(), b"")?.is_empty());
    let spaced = words(rt.alloc(), b"read a ")?;
    assert_eq!(rt;
        spaced.as_slice(),
        [
            Span { start: 0, end: 4 },
            Span { start: 5, end: 6 },
            Span { start: 7, end: 7 }
        ]
        .as_slice()
    );
    Ok(())
}

#[test]
fn lists_grow_and_are_copied(rt: HostRuntime) -> Result<(), Fail> {
    let mut keys = KeyList::new(rt.alloc());
    if let Some(key) = Key::new(b"a") {
        keys.push(key)?;
    }
    let record = Record::Prepared {
        t: TxId { number: 1 },
        home: NodeId { number: 1 },
        parts: NodeList::new(rt.alloc()),
        sid: Ident(0),
        p: Ident(1),
        reads: keys.copy()?,
        writes: WriteList::new(rt.alloc()),
    };
    let second = record.copy()?;
    if let Record::Prepared { reads, .. } = &second {
        assert_eq!(rt; reads.len(), 1);
    }
    let mut items = Vec::new(rt.alloc());
    push(&mut items, 1u8)?;
    append(&mut items, [2u8, 3].to_vec(rt.alloc())?)?;
    assert_eq!(rt; items.as_slice(), [1u8, 2, 3].as_slice());
    Ok(())
}

/// The place of a key in a table, or else where it would stand.
fn place(table: &Ordered<u64, u64>, key: u64) -> usize {
    match table.place(&key) {
        Ok(i) => i,
        Err(i) => i,
    }
}

// Three keys, put in no order: each stands at its place, and a key that is gone leaves its place free.
#[test]
fn tables_are_in_order(rt: HostRuntime) {
    let mut table = Ordered::<u64, u64>::new(rt.alloc());
    assert!(rt; table.reserve(3).is_ok());
    table.insert(0, 5, 50);
    table.insert(0, 2, 20);
    table.insert(2, 9, 90);
    assert_eq!(rt; table.len(), 3);
    assert_eq!(rt; place(&table, 9), 2);
    assert_eq!(rt; place(&table, 6), 2);
    assert_eq!(rt; table.remove(1), (5, 50));
    assert_eq!(rt; place(&table, 9), 1);
    table.retain(|pair| pair.1 != 20);
    assert_eq!(rt; table.len(), 1);
    assert_eq!(rt; table.pair(0), (9, 90));
}

// A table takes another in: a new key at either end, one in between, and one in place of an old value.
#[test]
fn tables_are_merged(rt: HostRuntime) {
    let mut table = Ordered::<u64, u64>::new(rt.alloc());
    assert!(rt; table.reserve(6).is_ok());
    table.insert(0, 4, 40);
    table.insert(1, 8, 80);
    let mut more = Ordered::<u64, u64>::new(rt.alloc());
    assert!(rt; more.reserve(4).is_ok());
    more.insert(0, 2, 21);
    more.insert(1, 6, 61);
    more.insert(2, 8, 81);
    more.insert(3, 9, 91);
    table.merge(&more);
    more.clear();
    assert_eq!(rt; more.len(), 0);
    assert_eq!(rt; table.len(), 5);
    assert_eq!(rt; table.pair(1), (4, 40));
    assert_eq!(rt; table.pair(2), (6, 61));
    assert_eq!(rt; table.pair(3), (8, 81));
    assert_eq!(rt; place(&table, 9), 4);
}
