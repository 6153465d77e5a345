//! Fields of records, byte by byte: those that are, and those that are none.
use super::*;
use score_base::{Ballot, Cause, Date, Ident, Key, Outcome, TxId};
use std::test::Fail;

const MARK: u8 = 9;

/// What a table of one field takes from its tag, these bytes and a byte behind them.
fn taken(rt: &HostRuntime, field: Field, bytes: &[u8]) -> Result<Option<Taken<1>>, Fail> {
    let mut text = [MARK].to_vec(rt.alloc())?;
    text.extend_from_slice(bytes)?;
    let layout = Layout {
        tag: MARK,
        fields: [field],
    };
    Ok(layout.take(&text))
}

/// Whether it takes anything.
fn is_taken(rt: &HostRuntime, field: Field, bytes: &[u8]) -> Result<bool, Fail> {
    let mut text = [MARK].to_vec(rt.alloc())?;
    text.extend_from_slice(bytes)?;
    let layout = Layout {
        tag: MARK,
        fields: [field],
    };
    Ok(layout.take(&text).is_some())
}

/// A spelling of each kind, and the datum of it.
fn spellings() -> [(Field, &'static [u8], Datum); 15] {
    [
        (Field::U8, b"\xff", Datum::Number(255)),
        (Field::U64, b"\0\0\0\0\0\0\x01\x02", Datum::Number(258)),
        (Field::Op, b"\x20", Datum::Number(32)),
        (Field::Tx, b"\x01\0", Datum::Number(256)),
        (Field::Node, b"\x10", Datum::Number(16)),
        (Field::Nodes, b"\x03\x01\x02\x10", Datum::Span(1, 5)),
        (Field::Keys, b"\0", Datum::Span(1, 2)),
        (Field::Keys, b"\x02\x01b\x02a_", Datum::Span(1, 7)),
        (
            Field::Writes,
            b"\x01\x01b\0\0\0\0\0\0\0\x0b",
            Datum::Span(1, 12),
        ),
        (Field::Outcome, b"\0", Datum::Span(1, 2)),
        (
            Field::Outcome,
            b"\x01\0\0\0\0\0\0\0\x01",
            Datum::Span(1, 10),
        ),
        (Field::Ballot, b"\x01\0\0\0\0\0\0\0\x01", Datum::Span(1, 10)),
        (Field::Ballot, b"\x02\0\x07", Datum::Span(1, 4)),
        (
            Field::Ballot,
            b"\x03\x01b\0\0\0\0\0\0\0\x01",
            Datum::Span(1, 12),
        ),
        (Field::Date, b"\0\0\0\0\0\0\0\0\0", Datum::Span(1, 10)),
    ]
}

#[test]
fn each_kind_is_taken_whole_and_nothing_shorter(rt: HostRuntime) -> Result<(), Fail> {
    for (field, bytes, datum) in spellings() {
        let whole = taken(&rt, field, bytes)?.ok_or("a spelling is taken")?;
        assert_eq!(rt; whole.values[0], datum);
        assert_eq!(rt; whole.used.checked_sub(1), Some(bytes.len()));
        for n in 0..bytes.len() {
            assert!(rt; !is_taken(&rt, field, &bytes[..n])?);
        }
    }
    Ok(())
}

#[test]
fn what_is_no_spelling_is_not_taken(rt: HostRuntime) -> Result<(), Fail> {
    let long_key = [b'k'; 33];
    let mut long = [33].to_vec(rt.alloc())?;
    long.extend_from_slice(&long_key)?;
    assert!(rt; !is_taken(&rt, Field::Key, &long)?, "a key of 33 bytes");
    let refused: [(Field, &'static [u8]); 18] = [
        (Field::Op, b"\0"),
        (Field::Op, b"\x21"),
        (Field::Tx, b"\0\0"),
        (Field::Node, b"\0"),
        (Field::Node, b"\x11"),
        (Field::Key, b"\0"),
        (Field::Key, b"\x021a"),
        (Field::Key, b"\x01A"),
        (Field::Nodes, b"\0"),
        (Field::Nodes, b"\x02\x02\x01"),
        (Field::Nodes, b"\x02\x01\x01"),
        (Field::Nodes, b"\x01\x11"),
        (
            Field::Nodes,
            b"\x11\x01\x02\x03\x04\x05\x06\x07\x08\x09\x0a\x0b\x0c\x0d\x0e\x0f\x10\x11",
        ),
        (Field::Keys, b"\x01\x011"),
        (Field::Outcome, b"\x02\0\0\0\0\0\0\0\x01"),
        (Field::Ballot, b"\0\0\0\0\0\0\0\0\x01"),
        (Field::Ballot, b"\x02\0\0"),
        (Field::Date, b"\x02\0\0\0\0\0\0\0\0"),
    ];
    for (field, bytes) in refused {
        assert!(rt; !is_taken(&rt, field, bytes)?, "{field:?} {bytes:?}");
    }
    let mut many = [33].to_vec(rt.alloc())?;
    for _ in 0..33 {
        many.extend_from_slice(b"\x01b")?;
    }
    assert!(rt; !is_taken(&rt, Field::Keys, &many)?, "33 keys");
    Ok(())
}

#[test]
fn a_key_is_taken(rt: HostRuntime) -> Result<(), Fail> {
    let whole = taken(&rt, Field::Key, b"\x02a_")?.ok_or("a key is taken")?;
    assert_eq!(rt;
        whole.values[0],
        Datum::Key(Key::new(b"a_").ok_or("a key")?)
    );
    Ok(())
}

#[test]
fn another_tag_is_not_taken(rt: HostRuntime) {
    let layout = Layout {
        tag: 2,
        fields: [Field::U8],
    };
    assert!(rt; layout.take(b"\x01\x07").is_none());
    assert!(rt; layout.take(b"").is_none());
}

/// An outcome's spelling, and what is read of it.
fn outcome_again(rt: &HostRuntime, outcome: Outcome) -> Result<(Vec<u8>, Outcome), Fail> {
    let mut out = Vec::new(rt.alloc());
    put_outcome(&mut out, outcome)?;
    let read = read_outcome(&out);
    Ok((out, read))
}

fn ballot_again(rt: &HostRuntime, ballot: Ballot) -> Result<(Vec<u8>, Ballot), Fail> {
    let mut out = Vec::new(rt.alloc());
    put_ballot(&mut out, ballot)?;
    let read = read_ballot(&out);
    Ok((out, read))
}

fn date_again(rt: &HostRuntime, date: Date) -> Result<(Vec<u8>, Date), Fail> {
    let mut out = Vec::new(rt.alloc());
    put_date(&mut out, date)?;
    let read = read_date(&out);
    Ok((out, read))
}

#[test]
fn outcomes_are_spelled_and_read(rt: HostRuntime) -> Result<(), Fail> {
    let (out, read) = outcome_again(&rt, Outcome::Commit(Ident(1)))?;
    assert_eq!(rt; out.as_slice(), b"\x01\0\0\0\0\0\0\0\x01".as_slice());
    assert_eq!(rt; read, Outcome::Commit(Ident(1)));
    Ok(())
}

#[test]
fn ballots_are_spelled_and_read(rt: HostRuntime) -> Result<(), Fail> {
    let (out, read) = ballot_again(&rt, Ballot::Yes(Ident(1)))?;
    assert_eq!(rt; out.as_slice(), b"\x01\0\0\0\0\0\0\0\x01".as_slice());
    assert_eq!(rt; read, Ballot::Yes(Ident(1)));
    let (out, _) = ballot_again(&rt, Ballot::No(Cause::Holder(TxId { number: 7 })))?;
    assert_eq!(rt; out.as_slice(), b"\x02\0\x07".as_slice());
    Ok(())
}

#[test]
fn dates_are_spelled_and_read(rt: HostRuntime) -> Result<(), Fail> {
    let (out, read) = date_again(&rt, Date::First(Ident(0)))?;
    assert_eq!(rt; out.as_slice(), b"\0\0\0\0\0\0\0\0\0".as_slice());
    assert_eq!(rt; read, Date::First(Ident(0)));
    Ok(())
}

const ENDED: Layout<2> = Layout {
    tag: 2,
    fields: [Field::Tx, Field::Outcome],
};

/// Transaction 1 and an outcome, as a table.
fn ended(rt: &HostRuntime, outcome: Outcome) -> Result<Vec<u8>, Fail> {
    let mut source = Vec::new(rt.alloc());
    put_outcome(&mut source, outcome)?;
    let values = [Datum::Number(1), Datum::Span(0, source.len())];
    let mut out = Vec::new(rt.alloc());
    ENDED.put(&values, &source, &mut out)?;
    Ok(out)
}

#[test]
fn a_table_is_put_and_taken_with_its_span_moved(rt: HostRuntime) -> Result<(), Fail> {
    let mut out = ended(&rt, Outcome::Commit(Ident(1)))?;
    assert_eq!(rt;
        out.as_slice(),
        b"\x02\0\x01\x01\0\0\0\0\0\0\0\x01".as_slice()
    );
    out.push(b'!')?;
    let whole = ENDED.take(&out).ok_or("what was put is taken")?;
    assert_eq!(rt; whole.values, [Datum::Number(1), Datum::Span(3, 12)]);
    assert_eq!(rt; whole.used, 12);
    Ok(())
}

#[test]
fn lists_are_read_and_spelled_again(rt: HostRuntime) -> Result<(), Fail> {
    let layout = Layout {
        tag: 4,
        fields: [Field::Nodes, Field::Keys, Field::Writes],
    };
    let text = b"\x04\x02\x01\x02\x01\x01b\x01\x01b\0\0\0\0\0\0\0\x0b";
    let whole = layout.take(text).ok_or("lists are taken")?;
    let mut out = Vec::new(rt.alloc());
    if let [Datum::Span(a, b), Datum::Span(c, d), Datum::Span(e, f)] = whole.values {
        let nodes = list_nodes(rt.alloc(), &text[a..b])?;
        assert_eq!(rt; nodes.as_slice().len(), 2);
        put_nodes(&mut out, &nodes)?;
        put_keys(&mut out, &list_keys(rt.alloc(), &text[c..d])?)?;
        put_writes(&mut out, &list_writes(rt.alloc(), &text[e..f])?)?;
    }
    assert_eq!(rt; out.as_slice(), &text[1..]);
    Ok(())
}
