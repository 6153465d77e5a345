//! Bodies of records, byte by byte: those that are, and those that are none.
use super::*;
use score_base::{Ident, Key, NodeId, Outcome, Record, TxId, Value};
use std::test::Fail;

const PREPARED: &[u8] =
    b"\x01\0\x01\x01\x02\x01\x02\0\0\0\0\0\0\0\0\0\0\0\0\0\0\0\x01\0\x01\x01b\0\0\0\0\0\0\0\x0b";

const DECIDED: &[u8] = b"\x04\0\x01\0\0\0\0\0\0\0\x01\x02\x01\x02";

const ENDED: &[u8] = b"\x02\0\x01\x01\0\0\0\0\0\0\0\x01";

const CLOSED: &[u8] = b"\x05\0\x01";

const CEILING: &[u8] = b"\x03\0\0\0\0\0\0\0\x40";

fn node(number: u64) -> Result<NodeId, Fail> {
    Ok(NodeId::new(number).ok_or("a node")?)
}

fn tx(number: u64) -> Result<TxId, Fail> {
    Ok(TxId::new(number).ok_or("a transaction")?)
}

/// The body of the record that a body says.
#[tactic(auto, using(crate::proofs::Taking::can_encode))]
fn again(rt: &HostRuntime, body: &[u8]) -> Result<Vec<u8>, Fail> {
    let mut out = Vec::new(rt.alloc());
    let mut scratch = Vec::new(rt.alloc());
    if let Some(rec) = decode(rt.alloc(), body)? {
        encode(&rec, &mut scratch, &mut out)?;
    }
    Ok(out)
}

#[test]
fn bodies_are_decoded_and_encoded_again(rt: HostRuntime) -> Result<(), Fail> {
    for body in [PREPARED, DECIDED, ENDED, CLOSED, CEILING] {
        assert_eq!(rt; again(&rt, body)?.as_slice(), body);
    }
    Ok(())
}

#[test]
fn records_are_encoded(rt: HostRuntime) -> Result<(), Fail> {
    let mut scratch = Vec::new(rt.alloc());
    let outcome = Outcome::Commit(Ident(1));
    let mut out = Vec::new(rt.alloc());
    encode(
        &Record::Ended { t: tx(1)?, outcome },
        &mut scratch,
        &mut out,
    )?;
    assert_eq!(rt; out.as_slice(), ENDED);

    let mut out = Vec::new(rt.alloc());
    encode(&Record::Ceiling { c: Ident(64) }, &mut scratch, &mut out)?;
    assert_eq!(rt; out.as_slice(), CEILING);

    let mut out = Vec::new(rt.alloc());
    encode(&Record::Closed { t: tx(1)? }, &mut scratch, &mut out)?;
    assert_eq!(rt; out.as_slice(), CLOSED);
    Ok(())
}

#[test]
fn lists_are_decoded(rt: HostRuntime) -> Result<(), Fail> {
    let rec = decode(rt.alloc(), PREPARED)?.ok_or("a record")?;
    let Record::Prepared {
        t,
        home,
        parts,
        sid,
        p,
        reads,
        writes,
    } = rec
    else {
        return Err(Fail::from("a Prepared"));
    };
    assert_eq!(rt; t, tx(1)?);
    assert_eq!(rt; home, node(1)?);
    assert_eq!(rt; parts.as_slice(), [node(1)?, node(2)?].as_slice());
    assert_eq!(rt; (sid, p), (Ident(0), Ident(1)));
    assert_eq!(rt; reads.len(), 0);
    let b = Key::new(b"b").ok_or("a key")?;
    assert_eq!(rt; writes.as_slice(), [(b, Value(11))].as_slice());
    Ok(())
}

#[test]
fn what_is_no_body_is_not_decoded(rt: HostRuntime) -> Result<(), Fail> {
    for body in [PREPARED, DECIDED, ENDED, CLOSED, CEILING] {
        for n in 0..body.len() {
            assert!(rt; decode(rt.alloc(), &body[..n])?.is_none());
        }
        let mut longer = body.to_vec(rt.alloc())?;
        longer.push(0)?;
        assert!(rt; decode(rt.alloc(), &longer)?.is_none());
    }
    for body in [b"\0\0\x01", b"\x06\0\x01", b"\x10\0\x01", b"\x05\0\0"] {
        assert!(rt; decode(rt.alloc(), body)?.is_none());
    }
    Ok(())
}

#[test]
fn the_longest_body(rt: HostRuntime) -> Result<(), Fail> {
    let key = [b'k'; 32];
    let mut body =
        b"\x01\xff\xff\x10\x10\x01\x02\x03\x04\x05\x06\x07\x08\x09\x0a\x0b\x0c\x0d\x0e\x0f\x10".to_vec(
            rt.alloc(),
        )?;
    body.extend_from_slice(&[255; 16])?;
    body.push(32)?;
    for _ in 0..32 {
        body.push(32)?;
        body.extend_from_slice(&key)?;
    }
    body.push(32)?;
    for _ in 0..32 {
        body.push(32)?;
        body.extend_from_slice(&key)?;
        body.extend_from_slice(&[255; 8])?;
    }
    assert_eq!(rt; body.len(), 2407);
    assert_eq!(rt; again(&rt, &body)?, body);
    Ok(())
}
