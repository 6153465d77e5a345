//! From a body to its record.

ghost use Rattle.std.specs.Prelude.{◌≡◌, ◌≤◌, ◌⊎◌, List, length, IfOk, IfSome, IfNone, OnErr, slice_index};
ghost use Rattle.score_base.specs.declared.records.Record.{Record};
ghost use Rattle.score_fields.specs.Fields.{Meaning, AllFit, layout_bytes, IsTaken};
ghost use Rattle.journal_records.specs.Records.{record_bytes, IsRecord, decode_of};

use crate::parts::{ident, keys, node, nodes, outcome, tx, writes};
use crate::tables::{layout, row};
use score_base::{Memory, Record};
use score_fields::{Datum, Field, Layout};
use std::alloc::Global;

/// The values of a body that is the spelling of this layout, whole; `None` exactly where it is not.
fn whole<const N: usize>(layout: &Layout<N>, body: &[u8]) -> Option<[Datum; N]>
    requires { N ≤ 8 }
    ensures taken { IfSome result
        (λ values. IsTaken layout.now.tag layout.now.fields body.now values (length body.now)) }
    ensures none { IfNone result ((ms : List Meaning) → AllFit layout.now.fields ms
        → body.now ≡ layout_bytes layout.now.tag layout.now.fields ms → ⊥) }
{
    let Some(taken) = layout.take(body) else {
        return None;
    };
    if taken.used != body.len() {
        return None;
    }
    Some(taken.values)
}

fn prepared(alloc: Global, body: &[u8]) -> Result<Option<Record>, Memory>
    requires { slice_index body.now 0 ≡ 1 }
    ensures { IfOk result (λ o. o ≡ decode_of body.now) }
{
    let Some(values) = whole(&layout!(Prepared), body) else {
        return Ok(None);
    };
    Ok(Some(Record::Prepared {
        t: tx(&values[0], body),
        home: node(&values[1], body),
        parts: nodes(alloc, &values[2], body)?,
        sid: ident(&values[3], body),
        p: ident(&values[4], body),
        reads: keys(alloc, &values[5], body)?,
        writes: writes(alloc, &values[6], body)?,
    }))
}

fn ended(body: &[u8]) -> Option<Record>
    requires { slice_index body.now 0 ≡ 2 }
    ensures { result ≡ decode_of body.now }
{
    let Some(values) = whole(&layout!(Ended), body) else {
        return None;
    };
    Some(Record::Ended {
        t: tx(&values[0], body),
        outcome: outcome(&values[1], body),
    })
}

fn ceiling(body: &[u8]) -> Option<Record>
    requires { slice_index body.now 0 ≡ 3 }
    ensures { result ≡ decode_of body.now }
{
    let Some(values) = whole(&layout!(Ceiling), body) else {
        return None;
    };
    Some(Record::Ceiling {
        c: ident(&values[0], body),
    })
}

fn decided(alloc: Global, body: &[u8]) -> Result<Option<Record>, Memory>
    requires { slice_index body.now 0 ≡ 4 }
    ensures { IfOk result (λ o. o ≡ decode_of body.now) }
{
    let Some(values) = whole(&layout!(Decided), body) else {
        return Ok(None);
    };
    Ok(Some(Record::Decided {
        t: tx(&values[0], body),
        f: ident(&values[1], body),
        parts: nodes(alloc, &values[2], body)?,
    }))
}

fn closed(body: &[u8]) -> Option<Record>
    requires { slice_index body.now 0 ≡ 5 }
    ensures { result ≡ decode_of body.now }
{
    let Some(values) = whole(&layout!(Closed), body) else {
        return None;
    };
    Some(Record::Closed {
        t: tx(&values[0], body),
    })
}

fn by_tag(alloc: Global, body: &[u8]) -> Result<Option<Record>, Memory>
    ensures exact { IfOk result (λ o. o ≡ decode_of body.now) }
    ensures memory { OnErr result ((slice_index body.now 0 ≡ 1) ⊎ (slice_index body.now 0 ≡ 4)) }
{
    let [tag, ..] = body else {
        return Ok(None);
    };
    match *tag {
        1 => prepared(alloc, body),
        2 => Ok(ended(body)),
        3 => Ok(ceiling(body)),
        4 => decided(alloc, body),
        5 => Ok(closed(body)),
        _ => Ok(None),
    }
}

/// The record that a body is the spelling of, whole; `None` exactly where it is the spelling of none.
/// Want of memory is answered only for a body of tag 1 or 4, whose records hold lists: any other
/// takes no memory.
pub fn decode(alloc: Global, body: &[u8]) -> Result<Option<Record>, Memory>
    ensures found { IfOk result (λ o. IfSome o (λ r. IsRecord r × (body.now ≡ record_bytes r))) }
    ensures none { IfOk result (λ o. IfNone o ((r : Record) → IsRecord r → body.now ≡ record_bytes r → ⊥)) }
    ensures exact { IfOk result (λ o. o ≡ decode_of body.now) }
    ensures memory { OnErr result ((slice_index body.now 0 ≡ 1) ⊎ (slice_index body.now 0 ≡ 4)) }
{
    by_tag(alloc, body)
}
