//! The values of a record's fields, as they stand in its body.

ghost use Rattle.std.specs.Prelude.{◌≡◌, ◌<◌, ◌^◌, IfOk};
ghost use Rattle.score_fields.specs.declared.fields.Field.TheVariants as field;
ghost use Rattle.score_fields.specs.Spelling.{IsTx, IsNode, AreNodes, nodes_bytes, AreKeys, keys_bytes, AreWrites, writes_bytes, IsOutcome, outcome_bytes};
ghost use Rattle.score_fields.specs.Fields.{Number, Bytes, meaning};
ghost use Rattle.journal_records.specs.Records.{Stands};

use score_base::{Ident, KeyList, Memory, NodeId, NodeList, Outcome, TxId, WriteList};
use score_fields::{Datum, list_keys, list_nodes, list_writes, read_outcome};
use std::alloc::Global;

pub fn tx(datum: &Datum, body: &[u8]) -> TxId
    requires { Stands body.now field.Tx datum.now }
    ensures fits { IsTx result }
    ensures value { meaning body.now datum.now ≡ Number result }
{
    match datum {
        Datum::Number(n) => TxId { number: *n as u16 },
        _ => unreachable!(),
    }
}

pub fn node(datum: &Datum, body: &[u8]) -> NodeId
    requires { Stands body.now field.Node datum.now }
    ensures fits { IsNode result }
    ensures value { meaning body.now datum.now ≡ Number result }
{
    match datum {
        Datum::Number(n) => NodeId { number: *n as u8 },
        _ => unreachable!(),
    }
}

pub fn ident(datum: &Datum, body: &[u8]) -> Ident
    requires { Stands body.now field.U64 datum.now }
    ensures fits { result < 2 ^ 64 }
    ensures value { meaning body.now datum.now ≡ Number result }
{
    match datum {
        Datum::Number(n) => Ident(*n),
        _ => unreachable!(),
    }
}

pub fn outcome(datum: &Datum, body: &[u8]) -> Outcome
    requires { Stands body.now field.Outcome datum.now }
    ensures fits { IsOutcome result }
    ensures value { meaning body.now datum.now ≡ Bytes (outcome_bytes result) }
{
    match datum {
        Datum::Span(start, end) => read_outcome(&body[*start..*end]),
        _ => unreachable!(),
    }
}

pub fn nodes(alloc: Global, datum: &Datum, body: &[u8]) -> Result<NodeList, Memory>
    requires { Stands body.now field.Nodes datum.now }
    ensures fits { IfOk result (λ list. AreNodes list) }
    ensures value { IfOk result (λ list. meaning body.now datum.now ≡ Bytes (nodes_bytes list)) }
{
    match datum {
        Datum::Span(start, end) => list_nodes(alloc, &body[*start..*end]),
        _ => unreachable!(),
    }
}

pub fn keys(alloc: Global, datum: &Datum, body: &[u8]) -> Result<KeyList, Memory>
    requires { Stands body.now field.Keys datum.now }
    ensures fits { IfOk result (λ list. AreKeys list) }
    ensures value { IfOk result (λ list. meaning body.now datum.now ≡ Bytes (keys_bytes list)) }
{
    match datum {
        Datum::Span(start, end) => list_keys(alloc, &body[*start..*end]),
        _ => unreachable!(),
    }
}

pub fn writes(alloc: Global, datum: &Datum, body: &[u8]) -> Result<WriteList, Memory>
    requires { Stands body.now field.Writes datum.now }
    ensures fits { IfOk result (λ list. AreWrites list) }
    ensures value { IfOk result (λ list. meaning body.now datum.now ≡ Bytes (writes_bytes list)) }
{
    match datum {
        Datum::Span(start, end) => list_writes(alloc, &body[*start..*end]),
        _ => unreachable!(),
    }
}
