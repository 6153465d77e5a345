//! What a home decided, and what of it isn't closed.
ghost use Rattle.std.specs.Prelude.{◌≡◌, ◌+◌, ◌∷◌, List, reverse, if◌then◌else◌};
ghost use Rattle.std.specs.Option.{option_map};
ghost use Rattle.score_base.specs.declared.records.Record.{Record};
ghost use Rattle.journal_words.specs.Journals.{decision, is_closed, undone, times_decided, later_decision, times_over};

use score_base::{Ident, NodeList, Record, TxId};
use std::marker::Model;

/// What a Decided record says beside its transaction.
#[derive(Drop)]
pub struct Decided<'a> {
    pub final_ident: Ident,
    pub parts: &'a NodeList,
}

impl<'a> Model for Decided<'a> {
    ghost use Rattle.journal_words.specs.Journals.{Decision};

    ghost Value = { Decision };

    ghost view = { λ d. record { final = d.final_ident; parts = d.parts.now } };
}

/// The decision on t behind one more record.
fn decision_behind<'a>(rec: &'a Record, t: TxId, before: Option<Decided<'a>>) -> Option<Decided<'a>>
    ensures { (r : List Record) → before.entry ≡ decision t r → result ≡ decision t (rec.now ∷ r) }
{
    match rec {
        Record::Decided { t: u, f, parts } if *u == t => Some(Decided {
            final_ident: *f,
            parts,
        }),
        _ => before,
    }
}

/// Whether a record is a Decided of t.
fn is_decided_in(rec: &Record, t: TxId) -> bool
    ensures { (r : List Record)
        → times_decided t (rec.now ∷ r) ≡ (if result then times_decided t r + 1 else times_decided t r) }
{
    match rec {
        Record::Decided { t: u, .. } => *u == t,
        _ => false,
    }
}

/// The final identifier and the parts of the last Decided record of t.
#[tactic(auto, using(crate::proofs::Newest::newest_more))]
pub fn decision<'a>(records: &'a [Record], t: TxId) -> Option<Decided<'a>>
    ensures { result ≡ decision t (reverse records.now) }
{
    let mut found = None;
    for rec in records {
        found = decision_behind(rec, t, found);
    }
    found
}

/// How many Decided records of t there are.
#[tactic(auto, using(crate::proofs::Newest::newest_more))]
fn times_decided(records: &[Record], t: TxId) -> usize
    ensures { result ≡ times_decided t (reverse records.now) }
{
    let mut times = 0;
    for rec in records {
        if is_decided_in(rec, t) {
            times += 1;
        }
    }
    times
}

/// The last Decided record of t, where there are more than this many of them.
pub fn later_decision<'a>(times: usize, records: &'a [Record], t: TxId) -> Option<Decided<'a>>
    ensures { result ≡ later_decision times t (reverse records.now) }
{
    if times < times_decided(records, t) {
        return decision(records, t);
    }
    None
}

/// The final identifier of the last Decided record of t, where there are more than this many of them.
pub fn later_final(times: usize, records: &[Record], t: TxId) -> Option<Ident>
    ensures { result ≡ option_map (λ d. d.final) (later_decision times t (reverse records.now)) }
{
    match later_decision(times, records, t) {
        Some(decided) => Some(decided.final_ident),
        None => None,
    }
}

/// How many Decided records of t are over: all of them, but none where the last is not closed.
pub fn times_over(records: &[Record], t: TxId) -> usize
    ensures { result ≡ times_over t (reverse records.now) }
{
    if undone(records, t).is_some() {
        return 0;
    }
    times_decided(records, t)
}

/// Whether t is closed behind one more record.
fn is_closed_behind(rec: &Record, t: TxId, before: bool) -> bool
    ensures { (r : List Record) → before ≡ is_closed t r → result ≡ is_closed t (rec.now ∷ r) }
{
    match rec {
        Record::Closed { t: u } => *u == t || before,
        Record::Decided { t: u, .. } => *u != t && before,
        _ => before,
    }
}

/// Whether t has a Closed record behind which it isn't decided again.
#[tactic(auto, using(crate::proofs::Newest::newest_more))]
pub fn is_closed(records: &[Record], t: TxId) -> bool
    ensures { result ≡ is_closed t (reverse records.now) }
{
    let mut closed = false;
    for rec in records {
        closed = is_closed_behind(rec, t, closed);
    }
    closed
}

/// The final identifier and the parts of t where it is decided and not closed.
pub fn undone<'a>(records: &'a [Record], t: TxId) -> Option<Decided<'a>>
    ensures { result ≡ undone t (reverse records.now) }
{
    if is_closed(records, t) {
        return None;
    }
    decision(records, t)
}
