//! What was prepared.
ghost use Rattle.std.specs.Prelude.{◌≡◌, ◌∷◌, List, reverse};
ghost use Rattle.score_base.specs.declared.records.Record.{Record};
ghost use Rattle.journal_words.specs.Journals.{prepared_of, home_of};

use score_base::{Ident, Key, NodeId, Record, TxId, Value};
use std::marker::Model;

/// What a Prepared record says beside its transaction.
#[derive(Drop)]
pub struct Prepared<'a> {
    pub home: NodeId,
    pub sid: Ident,
    pub proposal: Ident,
    pub reads: &'a [Key],
    pub writes: &'a [(Key, Value)],
}

impl<'a> Model for Prepared<'a> {
    ghost use Rattle.journal_words.specs.Journals.{Prepared};

    ghost Value = { Prepared };

    ghost view = { λ p. record { home = p.home; sid = p.sid; proposal = p.proposal; reads = p.reads.now; writes = p.writes.now } };
}

/// What was prepared of t first, behind one more record.
fn prepared_behind<'a>(
    rec: &'a Record,
    t: TxId,
    before: Option<Prepared<'a>>,
) -> Option<Prepared<'a>>
    ensures { (r : List Record) → before.entry ≡ prepared_of t r → result ≡ prepared_of t (rec.now ∷ r) }
{
    match before {
        Some(first) => Some(first),
        None => match rec {
            Record::Prepared {
                t: u,
                home,
                sid,
                p,
                reads,
                writes,
                ..
            } if *u == t => Some(Prepared {
                home: *home,
                sid: *sid,
                proposal: *p,
                reads: reads.as_slice(),
                writes: writes.as_slice(),
            }),
            _ => None,
        },
    }
}

/// What the first Prepared record of t says.
#[tactic(auto, using(crate::proofs::Newest::newest_more))]
pub fn prepared_of<'a>(records: &'a [Record], t: TxId) -> Option<Prepared<'a>>
    ensures { result ≡ prepared_of t (reverse records.now) }
{
    let mut found = None;
    for rec in records {
        found = prepared_behind(rec, t, found);
    }
    found
}

/// The home of t, by its first Prepared record.
pub fn home_of(records: &[Record], t: TxId) -> Option<NodeId>
    ensures { result ≡ home_of t (reverse records.now) }
{
    match prepared_of(records, t) {
        Some(first) => Some(first.home),
        None => None,
    }
}
