//! What is pending, what ended, and the clock's floor.
ghost use Rattle.std.specs.Prelude.{◌≡◌, ◌∷◌, List, reverse};
ghost use Rattle.score_base.specs.declared.records.Record.{Record};
ghost use Rattle.journal_words.specs.Journals.{pending, names_part, ended, floor};

use score_base::{Ident, NodeId, Outcome, Record, TxId};

/// What is pending of t behind one more record.
fn pending_behind(rec: &Record, t: TxId, before: Option<Ident>) -> Option<Ident>
    ensures { (r : List Record) → before ≡ pending t r → result ≡ pending t (rec.now ∷ r) }
{
    match rec {
        Record::Prepared { t: u, p, .. } if *u == t => Some(*p),
        Record::Ended { t: u, .. } if *u == t => None,
        _ => before,
    }
}

/// The proposal of t where it is pending.
#[tactic(auto, using(crate::proofs::Newest::newest_more))]
pub fn pending(records: &[Record], t: TxId) -> Option<Ident>
    ensures { result ≡ pending t (reverse records.now) }
{
    let mut found = None;
    for rec in records {
        found = pending_behind(rec, t, found);
    }
    found
}

/// Whether the newest Prepared of t names m among its parts, behind one more record.
fn names_part_behind(rec: &Record, t: TxId, m: NodeId, before: bool) -> bool
    ensures { (r : List Record) → before ≡ names_part t m r → result ≡ names_part t m (rec.now ∷ r) }
{
    match rec {
        Record::Prepared { t: u, parts, .. } if *u == t => parts.as_slice().contains(&m),
        _ => before,
    }
}

/// Whether the newest Prepared of t names m among its parts.
#[tactic(auto, using(crate::proofs::Newest::newest_more))]
pub fn names_part(records: &[Record], t: TxId, m: NodeId) -> bool
    ensures { result ≡ names_part t m (reverse records.now) }
{
    let mut named = false;
    for rec in records {
        named = names_part_behind(rec, t, m, named);
    }
    named
}

/// How t ended behind one more record.
fn ended_behind(rec: &Record, t: TxId, before: Option<Outcome>) -> Option<Outcome>
    ensures { (r : List Record) → before ≡ ended t r → result ≡ ended t (rec.now ∷ r) }
{
    match rec {
        Record::Ended { t: u, outcome } if *u == t => Some(*outcome),
        _ => before,
    }
}

/// How t ended, where it ended.
#[tactic(auto, using(crate::proofs::Newest::newest_more))]
pub fn ended(records: &[Record], t: TxId) -> Option<Outcome>
    ensures { result ≡ ended t (reverse records.now) }
{
    let mut found = None;
    for rec in records {
        found = ended_behind(rec, t, found);
    }
    found
}

/// The floor behind one more record.
fn floor_behind(rec: &Record, before: Ident) -> Ident
    ensures { (r : List Record) → before ≡ floor r → result ≡ floor (rec.now ∷ r) }
{
    match rec {
        Record::Prepared { p, .. } => before.max(*p),
        Record::Ended {
            outcome: Outcome::Commit(f),
            ..
        } => before.max(*f),
        Record::Ceiling { c } => before.max(*c),
        _ => before,
    }
}

/// The greatest proposal, final identifier and ceiling; 0 where there is none.
#[tactic(auto, using(crate::proofs::Newest::newest_more))]
pub fn floor(records: &[Record]) -> Ident
    ensures { result ≡ floor (reverse records.now) }
{
    let mut greatest = Ident(0);
    for rec in records {
        greatest = floor_behind(rec, greatest);
    }
    greatest
}
