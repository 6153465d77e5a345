//! What is pending, which commits are applied, and the commit identifier.
ghost use Rattle.std.specs.Prelude.{◌≡◌, ◌∷◌, List, reverse, IfOk, OnOk};
ghost use Rattle.score_base.specs.declared.records.Record.{Record};
ghost use Rattle.journal_words.specs.Journals.{pendings, is_clear, commits, applied, commit_id};

use super::pairs::PairList;
use score_base::{Ident, Memory, Outcome, Record};
use std::alloc::Global;

/// What is pending behind one more record.
fn pendings_behind(rec: &Record, pairs: &mut PairList) -> Result<(), Memory>
    ensures { OnOk result ((r : List Record) → pairs.old ≡ pendings r → pairs.new ≡ pendings (rec.now ∷ r)) }
{
    match rec {
        Record::Prepared { t, p, .. } => pairs.push(*t, *p),
        Record::Ended { t, .. } => {
            pairs.take_out(*t);
            Ok(())
        }
        _ => Ok(()),
    }
}

/// Each pending transaction with its proposal.
#[tactic(auto, using(crate::proofs::Newest::newest_more))]
pub fn pendings(alloc: Global, records: &[Record]) -> Result<PairList, Memory>
    ensures { IfOk result (λ pairs. pairs ≡ pendings (reverse records.now)) }
{
    let mut pairs = PairList::new(alloc);
    for rec in records {
        pendings_behind(rec, &mut pairs)?;
    }
    Ok(pairs)
}

/// Whether no pending proposal is at most the identifier.
pub fn is_clear(alloc: Global, records: &[Record], sid: Ident) -> Result<bool, Memory>
    ensures { IfOk result (λ clear. clear ≡ is_clear sid (reverse records.now)) }
{
    Ok(pendings(alloc, records)?.all_above(sid))
}

/// Each transaction that ended with commit, with its final identifier.
#[tactic(auto, using(crate::proofs::Newest::newest_more))]
pub fn commits(alloc: Global, records: &[Record]) -> Result<PairList, Memory>
    ensures { IfOk result (λ pairs. pairs ≡ commits (reverse records.now)) }
{
    let mut pairs = PairList::new(alloc);
    for rec in records {
        if let Record::Ended {
            t,
            outcome: Outcome::Commit(f),
        } = rec
        {
            pairs.push(*t, *f)?;
        }
    }
    Ok(pairs)
}

/// The commits that are applied: every pending proposal is above them.
#[tactic(auto, using(crate::proofs::Newest::newest_more))]
pub fn applied(alloc: Global, records: &[Record]) -> Result<PairList, Memory>
    ensures { IfOk result (λ pairs. pairs ≡ applied (reverse records.now)) }
{
    let pending = pendings(alloc, records)?;
    let commits = commits(alloc, records)?;
    let mut pairs = PairList::new(alloc);
    for pair in commits.oldest_first() {
        if pending.all_above(pair.1) {
            pairs.push(pair.0, pair.1)?;
        }
    }
    Ok(pairs)
}

/// The commit identifier: the greatest final identifier that is applied; 0 where there is none.
pub fn commit_id(alloc: Global, records: &[Record]) -> Result<Ident, Memory>
    ensures { IfOk result (λ ident. ident ≡ commit_id (reverse records.now)) }
{
    Ok(applied(alloc, records)?.greatest())
}
