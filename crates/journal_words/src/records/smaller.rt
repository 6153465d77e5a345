//! What a compaction keeps of a journal.
ghost use Rattle.std.specs.Prelude.{◌≡◌, ◌||◌, ◌==◌, ◌++◌, ◌∷◌, ℕ, Bool, false, List, IfOk, OnOk};
ghost use Rattle.score_base.specs.declared.ids.TxId.{TxId};
ghost use Rattle.score_base.specs.declared.records.Record.{Record};
ghost use Rattle.journal_words.specs.Small.{
  closes,
  is_ceiling,
  is_needless,
  is_set,
  small,
  small_in_time,
  without_needless,
};

use score_base::{Memory, Record, TxId, push};
use std::alloc::Global;

/// Sets the flag of t, behind as many flags that are not as it takes.
fn set(flags: &mut Vec<bool>, t: TxId) -> Result<(), Memory>
    ensures { OnOk result ((u : TxId) → is_set flags.new.items u ≡ (is_set flags.old.items u || (t == u))) }
{
    let place = t.number as usize;
    for _ in flags.len()..place + 1 {
        push(flags, false)?;
    }
    flags[place] = true;
    Ok(())
}

/// What the records behind a place have made needless before it: the Ceilings where one of them is
/// one, and each Decided of a transaction that one of them closes.
#[derive(Drop)]
struct Later {
    ceiling: bool,
    closed: Vec<bool>,
}

impl Later {
    /// Whether the record is needless.
    fn is_needless(&self, rec: &Record) -> bool
        ensures { result ≡ is_needless self.now.ceiling (is_set self.now.closed.items) rec.now }
    {
        match rec {
            Record::Ceiling { .. } => self.ceiling,
            Record::Decided { t, .. } => self.is_closed(*t),
            Record::Closed { .. } => true,
            _ => false,
        }
    }

    /// Whether one of the records behind closes t.
    fn is_closed(&self, t: TxId) -> bool
        ensures { result ≡ is_set self.now.closed.items t }
    {
        let place = t.number as usize;
        place < self.closed.len() && self.closed[place]
    }

    /// One record more stands behind.
    fn note(&mut self, rec: &Record) -> Result<(), Memory>
        ensures ceiling { OnOk result (self.new.ceiling ≡ (self.old.ceiling || is_ceiling rec.now)) }
        ensures closed { OnOk result ((u : TxId) →
            is_set self.new.closed.items u ≡ (is_set self.old.closed.items u || closes u rec.now)) }
    {
        match rec {
            Record::Ceiling { .. } => {
                self.ceiling = true;
                Ok(())
            }
            Record::Closed { t } => set(&mut self.closed, *t),
            _ => Ok(()),
        }
    }
}

/// Keeps the record, the newest that was not looked at yet, where it is not needless.
fn keep(kept: &mut Vec<Record>, later: &mut Later, rec: Record) -> Result<(), Memory>
    ensures { OnOk result ((r : List Record) →
        kept.new.items ++ without_needless later.new.ceiling (is_set later.new.closed.items) (small r)
        ≡ kept.old.items ++ without_needless later.old.ceiling (is_set later.old.closed.items) (small (rec ∷ r))) }
{
    let needless = later.is_needless(&rec);
    later.note(&rec)?;
    if needless {
        return Ok(());
    }
    push(kept, rec)
}

/// What a compaction keeps of these records: those without each Ceiling but the last, without each
/// Closed, and without each Decided behind which a Closed of its transaction stands. It looks at each
/// record once, the newest first.
pub fn small(records: Vec<Record>) -> Result<Vec<Record>, Memory>
    ensures { IfOk result (λ kept. kept.items ≡ small_in_time records.items) }
{
    let alloc = *records.allocator();
    let mut records = records;
    let mut later = Later {
        ceiling: false,
        closed: Vec::new(alloc),
    };
    let mut kept = Vec::new(alloc);
    while let Some(rec) = records.pop() {
        keep(&mut kept, &mut later, rec)?;
    }
    kept.reverse();
    Ok(kept)
}
