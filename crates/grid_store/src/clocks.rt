//! The clock, behind one more record.

ghost use Rattle.std.specs.Prelude.{◌≡◌, ◌∷◌, List, Some};
ghost use Rattle.score_base.specs.declared.ids.TxId.{TxId};
ghost use Rattle.score_base.specs.declared.records.Record.{Record};
ghost use Rattle.score_base.specs.declared.records.Record.TheVariants as record';
ghost use Rattle.journal_words.specs.Journals.{learnt};
ghost use Rattle.grid_store.specs.Keeping.{KeepsClock};

use node_clock::NodeClock;
use score_base::{Outcome, Record};

/// The clock learns the final identifier of a commit.
fn learn_end(clock: &mut NodeClock<64>, outcome: &Outcome)
    ensures keeps { (r : List Record) (t : TxId) →
        KeepsClock clock.old r → KeepsClock clock.new (record'.Ended t outcome.now ∷ r) }
    ensures next { (t : TxId) → clock.new.next ≡ learnt (Some (record'.Ended t outcome.now)) clock.old.next }
{
    match outcome {
        Outcome::Commit(f) => clock.learn(*f),
        Outcome::Abort => {}
    }
}

/// The clock learns a proposal or a final identifier, and promises a ceiling.
pub(crate) fn learn(clock: &mut NodeClock<64>, rec: &Record)
    ensures keeps { (r : List Record) → KeepsClock clock.old r → KeepsClock clock.new (rec.now ∷ r) }
    ensures next { clock.new.next ≡ learnt (Some rec.now) clock.old.next }
{
    match rec {
        Record::Prepared { p, .. } => clock.learn(*p),
        Record::Ended { outcome, .. } => learn_end(clock, outcome),
        Record::Ceiling { c } => clock.promise(*c),
        _ => {}
    }
}
