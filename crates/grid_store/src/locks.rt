//! The lock table and the commits that wait, behind one more record.

ghost use Rattle.std.specs.Prelude.{◌≡◌, ◌∷◌, ◌&&◌, ◌≤◌, true, reverse, IfSome, OnOk, List};
ghost use Rattle.score_base.specs.declared.ids.NodeId.{NodeId};
ghost use Rattle.score_base.specs.declared.ids.TxId.{TxId};
ghost use Rattle.score_base.specs.declared.ids.Ident.{Ident};
ghost use Rattle.score_base.specs.declared.records.Record.{Record};
ghost use Rattle.score_base.specs.declared.records.Record.TheVariants as record';
ghost use Rattle.placement.specs.Clusters.{ClusterData};
ghost use Rattle.journal_words.specs.Journals.{commit_id, all_fit};
ghost use Rattle.grid_store.specs.Given.{keys_for};
ghost use Rattle.grid_store.specs.Keeping.{KeepsPending, KeepsLocks, KeepsStable, KeepsApplied, Settles, CanTake, CanWait};
ghost use Rattle.grid_store.specs.Chained.{KeepsChains, HasPlaces, Applies, waits_behind};
ghost use Rattle.score_base.specs.declared.keys.Key.{Key};
ghost use Rattle.score_base.specs.declared.ids.Value.{Value};
ghost use Rattle.version_chain.specs.Kept.{StartsBy};

use crate::chained::apply;
use lock_table::Locks;
use pending_queue::Pending;
use score_base::{Ident, Memory, Ordered, Outcome, Record, TxId};
use stable_queue::Stable;
use version_chain::Chains;

/// A commit waits, and an abort frees its keys.
fn end(stable: &mut Stable, locks: &mut Locks, t: TxId, outcome: &Outcome)
    requires { CanWait stable.old (record'.Ended t outcome.now) }
    ensures commits { stable.new.commits ≡ waits_behind stable.old.commits (record'.Ended t outcome.now) }
    ensures settles { (c : ClusterData) (n : NodeId) (r : List Record) (top : Ident) →
        all_fit c n (record'.Ended t outcome.now ∷ r) ≡ true →
        KeepsApplied stable.old.commits top r → KeepsStable stable.old.commits r → KeepsLocks locks.old r →
        Settles stable.new.commits locks.new top (record'.Ended t outcome.now ∷ r) }
{
    match outcome {
        Outcome::Commit(f) => stable.add(*f, t),
        Outcome::Abort => locks.free(t),
    }
}

/// A Prepared takes its keys; behind an Ended its commit waits, or its keys are free.
pub(crate) fn take(stable: &mut Stable, locks: &mut Locks, rec: &Record)
    requires free { CanTake locks.old rec.now }
    requires new { CanWait stable.old rec.now }
    ensures commits { stable.new.commits ≡ waits_behind stable.old.commits rec.now }
    ensures settles { (c : ClusterData) (n : NodeId) (r : List Record) (top : Ident) →
        all_fit c n (rec.now ∷ r) ≡ true →
        KeepsApplied stable.old.commits top r → KeepsStable stable.old.commits r → KeepsLocks locks.old r →
        Settles stable.new.commits locks.new top (rec.now ∷ r) }
{
    match rec {
        Record::Prepared {
            t,
            reads,
            writes,
            ..
        } => locks.take(reads.as_slice(), writes.as_slice(), *t),
        Record::Ended { t, outcome } => end(stable, locks, *t, outcome),
        Record::Ceiling { .. } => {}
        Record::Decided { .. } => {}
        Record::Closed { .. } => {}
    }
}

/// How many keys a record locks; `None` where that is more than a list can have.
fn keys_for(rec: &Record) -> Option<usize>
    ensures { IfSome result (λ n. n ≡ keys_for rec.now) }
{
    match rec {
        Record::Prepared { reads, writes, .. } => reads.len().checked_add(writes.len()),
        _ => Some(0),
    }
}

/// Makes room for the locks of a record.
pub(crate) fn make_room(locks: &mut Locks, rec: &Record) -> Result<(), Memory>
    ensures room { OnOk result (keys_for rec.now ≤ locks.new.spare) }
    ensures keys { locks.new.keys ≡ locks.old.keys }
    ensures written { locks.new.written ≡ locks.old.written }
{
    match keys_for(rec) {
        Some(n) => locks.reserve(n),
        None => Err(Memory),
    }
}

/// Applies each commit below every pending proposal, in order: what it wrote is put, its keys are
/// free, and the greatest final identifier that is applied is at least its own.
pub(crate) fn settle(
    stable: &mut Stable,
    locks: &mut Locks,
    applied: &mut Ident,
    chains: &mut Chains,
    pending: &Pending,
    places: &Ordered<TxId, usize>,
    records: &[Record],
)
    requires { (c : ClusterData) × (n : NodeId) × Applies c n records.now places.now.pairs pending.now.proposals
        stable.old.commits locks.old applied.old chains.old }
    ensures stable { KeepsStable stable.new.commits (reverse records.now) }
    ensures applied { applied.new ≡ commit_id (reverse records.now) }
    ensures locks { KeepsLocks locks.new (reverse records.now) }
    ensures chains { KeepsChains stable.new.commits chains.new (reverse records.now) }
    ensures writable { HasPlaces stable.new.commits chains.new (reverse records.now) }
    ensures places { chains.new.places ≡ chains.old.places }
    ensures initial { (init : Key → Value) → StartsBy init chains.old → StartsBy init chains.new }
{
    while let Some(first) = stable.pop_below(pending.least()) {
        apply(chains, places, records, first.0, first.1);
        locks.free(first.1);
        *applied = (*applied).max(first.0);
    }
}
