//! A store of the records of a journal.

ghost use Rattle.std.specs.Prelude.{◌≡◌, ◌∷◌, true, false, Some, IfOk, IfErr};
ghost use Rattle.journal_words.specs.Journals.{learnt, fits};
ghost use Rattle.grid_store.specs.Replay.{IsReplayed, IsEnd};

use crate::store::Store;
use placement::Cluster;
use score_base::{Memory, NodeId, Record, TryCopy};
use std::alloc::Global;

/// Why a replay gives no store.
#[derive(Clone, Copy, Debug, PartialEq, Eq)]
pub enum ReplayEnd {
    /// The record at this place is the first that does not fit those before it.
    Strange(usize),
    /// Memory was wanting.
    Memory,
}

impl Store {
    /// Takes in a copy of a record, where it fits; tells whether it does.
    fn take_next(&mut self, rec: &Record) -> Result<bool, Memory>
        ensures fits { IfOk result (λ fit. fit ≡ fits self.old.cluster self.old.node self.old.journal rec.now) }
        ensures journal { IfOk result (λ fit. fit ≡ true → self.new.journal ≡ rec.now ∷ self.old.journal) }
        ensures before { IfOk result (λ fit. fit ≡ false → self.new.journal ≡ self.old.journal) }
        ensures next { IfOk result (λ fit. fit ≡ true → self.new.next ≡ learnt (Some rec.now) self.old.next) }
        ensures node { self.new.node ≡ self.old.node }
        ensures cluster { self.new.cluster ≡ self.old.cluster }
    {
        if !self.fits(rec) {
            return Ok(false);
        }
        self.reserve(rec)?;
        self.admit(rec.copy()?);
        Ok(true)
    }

    /// The store of a node that has these records, the oldest first. Its clock stands at the floor.
    pub fn replay(
        alloc: Global,
        cluster: &Cluster,
        me: NodeId,
        records: &[Record],
    ) -> Result<Store, ReplayEnd>
        ensures store { IfOk result (IsReplayed cluster.now me records.now) }
        ensures end { IfErr result (IsEnd cluster.now me records.now) }
    {
        let copy = match cluster.copy() {
            Ok(copy) => copy,
            Err(_) => return Err(ReplayEnd::Memory),
        };
        let mut store = Store::new(alloc, copy, me);
        for rec in records {
            match store.take_next(rec) {
                Ok(true) => {}
                Ok(false) => return Err(ReplayEnd::Strange(store.len())),
                Err(_) => return Err(ReplayEnd::Memory),
            }
        }
        store.raise(store.floor());
        Ok(store)
    }
}
