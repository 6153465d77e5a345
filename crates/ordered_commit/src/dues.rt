//! An end that is due on its record.

ghost use Rattle.std.specs.Prelude.{◌≡◌, ◌∷◌, true, Some};
ghost use Rattle.journal_words.specs.Journals.{fits, learnt};
ghost use Rattle.grid_store.specs.Given.{HasRoom};

use grid_store::Store;
use node_journal::Kept;
use score_base::{NodeId, Outcome, Record, TxId};

/// An end that waits until its record is kept. It can be neither copied nor dropped: it ends by the
/// receipt of that record, or where the journal stopped at it.
pub struct EndDue {
    t: TxId,
    outcome: Outcome,
    home: NodeId,
}

impl EndDue {
    ghost use Rattle.ordered_commit.specs.Ends.{IsOf, acked};

    /// The end of a transaction of this home.
    pub(crate) fn made(t: TxId, outcome: &Outcome, home: NodeId) -> EndDue
        ensures t { result.t ≡ t }
        ensures outcome { result.outcome ≡ outcome.now }
        ensures home { result.home ≡ home }
    {
        let outcome = *outcome;
        EndDue { t, outcome, home }
    }

    /// The end, where its record is kept: the store takes the record in. The home is given, to which a
    /// commit is acknowledged; `None` exactly for an abort. It takes no memory.
    pub fn settle(self, store: &mut Store, kept: Kept) -> Option<NodeId>
        requires of { IsOf self kept.rec }
        requires fits { fits store.old.cluster store.old.node store.old.journal kept.rec ≡ true }
        requires room { HasRoom kept.rec store.old.room }
        ensures home { result ≡ acked self }
        ensures journal { store.new.journal ≡ kept.rec ∷ store.old.journal }
        ensures next { store.new.next ≡ learnt (Some kept.rec) store.old.next }
        ensures node { store.new.node ≡ store.old.node }
        ensures cluster { store.new.cluster ≡ store.old.cluster }
    {
        let EndDue {
            t: _,
            outcome,
            home,
        } = self;
        store.admit(kept.spend());
        match outcome {
            Outcome::Commit(_) => Some(home),
            Outcome::Abort => None,
        }
    }

    /// There is no end, since the journal stopped at its record, which it gave back.
    pub fn down(self, rec: Record)
        requires { IsOf self rec }
    {
        let EndDue {
            t: _,
            outcome: _,
            home: _,
        } = self;
        drop(rec);
    }
}
