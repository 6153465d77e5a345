//! A yes that is due on its record.

ghost use Rattle.std.specs.Prelude.{◌≡◌, ◌∷◌, true, Some};
ghost use Rattle.journal_words.specs.Journals.{fits, learnt};
ghost use Rattle.grid_store.specs.Given.{HasRoom};

use grid_store::Store;
use node_journal::Kept;
use score_base::{Ident, NodeId, Record, TxId};

/// A yes that waits until its record is kept. It can be neither copied nor dropped: it ends by the
/// receipt of that record, or where the journal stopped at it.
pub struct Due {
    t: TxId,
    home: NodeId,
    p: Ident,
}

impl Due {
    ghost use Rattle.prepare_vote.specs.Votes.{IsOf};

    /// The yes on a transaction of this home with the proposal `p`.
    pub(crate) fn made(t: TxId, home: NodeId, p: Ident) -> Due
        ensures t { result.t ≡ t }
        ensures home { result.home ≡ home }
        ensures p { result.p ≡ p }
    {
        Due { t, home, p }
    }

    /// The vote, where its record is kept: the store takes the record in, and the home and the
    /// proposal are given. It takes no memory.
    pub fn vote(self, store: &mut Store, kept: Kept) -> (NodeId, Ident)
        requires of { IsOf self kept.rec }
        requires fits { fits store.old.cluster store.old.node store.old.journal kept.rec ≡ true }
        requires room { HasRoom kept.rec store.old.room }
        ensures vote { result ≡ (self.home, self.p) }
        ensures journal { store.new.journal ≡ kept.rec ∷ store.old.journal }
        ensures next { store.new.next ≡ learnt (Some kept.rec) store.old.next }
        ensures node { store.new.node ≡ store.old.node }
        ensures cluster { store.new.cluster ≡ store.old.cluster }
    {
        let Due { t: _, home, p } = self;
        store.admit(kept.spend());
        (home, p)
    }

    /// There is no vote, since the journal stopped at its record, which it gave back.
    pub fn down(self, rec: Record)
        requires { IsOf self rec }
    {
        let Due {
            t: _,
            home: _,
            p: _,
        } = self;
        drop(rec);
    }
}
