//! A read that waits for its ceiling to be kept.

ghost use Rattle.std.specs.Prelude.{◌≡◌, ◌≤◌, ◌∷◌, true, max};
ghost use Rattle.journal_words.specs.Journals.{fits, floor};
ghost use Rattle.grid_store.specs.Given.{HasRoom};
ghost use Rattle.snapshot_read.specs.Reads.{ceiling_for, served_or_held};
ghost use Rattle.snapshot_read.specs.Calls.{held_with};

use crate::answers::Promised;
use crate::waiting::Waiting;
use grid_model::HeldRead;
use grid_store::Store;
use node_journal::Kept;
use score_base::Record;

/// A read above the floor, whose answer waits for the record of its ceiling. Only an arriving read
/// makes one. It can be neither copied nor dropped: it ends by the receipt of that record, or where the
/// journal stopped at it.
pub struct CeilingDue {
    read: HeldRead,
}

impl CeilingDue {
    /// The read that waits for its ceiling.
    pub(crate) fn made(read: HeldRead) -> CeilingDue
        ensures { result.read ≡ read }
    {
        CeilingDue { read }
    }

    /// Answers the read, where its ceiling is kept: the store takes the record in, and the read is
    /// held or served. It takes no memory.
    pub fn go(self, waiting: &mut Waiting, store: &mut Store, kept: Kept) -> Promised
        requires of { kept.rec ≡ ceiling_for self.read }
        requires fit { fits store.old.cluster store.old.node store.old.journal kept.rec ≡ true }
        requires room { HasRoom kept.rec store.old.room }
        requires place { 1 ≤ waiting.old.spare }
        ensures answer { result ≡ served_or_held store.old self.read }
        ensures promised { self.read.sid ≤ floor store.new.journal }
        ensures journal { store.new.journal ≡ kept.rec ∷ store.old.journal }
        ensures next { store.new.next ≡ max store.old.next self.read.sid }
        ensures node { store.new.node ≡ store.old.node }
        ensures cluster { store.new.cluster ≡ store.old.cluster }
        ensures held { waiting.new.reads ≡ held_with result self.read waiting.old.reads }
    {
        let CeilingDue { read } = self;
        let answer = waiting.answer(store, read);
        store.admit(kept.spend());
        answer
    }

    /// Lets the read go, since the journal stopped at its record, which it gave back.
    pub fn down(self, rec: Record)
        requires { rec ≡ ceiling_for self.read }
    {
        let CeilingDue { read: _ } = self;
        drop(rec);
    }
}
