//! What a desk hands out. A change that rests on a record waits for the record's receipt.

ghost use Rattle.std.specs.Prelude.{◌≡◌, Some};
ghost use Rattle.presumed_abort.specs.declared.stands.Stand.TheVariants as stand;
ghost use Rattle.presumed_abort.specs.Stands.{standing};
ghost use Rattle.presumed_abort.specs.Turns.{changed};

use crate::desks::Desk;
use crate::stands::Stand;
use crate::states::{Closing, Ready};
use grid_model::Out;
use node_journal::Kept;
use score_base::{Record, TxId};

/// The change of a transaction that waits for its record.
pub enum Due {
    /// It is decided.
    Commit(Ready),
    /// It is closed.
    Close(Closing),
}

/// A change that waits for its record to be kept, with its outs, which its state has given up to it. It must be
/// spent.
pub struct DeskDue {
    pub(crate) t: TxId,
    pub(crate) due: Due,
    pub(crate) outs: Vec<Out>,
}

/// What a desk hands out.
pub enum DeskTurn {
    /// It is done, and these are given.
    Outs(Vec<Out>),
    /// It is due, on this record.
    Due(DeskDue, Record),
}

impl DeskDue {
    ghost use Rattle.presumed_abort.specs.Dues.{IsOf, change_due};

    /// Makes the change, whose record is kept, in the transaction's place at the desk, and gives the
    /// outs, and the record for the store. It takes no memory.
    pub fn release(self, desk: &mut Desk, kept: Kept) -> (Vec<Out>, Record)
        requires of { IsOf self.due kept.rec }
        requires place { standing desk.old self.t ≡ Some stand.Away }
        ensures outs { result.0.items ≡ self.outs.items }
        ensures rec { result.1 ≡ kept.rec }
        ensures desk { desk.new ≡ changed self.t (change_due self.due) desk.old }
    {
        let DeskDue { t, due, outs } = self;
        let rec = match due {
            Due::Commit(ready) => {
                let (tx, _none, rec) = ready.commit(kept);
                desk.put(t, Stand::Committed(tx));
                rec
            }
            Due::Close(closing) => {
                let (_none, rec) = closing.close(kept);
                desk.remove(t);
                rec
            }
        };
        (outs, rec)
    }

    /// There is no change, since the journal stopped at its record, and the node with it.
    pub fn give_up(self) {
        let DeskDue { t: _, due, outs: _ } = self;
        match due {
            Due::Commit(ready) => {
                let Ready {
                    t: _,
                    f: _,
                    parts: _,
                    acks: _,
                    outs: _,
                } = ready;
            }
            Due::Close(closing) => {
                let Closing { t: _, outs: _ } = closing;
            }
        }
    }
}
