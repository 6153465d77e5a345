//! What a node asks of its desk before it takes a message.

ghost use Rattle.std.specs.Prelude.{◌≡◌};
ghost use Rattle.presumed_abort.specs.Stands.{standing};
ghost use Rattle.presumed_abort.specs.Replays.{snapshot_of, is_stranger};

use crate::desks::Desk;
use crate::stands::Stand;
use journal_words::records::is_among;
use score_base::{Ident, NodeId, TxId};

impl Desk {
    /// The snapshot identifier of a transaction that reads operation `op`, where it has one.
    pub fn snapshot(&self, t: TxId, op: u8) -> Option<Ident>
        ensures { result ≡ snapshot_of op (standing self.now t) }
    {
        match self.get(t) {
            Some(Stand::Reading(tx)) if tx.op == op => tx.tx.progress.sid,
            _ => None,
        }
    }

    /// Whether the transaction is collecting or decided, and the node is no part of it.
    pub fn stranger(&self, t: TxId, from: NodeId) -> bool
        ensures { result ≡ is_stranger from (standing self.now t) }
    {
        match self.get(t) {
            Some(Stand::Collecting(tx)) => !is_among(from, tx.parts.as_slice()),
            Some(Stand::Committed(tx)) => !is_among(from, tx.parts.as_slice()),
            _ => false,
        }
    }
}
