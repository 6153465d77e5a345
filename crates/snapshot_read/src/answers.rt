//! What a read is answered.

ghost use Rattle.std.specs.Prelude.{◌≡◌};
ghost use Rattle.snapshot_read.specs.Reads.{answer_to, at_once};

use crate::dues::CeilingDue;
use grid_model::HeldRead;
use grid_store::Store;
use score_base::{Ident, Key, NodeId, Record, TxId, Value};

/// A read is served: whom to answer, and with which version.
#[derive(Clone, Copy, Debug, PartialEq, Eq)]
pub struct Answer {
    /// The node that asked.
    pub to: NodeId,
    pub t: TxId,
    pub op: u8,
    pub key: Key,
    /// The identifier at which the key is read.
    pub sid: Ident,
    /// The identifier of the version; 0 for the initial one.
    pub vn: Ident,
    pub value: Value,
    /// Whether the clock rose to the identifier of the read.
    pub raised: bool,
}

/// A read is held.
#[derive(Clone, Copy, Debug, PartialEq, Eq)]
pub struct Waits {
    /// The identifier at which the key is read.
    pub sid: Ident,
    /// Whether the clock rose to it.
    pub raised: bool,
}

/// What a read that arrives asks of a store.
pub enum Arrived {
    /// It is above the floor: this record is due first.
    NeedCeiling(CeilingDue, Record),
    /// A pending proposal is at most its identifier.
    Hold(Waits),
    /// It is served.
    Serve(Answer),
}

/// What a read is answered whose ceiling is kept.
#[derive(Drop, Debug)]
pub enum Promised {
    /// A pending proposal is at most its identifier.
    Hold(Waits),
    /// It is served.
    Serve(Answer),
}

/// An answer at once.
pub(crate) fn at_once(answer: Promised) -> Arrived
    ensures { result ≡ at_once answer }
{
    match answer {
        Promised::Hold(waits) => Arrived::Hold(waits),
        Promised::Serve(answer) => Arrived::Serve(answer),
    }
}

/// The answer to a read with the version that the store's records give.
pub(crate) fn answer_to(store: &Store, read: &HeldRead, raised: bool) -> Answer
    ensures { result ≡ answer_to store.now read.now raised }
{
    let (vn, value) = store.at(&read.key, read.sid);
    Answer {
        to: read.from,
        t: read.t,
        op: read.op,
        key: read.key,
        sid: read.sid,
        vn,
        value,
        raised,
    }
}
