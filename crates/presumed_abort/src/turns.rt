//! What a transaction becomes behind a change of its state.

use crate::states::{Aborted, Closing, Collecting, Committed, Reading, Ready};
use grid_model::Out;
use score_base::{Record, TxId};

/// What a transaction becomes that begins or takes a reply.
#[derive(Drop)]
pub enum Then {
    /// It waits for the reply to its next remote read.
    Ask(Reading),
    /// It has all its values, and waits for the votes of its parts.
    Collect(Collecting),
    /// It is over: it wrote nothing, and its client is told.
    Answered(TxId),
}

/// A turn of a transaction that begins or takes a reply: what is given, and what it becomes.
#[derive(Drop)]
pub struct Turn {
    pub outs: Vec<Out>,
    pub goes: Then,
}

/// What a vote makes of a transaction.
pub enum Voted {
    /// It waits for more.
    More(Collecting),
    /// Each part has voted yes: it is decided once this record is kept.
    Full(Ready, Record),
    /// It is aborted.
    Refused(Aborted),
}

/// What an acknowledgement makes of a decided transaction.
pub enum Acked {
    /// It waits for more.
    More(Committed),
    /// Each part has acknowledged it: it is closed once this record is kept.
    Last(Closing, Record),
}
