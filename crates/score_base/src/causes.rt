//! How a transaction ends, why one is refused, what a vote says, what dates a read.
use crate::ids::{Ident, TxId};
use crate::keys::Key;

/// How a transaction ends at a participant.
#[derive(Clone, Copy, Debug, PartialEq, Eq)]
pub enum Outcome {
    /// It is committed with this final identifier.
    Commit(Ident),
    /// It is aborted.
    Abort,
}

/// Why a participant votes no.
#[derive(Clone, Copy, Debug, PartialEq, Eq)]
pub enum Cause {
    /// This transaction, the least such, holds a key.
    Holder(TxId),
    /// This key has a version, applied at the participant, that is newer than the snapshot.
    Newer(Key, Ident),
}

/// A participant's vote.
#[derive(Clone, Copy, Debug, PartialEq, Eq)]
pub enum Ballot {
    /// Yes, with the participant's proposal.
    Yes(Ident),
    /// No, with its cause.
    No(Cause),
}

/// How a read request is dated.
#[derive(Clone, Copy, Debug, PartialEq, Eq)]
pub enum Date {
    /// The first read of its transaction, begun at this identifier; its server dates it.
    First(Ident),
    /// A later read, at the snapshot identifier.
    At(Ident),
}
