use score_base::{Ident, Key, Members, Memory, NodeId, NodeList, TryCopy, TxId, Value};

/// A yes vote that a home took.
#[derive(Clone, Copy, Debug, PartialEq, Eq)]
pub struct Voted {
    pub from: NodeId,
    /// The proposal.
    pub p: Ident,
}

impl TryCopy for Voted {
    fn copy(&self) -> Result<Voted, Memory> {
        Ok(*self)
    }
}

/// How far a transaction came since it was begun.
#[derive(Drop, Debug)]
pub struct Progress {
    /// The commit identifier of the home at the begin.
    pub sid0: Ident,
    /// Which holder of the key that is being read is asked next, in the order that the home prefers:
    /// the number of requests sent for this operation, modulo the number of holders.
    pub turn: usize,
    /// The snapshot identifier of the first reply that was taken.
    pub sid: Option<Ident>,
    /// The operations for which a reply was taken, with its value, in order.
    pub values: Members<(u8, Value)>,
    /// The yes votes that were taken, in order.
    pub votes: Members<Voted>,
}

/// What happened to a transaction since it was begun.
#[derive(Drop, Debug)]
pub struct Story {
    pub progress: Progress,
    /// How many Decided records of the transaction its home had when it was begun, all of them closed:
    /// they count no more.
    pub skipped: usize,
    /// The parts whose acknowledgements were taken since the home was last opened, in order.
    pub acks: NodeList,
    /// Whether the client was told.
    pub finished: bool,
    pub aborted: bool,
    /// Whether the home stopped while the transaction was open.
    pub lost: bool,
}

/// A read that waits at a node for a pending transaction.
#[derive(Clone, Copy, Debug, PartialEq, Eq)]
pub struct HeldRead {
    pub t: TxId,
    pub op: u8,
    pub sid: Ident,
    pub key: Key,
    /// The sender of the request.
    pub from: NodeId,
}

impl TryCopy for HeldRead {
    fn copy(&self) -> Result<HeldRead, Memory> {
        Ok(*self)
    }
}
