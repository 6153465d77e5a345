//! What happened: the acts of a history.
use crate::messages::Message;
use score_base::{Cause, Ident, Key, Memory, NodeId, Outcome, TryCopy, TxId, Value};

/// What a disk was being given: what a journal record begins with, enough to name it, or its compaction.
#[derive(Clone, Copy, Debug, PartialEq, Eq)]
pub enum Head {
    Prepared(TxId, Ident),
    Ended(TxId, Outcome),
    Ceiling(Ident),
    Decided(TxId, Ident),
    Closed(TxId),
    Compact,
}

/// What an opening found of the record that was being written when its node stopped.
#[derive(Clone, Copy, Debug, PartialEq, Eq)]
pub enum Flag {
    /// None was being written.
    Untouched,
    /// The journal has it.
    Kept,
    /// The journal does not have it.
    Gone,
}

/// One act of a run, as it is shown on one line.
#[derive(Drop, Debug)]
pub enum Act {
    /// The client begins the transaction at its home, at this commit identifier.
    Began(TxId, NodeId, Ident),
    /// The message of this number is sent from the first node to the second.
    Sent(u32, NodeId, NodeId, Message),
    /// The message of this number is delivered.
    Got(u32),
    /// The message of this number comes to a node that is down.
    Missed(u32),
    /// The message of this number is not to be picked any more.
    Dropped(u32),
    /// The event changes nothing, for the reason of this code.
    Void(u8),
    /// The node's fuse is set: its disk stops at this call, and leaves this image.
    Armed(NodeId, u64, u64),
    /// The node's clock is raised to this identifier.
    Raised(NodeId, Ident),
    /// The node serves a read of this operation and key at this identifier: the version's identifier
    /// and its value.
    Served(NodeId, TxId, u8, Key, Ident, Ident, Value),
    /// The node holds a read of this operation at this identifier.
    Held(NodeId, TxId, u8, Ident),
    /// The home takes a reply for this operation, at this identifier.
    Taken(TxId, u8, Ident, Value),
    /// The transaction reads a key that it has read or written before.
    Own(TxId, u8, Value),
    /// The node votes yes with this proposal.
    Prepared(NodeId, TxId, Ident),
    /// The node votes no.
    Refused(NodeId, TxId, Cause),
    /// The node ends the transaction.
    Ended(NodeId, TxId, Outcome),
    /// The node promises reads up to this identifier.
    Ceiling(NodeId, Ident),
    /// The home decides to commit with this final identifier.
    Decided(TxId, Ident),
    /// The home aborts, since this node voted no.
    Aborted(TxId, NodeId, Cause),
    /// The client is told.
    Finished(TxId),
    /// The home has all acknowledgements.
    Closed(TxId),
    /// The journal of the node is made small.
    Compacted(NodeId),
    /// The node stops, maybe while this record was being written or its journal was made small.
    Down(NodeId, Option<Head>),
    /// The node is opened.
    Up(NodeId, Flag),
    /// The node could not be opened.
    StillDown(NodeId),
    /// The transaction was open at its home when the home stopped.
    Lost(TxId),
}

impl TryCopy for Act {
    fn copy(&self) -> Result<Act, Memory> {
        match self {
            Act::Sent(m, from, to, message) => Ok(Act::Sent(*m, *from, *to, message.copy()?)),
            Act::Began(t, n, sid0) => Ok(Act::Began(*t, *n, *sid0)),
            Act::Got(m) => Ok(Act::Got(*m)),
            Act::Missed(m) => Ok(Act::Missed(*m)),
            Act::Dropped(m) => Ok(Act::Dropped(*m)),
            Act::Void(code) => Ok(Act::Void(*code)),
            Act::Armed(n, k, how) => Ok(Act::Armed(*n, *k, *how)),
            Act::Raised(n, sid) => Ok(Act::Raised(*n, *sid)),
            Act::Served(n, t, op, key, sid, vn, value) => {
                Ok(Act::Served(*n, *t, *op, *key, *sid, *vn, *value))
            }
            Act::Held(n, t, op, sid) => Ok(Act::Held(*n, *t, *op, *sid)),
            Act::Taken(t, op, sid, value) => Ok(Act::Taken(*t, *op, *sid, *value)),
            Act::Own(t, op, value) => Ok(Act::Own(*t, *op, *value)),
            Act::Prepared(n, t, p) => Ok(Act::Prepared(*n, *t, *p)),
            Act::Refused(n, t, cause) => Ok(Act::Refused(*n, *t, *cause)),
            Act::Ended(n, t, outcome) => Ok(Act::Ended(*n, *t, *outcome)),
            Act::Ceiling(n, c) => Ok(Act::Ceiling(*n, *c)),
            Act::Decided(t, f) => Ok(Act::Decided(*t, *f)),
            Act::Aborted(t, n, cause) => Ok(Act::Aborted(*t, *n, *cause)),
            Act::Finished(t) => Ok(Act::Finished(*t)),
            Act::Closed(t) => Ok(Act::Closed(*t)),
            Act::Compacted(n) => Ok(Act::Compacted(*n)),
            Act::Down(n, head) => Ok(Act::Down(*n, *head)),
            Act::Up(n, flag) => Ok(Act::Up(*n, *flag)),
            Act::StillDown(n) => Ok(Act::StillDown(*n)),
            Act::Lost(t) => Ok(Act::Lost(*t)),
        }
    }
}
