//! What nodes say to one another.
use score_base::{
    Ballot, Date, Ident, Key, KeyList, Memory, NodeId, NodeList, Outcome, TryCopy, TxId, Value,
    WriteList,
};

/// A request to read a key for an operation of a transaction.
#[derive(Clone, Copy, Debug, PartialEq, Eq)]
pub struct ReadReq {
    pub t: TxId,
    pub op: u8,
    pub key: Key,
    pub date: Date,
}

/// A reply to a read request: the snapshot identifier at which it was served, and the value.
#[derive(Clone, Copy, Debug, PartialEq, Eq)]
pub struct ReadRep {
    pub t: TxId,
    pub op: u8,
    pub sid: Ident,
    pub value: Value,
}

impl TryCopy for ReadReq {
    fn copy(&self) -> Result<ReadReq, Memory> {
        Ok(*self)
    }
}

impl TryCopy for ReadRep {
    fn copy(&self) -> Result<ReadRep, Memory> {
        Ok(*self)
    }
}

/// A request to vote: the snapshot, all parts, and the remotely read and the written keys that the
/// receiver holds.
#[derive(Drop, Debug)]
pub struct Prepare {
    pub t: TxId,
    pub sid: Ident,
    pub parts: NodeList,
    pub reads: KeyList,
    pub writes: WriteList,
}

impl TryCopy for Prepare {
    fn copy(&self) -> Result<Prepare, Memory> {
        Ok(Prepare {
            t: self.t,
            sid: self.sid,
            parts: self.parts.copy()?,
            reads: self.reads.copy()?,
            writes: self.writes.copy()?,
        })
    }
}

/// What one node says to another, or to itself.
#[derive(Drop, Debug)]
pub enum Message {
    ReadReq(ReadReq),
    ReadRep(ReadRep),
    Prepare(Prepare),
    /// A participant's vote, to the home.
    Vote { t: TxId, ballot: Ballot },
    /// How a transaction ended, to a participant.
    Tell { t: TxId, outcome: Outcome },
    /// A participant ended the transaction with commit.
    Ack { t: TxId },
    /// A pending participant asks the home how the transaction ended.
    Ask { t: TxId },
    /// A pending participant asks another participant how the transaction ended.
    AskPeer { t: TxId },
}

impl TryCopy for Message {
    fn copy(&self) -> Result<Message, Memory> {
        match self {
            Message::ReadReq(q) => Ok(Message::ReadReq(*q)),
            Message::ReadRep(q) => Ok(Message::ReadRep(*q)),
            Message::Prepare(q) => Ok(Message::Prepare(q.copy()?)),
            Message::Vote { t, ballot } => Ok(Message::Vote {
                t: *t,
                ballot: *ballot,
            }),
            Message::Tell { t, outcome } => Ok(Message::Tell {
                t: *t,
                outcome: *outcome,
            }),
            Message::Ack { t } => Ok(Message::Ack { t: *t }),
            Message::Ask { t } => Ok(Message::Ask { t: *t }),
            Message::AskPeer { t } => Ok(Message::AskPeer { t: *t }),
        }
    }
}

/// A message on its way.
#[derive(Drop, Debug)]
pub struct Envelope {
    pub from: NodeId,
    pub to: NodeId,
    pub message: Message,
}

impl TryCopy for Envelope {
    fn copy(&self) -> Result<Envelope, Memory> {
        Ok(Envelope {
            from: self.from,
            to: self.to,
            message: self.message.copy()?,
        })
    }
}
