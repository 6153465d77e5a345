//! What a journal keeps.
use crate::causes::Outcome;
use crate::ids::{Ident, NodeId, TxId};
use crate::lists::{KeyList, NodeList, WriteList};
use crate::memory::{Memory, TryCopy};

/// A record of a node's journal.
#[derive(Drop, Debug)]
pub enum Record {
    /// A participant voted yes on `t` with the proposal `p`.
    Prepared {
        t: TxId,
        home: NodeId,
        parts: NodeList,
        sid: Ident,
        p: Ident,
        reads: KeyList,
        writes: WriteList,
    },
    /// A participant ended `t`.
    Ended {
        t: TxId,
        outcome: Outcome,
    },
    /// A node promised reads up to `c`.
    Ceiling {
        c: Ident,
    },
    /// The home decided to commit `t` with the final identifier `f`.
    Decided {
        t: TxId,
        f: Ident,
        parts: NodeList,
    },
    /// The home has the acknowledgements of all parts of `t`.
    Closed {
        t: TxId,
    },
}

impl TryCopy for Record {
    fn copy(&self) -> Result<Record, Memory> {
        match self {
            Record::Prepared {
                t,
                home,
                parts,
                sid,
                p,
                reads,
                writes,
            } => Ok(Record::Prepared {
                t: *t,
                home: *home,
                parts: parts.copy()?,
                sid: *sid,
                p: *p,
                reads: reads.copy()?,
                writes: writes.copy()?,
            }),
            Record::Ended { t, outcome } => Ok(Record::Ended {
                t: *t,
                outcome: *outcome,
            }),
            Record::Ceiling { c } => Ok(Record::Ceiling { c: *c }),
            Record::Decided { t, f, parts } => Ok(Record::Decided {
                t: *t,
                f: *f,
                parts: parts.copy()?,
            }),
            Record::Closed { t } => Ok(Record::Closed { t: *t }),
        }
    }
}
