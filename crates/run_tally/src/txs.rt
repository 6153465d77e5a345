//! What a tally has of a transaction.

use score_base::{Ident, Members, Value};

/// A transaction that was begun.
#[derive(Drop, Debug)]
pub struct TxTally {
    /// The identifier at which it began.
    pub sid0: Ident,
    /// The snapshot identifier of the first reply that was taken.
    pub sid: Option<Ident>,
    /// The operations for which a reply was taken, with its value, in order.
    pub values: Members<(u8, Value)>,
    /// Whether the client was told.
    pub finished: bool,
    pub aborted: bool,
    /// Whether the home stopped while the transaction was open.
    pub lost: bool,
}
