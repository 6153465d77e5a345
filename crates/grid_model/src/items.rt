use score_base::{Members, Memory, NodeId, TryCopy, TxId};

/// One item of a schedule.
#[derive(Clone, Copy, Debug, PartialEq, Eq)]
pub enum Item {
    /// The client begins the transaction at its home.
    Begin(TxId),
    /// The message of this number is delivered.
    Deliver(u32),
    /// The message of this number is not picked by `Next` any more.
    Drop(u32),
    /// So many events, each of which delivers the first message that was neither got, missed nor
    /// dropped.
    Next(u32),
    /// The home sends again what the transaction waits for.
    Retry(TxId),
    /// The participant asks the home of the transaction.
    Ask(NodeId, TxId),
    /// The participant asks another participant of the transaction.
    AskPeer(NodeId, TxId, NodeId),
    /// The node stops; its disk takes this image.
    Crash(NodeId, u64),
    /// The node's disk stops at this call from now on, and takes this image.
    Fuse(NodeId, u64, u64),
    /// The node is opened again.
    Restart(NodeId),
    /// The node makes its journal small.
    Compact(NodeId),
}

/// The items of a schedule.
pub type ItemList = Members<Item>;

impl TryCopy for Item {
    fn copy(&self) -> Result<Item, Memory> {
        Ok(*self)
    }
}
