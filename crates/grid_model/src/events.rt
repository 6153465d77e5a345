//! What a node is told, and what it gives.
use crate::acts::Act;
use crate::messages::Message;
use score_base::{Ident, Memory, NodeId, TryCopy, TxId};
use script_lang::Script;

/// What a node gives: an act of its own, or a message that is to be sent. Numbers are given to
/// messages where they are sent.
#[derive(Drop, Debug)]
pub enum Out {
    Act(Act),
    Send(NodeId, Message),
}

impl TryCopy for Out {
    fn copy(&self) -> Result<Out, Memory> {
        match self {
            Out::Act(act) => Ok(Out::Act(act.copy()?)),
            Out::Send(to, message) => Ok(Out::Send(*to, message.copy()?)),
        }
    }
}

/// What a node is given.
#[derive(Drop, Debug)]
pub enum Event {
    /// The client begins a transaction whose home is this node, and whose session has this floor: the
    /// greatest identifier that the session has seen, or 0.
    Begin(Script, Ident),
    /// A message comes from this node.
    Deliver(NodeId, Message),
    /// The home sends again what the transaction waits for.
    Retry(TxId),
    /// The participant asks the home how the transaction ended.
    Ask(TxId),
    /// The participant asks this participant how the transaction ended.
    AskPeer(TxId, NodeId),
    /// The node makes its journal small.
    Compact,
}
