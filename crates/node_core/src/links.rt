//! Where the messages of a node go.

ghost use Rattle.std.specs.Prelude.{◌≡◌, ◌<◌, ◌≤◌, ◌+◌, ◌^◌, ◌++◌, ◌∷◌, [], ℕ, List, length, take, IfOk, OnOk, OnErr, IfErr};
ghost use Rattle.grid_model.specs.declared.messages.Envelope.{Envelope};
ghost use Rattle.grid_model.specs.Schedules.{numbered};
ghost use Rattle.node_core.specs.Links.{posts, IsLinkEnd, IsFrontSent};

use grid_model::{Act, Message, Out};
use score_base::NodeId;
use std::alloc::Global;

/// How a link ends.
#[derive(Clone, Copy, Debug, PartialEq, Eq)]
pub enum LinkEnd {
    /// The message could not be sent.
    Failed,
    /// Want of memory.
    Memory,
}

/// Takes the messages of nodes, and numbers them in the order in which they are sent, from 1 on.
pub trait Link: Drop {
    /// The messages sent, in order.
    ghost sent: { Self → List Envelope };

    /// The count of faults.
    ghost faults: { Self → ℕ };

    /// Sends a message, and answers its number. The count never falls, and [`LinkEnd::Failed`] is answered only
    /// where it rose in this call; after either end the messages sent are as before.
    fn post(&mut self, from: NodeId, to: NodeId, message: &Message) -> Result<u32, LinkEnd>
        requires { length (sent self.old) + 1 < 2 ^ 32 }
        ensures number { IfOk result (λ m. m ≡ length (sent self.old) + 1) }
        ensures sent { OnOk result
            (sent self.new ≡ sent self.old ++ record { from = from; to = to; message = message.now } ∷ []) }
        ensures kept { OnErr result (sent self.new ≡ sent self.old) }
        ensures later { faults self.old ≤ faults self.new }
        ensures end { IfErr result (IsLinkEnd (faults self.old) (faults self.new)) };
}

/// Sends the messages among the outs of a node, in order, and gives the outs as acts, each message as one
/// that was sent with its number. After an end a front of the messages was sent, and no other; it answers
/// [`LinkEnd::Failed`] only where the count of the link rose in this call.
#[tactic(auto, using(crate::proofs::Posts::front_of))]
pub fn post_all<L: Link>(
    alloc: Global,
    from: NodeId,
    outs: Vec<Out>,
    link: &mut L,
) -> Result<Vec<Act>, LinkEnd>
    requires { length (L.sent link.old) + length (posts from outs.items) < 2 ^ 32 }
    ensures acts { IfOk result (λ acts. acts.items ≡ numbered (length (L.sent link.old) + 1) from outs.items) }
    ensures sent { OnOk result (L.sent link.new ≡ L.sent link.old ++ posts from outs.items) }
    ensures front { OnErr result (IsFrontSent (posts from outs.items) (L.sent link.old) (L.sent link.new)) }
    ensures later { L.faults link.old ≤ L.faults link.new }
    ensures end { IfErr result (IsLinkEnd (L.faults link.old) (L.faults link.new)) }
{
    let mut acts = Vec::new(alloc);
    if acts.reserve(outs.len()).is_err() {
        return Err(LinkEnd::Memory);
    }
    for out in outs {
        let act = post_one(from, out, link)?;
        acts.push_reserved(act);
    }
    Ok(acts)
}

/// One out as an act, sent where it is a message.
fn post_one<L: Link>(from: NodeId, out: Out, link: &mut L) -> Result<Act, LinkEnd>
    requires { length (L.sent link.old) + length (posts from (out ∷ [])) < 2 ^ 32 }
    ensures act { IfOk result (λ act. act ∷ [] ≡ numbered (length (L.sent link.old) + 1) from (out ∷ [])) }
    ensures sent { OnOk result (L.sent link.new ≡ L.sent link.old ++ posts from (out ∷ [])) }
    ensures kept { OnErr result (L.sent link.new ≡ L.sent link.old) }
    ensures later { L.faults link.old ≤ L.faults link.new }
    ensures end { IfErr result (IsLinkEnd (L.faults link.old) (L.faults link.new)) }
{
    match out {
        Out::Act(act) => Ok(act),
        Out::Send(to, message) => {
            let m = link.post(from, to, &message)?;
            Ok(Act::Sent(m, from, to, message))
        }
    }
}
