//! The messages of a node's outs, and their acts.
ghost use Rattle.std.specs.Prelude.{◌≡◌, ◌<◌, ◌+◌, ◌^◌, ◌++◌, ◌∷◌, [], IfOk, OnOk, length};
ghost use Rattle.grid_model.specs.Schedules.{numbered};
ghost use Rattle.node_core.specs.Links.{posts};

use grid_model::{Act, Envelope, Out};
use score_base::{Memory, NodeId, TryCopy, push};

/// Adds an out of a node as an act, and its message, where it is one, as one that has this number; answers
/// the number of the message behind it.
fn number_one(
    acts: &mut Vec<Act>,
    messages: &mut Vec<Envelope>,
    m: u32,
    from: NodeId,
    out: Out,
) -> Result<u32, Memory>
    requires { m + length (posts from (out ∷ [])) < 2 ^ 32 }
    ensures acts { OnOk result (acts.new.items ≡ acts.old.items ++ numbered m from (out ∷ [])) }
    ensures messages { OnOk result (messages.new.items ≡ messages.old.items ++ posts from (out ∷ [])) }
    ensures next { IfOk result (λ k. k ≡ m + length (posts from (out ∷ []))) }
{
    match out {
        Out::Act(act) => {
            push(acts, act)?;
            Ok(m)
        }
        Out::Send(to, message) => {
            let copy = message.copy()?;
            push(
                messages,
                Envelope {
                    from,
                    to,
                    message: copy,
                },
            )?;
            push(acts, Act::Sent(m, from, to, message))?;
            Ok(m + 1)
        }
    }
}

/// Adds the outs of a node as acts, and the messages among them, where the next message has number `m`.
pub fn number_all(
    acts: &mut Vec<Act>,
    messages: &mut Vec<Envelope>,
    m: u32,
    from: NodeId,
    outs: Vec<Out>,
) -> Result<(), Memory>
    requires { m + length (posts from outs.items) < 2 ^ 32 }
    ensures acts { OnOk result (acts.new.items ≡ acts.old.items ++ numbered m from outs.items) }
    ensures messages { OnOk result (messages.new.items ≡ messages.old.items ++ posts from outs.items) }
{
    let mut next = m;
    for out in outs {
        next = number_one(acts, messages, next, from, out)?;
    }
    Ok(())
}
