//! The messages of two nodes, sent, taken away and sent again.
ghost use Rattle.std.specs.Prelude.{◌≡◌, IfOk, length};
ghost use Rattle.node_core.specs.Links.{posts};

use super::*;
use grid_model::{Act, Message, Out};
use node_core::Link;
use score_base::{NodeId, TxId};
use std::alloc::Global;
use std::test::Fail;

/// Two messages of a node to another, and between them an act.
fn two_messages(alloc: Global, to: NodeId) -> Result<Vec<Out>, Fail>
    ensures { IfOk result (λ outs. length (posts 1 outs.items) ≡ 2) }
{
    let t = TxId { number: 1 };
    let mut outs = Vec::new(alloc);
    outs.push(Out::Send(to, Message::Ask { t }))?;
    outs.push(Out::Act(Act::Closed(t)))?;
    outs.push(Out::Send(to, Message::Ack { t }))?;
    Ok(outs)
}

/// Whether an act sends a message of this number.
fn is_sent(act: Option<&Act>, number: u32) -> bool {
    match act {
        Some(Act::Sent(m, _, _, _)) => *m == number,
        _ => false,
    }
}

// Three messages: the second and then the first are taken away, so that the third is left; a message that is
// gone stays gone, and one that was not sent is not taken away.
#[test]
fn taken_away(rt: HostRuntime) -> Result<(), Fail> {
    let alloc = rt.alloc();
    let (one, two) = (NodeId { number: 1 }, NodeId { number: 2 });
    let mut list = SentList::new(alloc);
    assert_eq!(rt; list.next_left(), None);
    let acts = list.post_outs(alloc, one, two_messages(alloc, two)?)?;
    assert!(rt; is_sent(acts.get(0), 1) && is_sent(acts.get(2), 2));
    assert_eq!(rt; list.count(), 2);
    list.take_away(2);
    assert_eq!(rt; list.next_left(), Some(1));
    list.take_away(1);
    list.take_away(1);
    list.take_away(3);
    assert_eq!(rt; list.next_left(), None);
    assert!(rt;
        list.post(
            two,
            one,
            &Message::Ask {
                t: TxId { number: 1 }
            }
        )
        .is_ok()
    );
    assert_eq!(rt; list.next_left(), Some(3));
    assert!(rt;
        list.is_gone(1)
            && !list.is_gone(3)
            && list.message(3).is_some()
            && list.message(4).is_none()
    );
    Ok(())
}
