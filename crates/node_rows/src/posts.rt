//! What a node gives, sent over a link that is a list.

ghost use Rattle.std.specs.Prelude.{◌≡◌, IfOk, length};
ghost use Rattle.node_core.specs.Links.{posts};

use crate::events::{n1, n2, t1};
use grid_model::{Act, Envelope, Message, Out};
use node_core::{Link, LinkEnd, post_all};
use score_base::{Memory, NodeId, TryCopy, push};
use std::alloc::Global;
use std::test::Fail;

/// A link that is a list. Its calls are numbered from 1 on; the call `failing` fails, and the call `wanting`
/// wants memory.
#[derive(Drop)]
struct ListLink {
    sent: Vec<Envelope>,
    calls: u64,
    failing: u64,
    wanting: u64,
    faults: u64,
}

impl Link for ListLink {
    ghost sent = { λ l. l.sent.items };

    ghost faults = { λ l. l.faults };

    fn post(&mut self, from: NodeId, to: NodeId, message: &Message) -> Result<u32, LinkEnd> {
        self.calls = self.calls.saturating_add(1);
        if self.calls == self.failing {
            self.faults = self.faults.saturating_add(1);
            return Err(LinkEnd::Failed);
        }
        if self.calls == self.wanting {
            return Err(LinkEnd::Memory);
        }
        let number = self.sent.len() as u32 + 1;
        match message.copy() {
            Ok(message) => match push(&mut self.sent, Envelope { from, to, message }) {
                Ok(()) => Ok(number),
                Err(_) => Err(LinkEnd::Memory),
            },
            Err(_) => Err(LinkEnd::Memory),
        }
    }
}

/// A link over which n2 has asked n1, and whose calls of these numbers, if any, fail and want memory.
fn link(alloc: Global, failing: u64, wanting: u64) -> Result<ListLink, Memory>
    ensures { IfOk result (λ l. length l.sent.items ≡ 1) }
{
    let mut sent = Vec::new(alloc);
    let asked = Envelope {
        from: n2(),
        to: n1(),
        message: Message::Ask { t: t1() },
    };
    push(&mut sent, asked)?;
    Ok(ListLink {
        sent,
        calls: 0,
        failing,
        wanting,
        faults: 0,
    })
}

/// The outs of n1: it asks n2, finishes, acknowledges to itself, and asks n2 as the home.
fn outs(alloc: Global) -> Result<Vec<Out>, Memory>
    ensures { IfOk result (λ outs. length (posts 1 outs.items) ≡ 3) }
{
    let t = t1();
    let mut outs = Vec::new(alloc);
    push(&mut outs, Out::Send(n2(), Message::AskPeer { t }))?;
    push(&mut outs, Out::Act(Act::Finished(t)))?;
    push(&mut outs, Out::Send(n1(), Message::Ack { t }))?;
    push(&mut outs, Out::Send(n2(), Message::Ask { t }))?;
    Ok(outs)
}

/// The letter of a message.
fn letter(message: &Message) -> u8 {
    match message {
        Message::AskPeer { .. } => b'p',
        Message::Ack { .. } => b'k',
        Message::Ask { .. } => b'a',
        _ => b'x',
    }
}

/// A message goes into the text: the numbers of its two nodes, and its letter.
fn put_message(
    text: &mut Vec<u8>,
    from: NodeId,
    to: NodeId,
    message: &Message,
) -> Result<(), Memory> {
    push(text, b'0' + from.get() % 10)?;
    push(text, b'0' + to.get() % 10)?;
    push(text, letter(message))
}

/// An act goes into the text: `f`, or the number of a message, which is below 10, and the message.
fn put_act(text: &mut Vec<u8>, act: &Act) -> Result<(), Memory> {
    match act {
        Act::Finished(_) => push(text, b'f'),
        Act::Sent(m, from, to, message) => {
            push(text, b'0' + (*m % 10) as u8)?;
            put_message(text, *from, *to, message)
        }
        _ => push(text, b'x'),
    }
}

fn text_of(alloc: Global, acts: &[Act]) -> Result<Vec<u8>, Memory> {
    let mut text = Vec::new(alloc);
    for act in acts {
        put_act(&mut text, act)?;
    }
    Ok(text)
}

/// Whether the messages sent are these.
fn has_sent(alloc: Global, link: &ListLink, messages: &[u8]) -> Result<bool, Memory> {
    let mut text = Vec::new(alloc);
    for envelope in link.sent.as_slice() {
        put_message(&mut text, envelope.from, envelope.to, &envelope.message)?;
    }
    Ok(text.as_slice() == messages)
}

/// The acts of n1: behind the message that was sent, the numbers are 2, 3 and 4.
const POSTED: &[u8] = b"212pf311k412a";

/// All of the messages.
const SENT: &[u8] = b"21a12p11k12a";

/// The one that was sent, and the first of n1.
const FRONT: &[u8] = b"21a12p";

fn posted(alloc: Global) -> Result<bool, Fail> {
    let mut link = link(alloc, 0, 0)?;
    match post_all(alloc, n1(), outs(alloc)?, &mut link) {
        Ok(acts) => {
            let text = text_of(alloc, acts.as_slice())?;
            Ok(text.as_slice() == POSTED && has_sent(alloc, &link, SENT)? && link.faults == 0)
        }
        Err(_) => Ok(false),
    }
}

// Every message is taken, and the act between them stands where it stood.
#[test]
fn all_taken(rt: HostRuntime) -> Result<(), Fail> {
    let alloc = rt.alloc();
    assert!(rt; posted(alloc)?);
    Ok(())
}

/// Whether the posting over this link ends so, and leaves the first message sent, and this count of faults.
fn ends(alloc: Global, link: ListLink, end: LinkEnd, faults: u64) -> Result<bool, Fail>
    requires { length link.sent.items ≡ 1 }
{
    let mut link = link;
    match post_all(alloc, n1(), outs(alloc)?, &mut link) {
        Ok(acts) => {
            drop(acts);
            Ok(false)
        }
        Err(met) => Ok(met == end && has_sent(alloc, &link, FRONT)? && link.faults == faults),
    }
}

// The second message fails: the count has risen, and the first message alone was sent.
#[test]
fn second_fails(rt: HostRuntime) -> Result<(), Fail> {
    let alloc = rt.alloc();
    assert!(rt; ends(alloc, link(alloc, 2, 0)?, LinkEnd::Failed, 1)?);
    Ok(())
}

// The second message wants memory: no count has risen, and the first message alone was sent.
#[test]
fn second_wants_memory(rt: HostRuntime) -> Result<(), Fail> {
    let alloc = rt.alloc();
    assert!(rt; ends(alloc, link(alloc, 0, 2)?, LinkEnd::Memory, 0)?);
    Ok(())
}
