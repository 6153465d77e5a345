//! The list of the messages sent.
ghost use Rattle.std.specs.Prelude.{◌≡◌, ◌<◌, ◌+◌, ◌^◌, ◌++◌, ◌∷◌, [], false, map, IfOk, OnOk, OnErr, length};
ghost use Rattle.std.specs.Option.{option_copied};
ghost use Rattle.grid_model.specs.Histories.{sent_at};
ghost use Rattle.grid_model.specs.Schedules.{numbered};
ghost use Rattle.grid_model.specs.declared.messages.Envelope.{Envelope};
ghost use Rattle.node_core.specs.Links.{posts};

use crate::marks::{is_marked, mark, passed};
use crate::posting::number_all;
use grid_model::{Act, Envelope, Message, Out};
use node_core::{Link, LinkEnd};
use score_base::{Memory, NodeId, TryCopy, push};
use std::alloc::Global;
use std::marker::Model;

/// Every message that was sent, by its number from 1 on, and which of them are gone: got, missed or dropped.
#[derive(Drop, Debug)]
pub struct SentList {
    sent: Vec<Envelope>,
    gone: Vec<bool>,
    /// How many messages are gone from the first on.
    cursor: usize,
}

impl Model for SentList {
    ghost use Rattle.sent_list.specs.SentLists.{SentData, IsKept};

    ghost Value = { SentData };

    ghost view = { λ x. record { sent = x.sent.items; gone = x.gone.items } };

    ghost invariant = { λ x. IsKept x.sent.items x.gone.items x.cursor };
}

/// Puts messages last, and for each a mark that it is not gone. After [`Memory`] both lists are as before.
fn add(
    sent: &mut Vec<Envelope>,
    gone: &mut Vec<bool>,
    messages: Vec<Envelope>,
) -> Result<(), Memory>
    ensures sent { OnOk result (sent.new.items ≡ sent.old.items ++ messages.items) }
    ensures gone { OnOk result (gone.new.items ≡ gone.old.items ++ map (λ m. false) messages.items) }
    ensures kept_sent { OnErr result (sent.new.items ≡ sent.old.items) }
    ensures kept_gone { OnErr result (gone.new.items ≡ gone.old.items) }
{
    let count = messages.len();
    sent.reserve(count)?;
    gone.reserve(count)?;
    for message in messages {
        sent.push_reserved(message);
        gone.push_reserved(false);
    }
    Ok(())
}

impl SentList {
    ghost use Rattle.sent_list.specs.SentLists.{is_marked, with_sent, with_gone, least_left, SentStart};

    /// Nothing was sent.
    pub fn new(alloc: Global) -> SentList
        ensures { result ≡ SentStart }
    {
        SentList {
            sent: Vec::new(alloc),
            gone: Vec::new(alloc),
            cursor: 0,
        }
    }

    /// How many messages were sent.
    pub fn count(&self) -> usize
        ensures { result ≡ length self.now.sent }
    {
        self.sent.len()
    }

    /// A message by its number; `None` exactly where none was sent with it.
    pub fn message(&self, m: u32) -> Option<&Envelope>
        ensures { option_copied result ≡ sent_at m self.now.sent }
    {
        if m == 0 {
            return None;
        }
        self.sent.get(m as usize - 1)
    }

    /// Whether a message is gone.
    pub fn is_gone(&self, m: u32) -> bool
        ensures { result ≡ is_marked self.now.gone m }
    {
        is_marked(self.gone.as_slice(), m)
    }

    /// The least-numbered message that is not gone.
    #[tactic(auto, using(crate::proofs::GoneMarks::left_some, crate::proofs::GoneMarks::left_none))]
    pub fn next_left(&self) -> Option<u32>
        ensures { result ≡ least_left self.now }
    {
        if self.cursor < self.gone.len() {
            Some(self.cursor as u32 + 1)
        } else {
            None
        }
    }

    /// A message is gone from now on. Where none was sent with this number nothing changes, and a message
    /// that is gone stays gone.
    #[tactic(auto, using(crate::proofs::GoneMarks::passed_from))]
    pub fn take_away(&mut self, m: u32)
        ensures { self.new ≡ with_gone m self.old }
    {
        mark(&mut self.gone, m);
        self.cursor = passed(self.gone.as_slice(), self.cursor);
    }

    /// Sends these messages. After [`Memory`] the list is as before.
    #[tactic(auto, using(crate::proofs::SentActs::kept_more))]
    fn send(&mut self, messages: Vec<Envelope>) -> Result<(), Memory>
        requires { length self.old.sent + length messages.items < 2 ^ 32 }
        ensures sent { OnOk result (self.new ≡ with_sent messages.items self.old) }
        ensures kept { OnErr result (self.new ≡ self.old) }
    {
        add(&mut self.sent, &mut self.gone, messages)?;
        Ok(())
    }

    /// Sends a copy of a message. After [`Memory`] the list is as before.
    fn send_copy(&mut self, from: NodeId, to: NodeId, message: &Message) -> Result<(), Memory>
        requires { length self.old.sent + 1 < 2 ^ 32 }
        ensures sent { OnOk result
            (self.new ≡ with_sent (record { from = from; to = to; message = message.now } ∷ []) self.old) }
        ensures kept { OnErr result (self.new ≡ self.old) }
    {
        let mut messages = Vec::new(*self.sent.allocator());
        let message = message.copy()?;
        push(&mut messages, Envelope { from, to, message })?;
        self.send(messages)
    }

    /// Sends the messages among the outs of a node, in order, and gives the outs as acts, each message as one
    /// that was sent with its number. After [`Memory`] the list is as before.
    pub fn post_outs(
        &mut self,
        alloc: Global,
        from: NodeId,
        outs: Vec<Out>,
    ) -> Result<Vec<Act>, Memory>
        requires { length self.old.sent + length (posts from outs.items) + 1 < 2 ^ 32 }
        ensures acts { IfOk result (λ acts. acts.items ≡ numbered (length self.old.sent + 1) from outs.items) }
        ensures sent { OnOk result (self.new ≡ with_sent (posts from outs.items) self.old) }
        ensures kept { OnErr result (self.new ≡ self.old) }
    {
        let mut acts = Vec::new(alloc);
        let mut messages = Vec::new(alloc);
        let next = self.sent.len() as u32 + 1;
        number_all(&mut acts, &mut messages, next, from, outs)?;
        self.send(messages)?;
        Ok(acts)
    }
}

impl Link for SentList {
    ghost sent = { λ x. x.sent };

    ghost faults = { λ x. 0 };

    /// Sends a copy of the message. Only want of memory ends it.
    fn post(&mut self, from: NodeId, to: NodeId, message: &Message) -> Result<u32, LinkEnd> {
        match self.send_copy(from, to, message) {
            Err(Memory) => Err(LinkEnd::Memory),
            Ok(()) => Ok(self.sent.len() as u32),
        }
    }
}
