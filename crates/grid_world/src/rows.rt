//! The acts of one event.
ghost use Rattle.std.specs.Prelude.{◌≡◌, ◌≤◌, ◌∷◌, [], IfOk, IsTrue};
ghost use Rattle.grid_model.specs.declared.acts.Act.TheVariants as act;
ghost use Rattle.grid_model.specs.declared.events.Event.TheVariants as kinds;
ghost use Rattle.grid_model.specs.declared.items.Item.TheVariants as item;
ghost use Rattle.grid_model.specs.Voids.{voided};
ghost use Rattle.grid_world.specs.Follows.{CanPlay, CanPlaySome, Delivers, Plays};
ghost use Rattle.grid_world.specs.Worlds.{CanRun, HasRisen, OrVoid, PlaysBehind, is_pending_in};

use crate::told::{has_any, only};
use crate::worlds::World;
use grid_hosts::Restarted;
use grid_model::{Act, Document, Event, Flag, Item, Void};
use run_state::script_of;
use score_base::{Memory, NodeId, TryCopy, TxId, append};
use score_disk::{CrashDisk, Disk, Fused};
use std::alloc::Global;

impl<D: CrashDisk> World<Fused<D>> {
    /// Node `n` plays an event, behind these acts, and the tally takes them all.
    fn play_at(
        &mut self,
        alloc: Global,
        doc: &Document,
        first: Vec<Act>,
        n: NodeId,
        event: Event,
    ) -> Result<Vec<Act>, Memory>
        requires can { CanRun doc.now n event self.old }
        requires plain { event ≡ kinds.Compact → ⊥ }
        ensures { IfOk result (λ acts. PlaysBehind doc.now first.items n event self.old self.new acts.items) }
    {
        let mut acts = first;
        let more = self.run(alloc, doc, n, event)?;
        append(&mut acts, more)?;
        self.tell(doc, acts.as_slice())?;
        Ok(acts)
    }

    /// Node `n` plays an event, or there is nothing that it gives, for this reason.
    fn play_or_void(
        &mut self,
        alloc: Global,
        doc: &Document,
        why: Void,
        n: NodeId,
        event: Event,
    ) -> Result<Vec<Act>, Memory>
        requires can { CanRun doc.now n event self.old }
        requires plain { event ≡ kinds.Compact → ⊥ }
        ensures { IfOk result (λ acts. OrVoid doc.now why n event self.old self.new acts.items) }
    {
        let acts = self.run(alloc, doc, n, event)?;
        if !has_any(acts.as_slice()) {
            return self.voided(alloc, doc, why);
        }
        self.tell(doc, acts.as_slice())?;
        Ok(acts)
    }

    fn begin(&mut self, alloc: Global, doc: &Document, t: TxId) -> Result<Vec<Act>, Memory>
        requires { CanPlay doc.now (item.Begin t) self.old }
        ensures { IfOk result (λ acts. Plays doc.now (item.Begin t) self.old self.new acts.items) }
    {
        if self.tally.is_begun(t) {
            return self.voided(alloc, doc, Void::Begun);
        }
        let Some(script) = script_of(doc.scripts(), t) else {
            return Ok(Vec::new(alloc));
        };
        if !self.is_up(script.home) {
            return self.voided(alloc, doc, Void::HomeDown);
        }
        if self.tally.is_busy(doc, script.session) {
            return self.voided(alloc, doc, Void::SessionBusy);
        }
        let floor = self.tally.floor(doc, script.session);
        let event = Event::Begin(script.copy()?, floor);
        self.play_at(alloc, doc, Vec::new(alloc), script.home, event)
    }

    fn deliver(&mut self, alloc: Global, doc: &Document, m: u32) -> Result<Vec<Act>, Memory>
        requires { CanPlaySome doc.now self.old }
        ensures { IfOk result (λ acts. Delivers doc.now m self.old self.new acts.items) }
    {
        let Some(envelope) = self.network.message(m) else {
            return self.voided(alloc, doc, Void::NotSent);
        };
        let to = envelope.to;
        let event = Event::Deliver(envelope.from, envelope.message.copy()?);
        self.network.take_away(m);
        if !self.is_up(to) {
            return self.told(alloc, doc, Act::Missed(m));
        }
        let first = only(alloc, Act::Got(m))?;
        self.play_at(alloc, doc, first, to, event)
    }

    fn drop_message(&mut self, alloc: Global, doc: &Document, m: u32) -> Result<Vec<Act>, Memory>
        requires { CanPlay doc.now (item.Drop m) self.old }
        ensures { IfOk result (λ acts. Plays doc.now (item.Drop m) self.old self.new acts.items) }
    {
        let Some(_) = self.network.message(m) else {
            return self.voided(alloc, doc, Void::NotSent);
        };
        self.network.take_away(m);
        self.told(alloc, doc, Act::Dropped(m))
    }

    fn retry(&mut self, alloc: Global, doc: &Document, t: TxId) -> Result<Vec<Act>, Memory>
        requires { CanPlay doc.now (item.Retry t) self.old }
        ensures { IfOk result (λ acts. Plays doc.now (item.Retry t) self.old self.new acts.items) }
    {
        let Some(script) = script_of(doc.scripts(), t) else {
            return Ok(Vec::new(alloc));
        };
        let home = script.home;
        if !self.is_up(home) {
            return self.voided(alloc, doc, Void::HomeDown);
        }
        self.play_or_void(alloc, doc, Void::NothingOwed, home, Event::Retry(t))
    }

    fn ask(&mut self, alloc: Global, doc: &Document, n: NodeId, t: TxId) -> Result<Vec<Act>, Memory>
        requires { CanPlay doc.now (item.Ask n t) self.old }
        ensures { IfOk result (λ acts. Plays doc.now (item.Ask n t) self.old self.new acts.items) }
    {
        if !self.is_up(n) {
            return self.voided(alloc, doc, Void::NotPending);
        }
        self.play_or_void(alloc, doc, Void::NotPending, n, Event::Ask(t))
    }

    /// Whether a transaction is pending at a node that is up.
    fn is_pending(&self, n: NodeId, t: TxId) -> bool
        ensures pending { result ≡ is_pending_in self.now n t }
        ensures least { 1 ≤ n }
    {
        match self.node(n) {
            None => false,
            Some(node) => node.is_pending(t),
        }
    }

    fn ask_part(
        &mut self,
        alloc: Global,
        doc: &Document,
        n: NodeId,
        t: TxId,
        m: NodeId,
    ) -> Result<Vec<Act>, Memory>
        requires { CanPlay doc.now (item.AskPeer n t m) self.old }
        ensures { IfOk result (λ acts. Plays doc.now (item.AskPeer n t m) self.old self.new acts.items) }
    {
        if !self.is_pending(n, t) {
            return self.voided(alloc, doc, Void::NotPending);
        }
        self.play_or_void(alloc, doc, Void::NotPart, n, Event::AskPeer(t, m))
    }

    fn crash(
        &mut self,
        alloc: Global,
        doc: &Document,
        n: NodeId,
        how: u64,
    ) -> Result<Vec<Act>, Memory>
        requires { CanPlay doc.now (item.Crash n how) self.old }
        ensures { IfOk result (λ acts. Plays doc.now (item.Crash n how) self.old self.new acts.items) }
    {
        if !self.is_up(n) {
            return self.voided(alloc, doc, Void::IsDown);
        }
        self.crash_at(n, how);
        self.told(alloc, doc, Act::Down(n, None))
    }

    fn fuse(
        &mut self,
        alloc: Global,
        doc: &Document,
        n: NodeId,
        k: u64,
        how: u64,
    ) -> Result<Vec<Act>, Memory>
        requires { CanPlay doc.now (item.Fuse n k how) self.old }
        ensures { IfOk result (λ acts. Plays doc.now (item.Fuse n k how) self.old self.new acts.items) }
    {
        self.arm_at(n, k, how);
        self.told(alloc, doc, Act::Armed(n, k, how))
    }

    /// The acts of a node that came up, and the losses of its transactions.
    fn risen(
        &mut self,
        alloc: Global,
        doc: &Document,
        n: NodeId,
        flag: Flag,
    ) -> Result<Vec<Act>, Memory>
        ensures { IfOk result (λ acts. HasRisen doc.now n flag self.old self.new acts.items) }
    {
        let mut acts = self.told(alloc, doc, Act::Up(n, flag))?;
        let losses = self.tally.losses(alloc, doc, n)?;
        self.tell(doc, losses.as_slice())?;
        append(&mut acts, losses)?;
        Ok(acts)
    }

    fn restart(&mut self, alloc: Global, doc: &Document, n: NodeId) -> Result<Vec<Act>, Memory>
        requires { CanPlay doc.now (item.Restart n) self.old }
        ensures { IfOk result (λ acts. Plays doc.now (item.Restart n) self.old self.new acts.items) }
    {
        if self.is_up(n) {
            return self.voided(alloc, doc, Void::IsUp);
        }
        match self.restart_at(alloc, doc, n) {
            Restarted::Up(flag) => self.risen(alloc, doc, n, flag),
            Restarted::StillDown => self.told(alloc, doc, Act::StillDown(n)),
            Restarted::Memory => Err(Memory),
        }
    }

    fn make_small(&mut self, alloc: Global, doc: &Document, n: NodeId) -> Result<Vec<Act>, Memory>
        requires { CanPlay doc.now (item.Compact n) self.old }
        ensures { IfOk result (λ acts. Plays doc.now (item.Compact n) self.old self.new acts.items) }
    {
        if !self.is_up(n) {
            return self.voided(alloc, doc, Void::NotUp);
        }
        let acts = self.compact(alloc, doc, n)?;
        self.tell(doc, acts.as_slice())?;
        Ok(acts)
    }

    /// Plays one event of an item; of `next`, one.
    pub fn play(&mut self, alloc: Global, doc: &Document, item: Item) -> Result<Vec<Act>, Memory>
        requires { CanPlay doc.now item self.old }
        ensures { IfOk result (λ acts. Plays doc.now item self.old self.new acts.items) }
    {
        match item {
            Item::Begin(t) => self.begin(alloc, doc, t),
            Item::Deliver(m) => self.deliver(alloc, doc, m),
            Item::Drop(m) => self.drop_message(alloc, doc, m),
            Item::Next(_) => match self.network.next_left() {
                None => self.voided(alloc, doc, Void::NoneLeft),
                Some(m) => self.deliver(alloc, doc, m),
            },
            Item::Retry(t) => self.retry(alloc, doc, t),
            Item::Ask(n, t) => self.ask(alloc, doc, n, t),
            Item::AskPeer(n, t, m) => self.ask_part(alloc, doc, n, t, m),
            Item::Crash(n, how) => self.crash(alloc, doc, n, how),
            Item::Fuse(n, k, how) => self.fuse(alloc, doc, n, k, how),
            Item::Restart(n) => self.restart(alloc, doc, n),
            Item::Compact(n) => self.make_small(alloc, doc, n),
        }
    }
}
