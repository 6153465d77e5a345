//! One event, one row.

ghost use Rattle.std.specs.Prelude.{◌≡◌, true, []};
ghost use Rattle.grid_model.specs.declared.events.Event.TheVariants as event;
ghost use Rattle.grid_model.specs.Fitness.{is_fit};
ghost use Rattle.grid_model.specs.Views.{View};
ghost use Rattle.node_core.specs.Homes.{GivesOuts};
ghost use Rattle.node_core.specs.Steps.{IsStepped, ShowsView};

use crate::ends::Stepped;
use crate::nodes::Node;
use grid_model::{Event, Message};
use placement::Cluster;
use score_base::NodeId;
use score_disk::Disk;
use std::alloc::Global;

impl<D: Disk> Node<D> {
    /// Plays an event. The outs are exactly those of the model's row on each view that the node shows, and
    /// the node shows the next view then; a message or a begin that is not fit gives nothing and changes
    /// nothing. [`Stepped::Down`] comes only where a device call failed while the row's record, or a
    /// compaction, was written; after [`Stepped::Memory`] all is as before but for room. All memory is taken
    /// before the first write.
    pub fn step(self, alloc: Global, cluster: &Cluster, event: Event) -> Stepped<D>
        requires { cluster.now ≡ self.store.cluster }
        ensures { IsStepped self event result }
    {
        match event {
            Event::Begin(script, floor) => {
                if self.is_fit_begin(&script, floor) {
                    self.begin(alloc, cluster, script, floor)
                } else {
                    self.quiet(alloc)
                }
            }
            Event::Deliver(from, message) => {
                if self.is_fit(from, &message) {
                    self.take(alloc, cluster, from, message)
                } else {
                    self.quiet(alloc)
                }
            }
            Event::Retry(t) => self.retry(alloc, cluster, t),
            Event::Ask(t) => self.ask(alloc, t),
            Event::AskPeer(t, m) => self.ask_part(alloc, t, m),
            Event::Compact => self.compact(alloc),
        }
    }

    /// Nothing is given, and nothing changes.
    fn quiet(self, alloc: Global) -> Stepped<D>
        ensures { GivesOuts self.store self.waiting self.desk self.pair [] result }
    {
        Stepped::Done(self, Vec::new(alloc))
    }

    /// A fit message.
    fn take(self, alloc: Global, cluster: &Cluster, from: NodeId, message: Message) -> Stepped<D>
        requires cluster { cluster.now ≡ self.store.cluster }
        requires fit { (v : View) → ShowsView self v → is_fit self.store.node v from message ≡ true }
        ensures { IsStepped self (event.Deliver from message) result }
    {
        match &message {
            Message::ReadReq(q) => self.read(alloc, from, q),
            Message::ReadRep(q) => self.reply(alloc, cluster, from, q),
            Message::Prepare(q) => self.prepare(alloc, from, q),
            Message::Vote { t, ballot } => self.vote(alloc, from, *t, ballot),
            Message::Tell { t, outcome } => self.tell(alloc, *t, outcome, from),
            Message::Ack { t } => self.ack(alloc, from, *t),
            Message::Ask { t } => self.asked(alloc, from, *t),
            Message::AskPeer { t } => self.asked_by_part(alloc, *t, from),
        }
    }
}
