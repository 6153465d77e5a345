//! One node of the world plays an event.
ghost use Rattle.std.specs.Prelude.{◌≡◌, ◌≤◌, IfOk, OnOk, Some, length};
ghost use Rattle.grid_model.specs.declared.events.Event.TheVariants as kinds;
ghost use Rattle.grid_hosts.specs.declared.hosts.Host.{Host as HostData};
ghost use Rattle.grid_hosts.specs.Hosts.{CanOpen, CanStep, HasArmed, HasCompacted, HasCrashed, HasRestarted, HasRun};
ghost use Rattle.grid_world.specs.Worlds.{CanRun, CanReopen, HasMoved, HasNumbers, HasPlayed, HasTurned, IsTold, KeepsRest, host_at};

use crate::told::only;
use crate::worlds::{World, place_of};
use core::mem::replace_with;
use grid_hosts::{Host, Ran, Restarted};
use grid_model::{Act, Document, Event};
use placement::Cluster;
use score_base::{Memory, NodeId};
use score_disk::{CrashDisk, Disk, Fused};
use sent_list::SentList;
use std::alloc::Global;

/// What a step of a node is given.
#[derive(Drop)]
pub struct Given<'a> {
    pub alloc: Global,
    pub cluster: &'a Cluster,
    pub event: Event,
}

fn step_host<D: CrashDisk>(host: Host<Fused<D>>, given: Given<'_>) -> (Host<Fused<D>>, Ran)
    requires { CanStep given.cluster.now host.place }
    ensures { HasRun host given.entry.event result.0 result.1 }
{
    host.step(given.alloc, given.cluster, given.event)
}

fn compact_host<D: CrashDisk>(host: Host<Fused<D>>, given: Given<'_>) -> (Host<Fused<D>>, Ran)
    requires { CanStep given.cluster.now host.place }
    ensures { HasCompacted host result.0 result.1 }
{
    host.compact(given.alloc, given.cluster)
}

fn restart_host<D: CrashDisk>(host: Host<Fused<D>>, given: Given<'_>) -> (Host<Fused<D>>, Restarted)
    requires { CanOpen host.id given.cluster.now host.place }
    ensures { HasRestarted given.entry.cluster.now host result.0 result.1 }
{
    host.restart(given.alloc, given.cluster)
}

fn crash_host<D: CrashDisk>(host: Host<Fused<D>>, how: u64) -> (Host<Fused<D>>, ())
    ensures { HasCrashed host result.0 }
{
    (host.crash(how), ())
}

fn arm_host<D: CrashDisk>(host: Host<Fused<D>>, fuse: (u64, u64)) -> (Host<Fused<D>>, ())
    requires { 1 ≤ fuse.0 }
    ensures { HasArmed fuse.0 fuse.1 host result.0 }
{
    (host.arm(fuse.0, fuse.1), ())
}

/// The acts of an event of node `n` that ended so; its messages are sent.
fn ended(network: &mut SentList, alloc: Global, n: NodeId, ran: Ran) -> Result<Vec<Act>, Memory>
    requires { HasNumbers network.old n ran }
    ensures { IfOk result (λ acts. IsTold network.old n ran network.new acts.items) }
{
    match ran {
        Ran::Outs(outs) => network.post_outs(alloc, n, outs),
        Ran::Stopped(head) => only(alloc, Act::Down(n, Some(head))),
        Ran::Memory => Err(Memory),
    }
}

impl<D: CrashDisk> World<Fused<D>> {
    /// Node `n` plays an event, which is no compaction: its acts, or the stop.
    pub(crate) fn run(
        &mut self,
        alloc: Global,
        doc: &Document,
        n: NodeId,
        event: Event,
    ) -> Result<Vec<Act>, Memory>
        requires can { CanRun doc.now n event self.old }
        requires plain { event ≡ kinds.Compact → ⊥ }
        ensures { IfOk result (λ acts. HasPlayed n (λ x y r. HasRun x event y r) self.old self.new acts.items) }
    {
        let given = Given {
            alloc,
            cluster: doc.cluster(),
            event,
        };
        let place = place_of(n);
        let ran = replace_with(&mut self.hosts[place], given, step_host);
        ended(&mut self.network, alloc, n, ran)
    }

    /// Node `n` makes its journal small: its acts, or the stop.
    pub(crate) fn compact(
        &mut self,
        alloc: Global,
        doc: &Document,
        n: NodeId,
    ) -> Result<Vec<Act>, Memory>
        requires { CanRun doc.now n kinds.Compact self.old }
        ensures { IfOk result (λ acts. HasPlayed n (λ x y r. HasCompacted x y r) self.old self.new acts.items) }
    {
        let given = Given {
            alloc,
            cluster: doc.cluster(),
            event: Event::Compact,
        };
        let place = place_of(n);
        let ran = replace_with(&mut self.hosts[place], given, compact_host);
        ended(&mut self.network, alloc, n, ran)
    }

    /// Node `n` is opened.
    pub(crate) fn restart_at(&mut self, alloc: Global, doc: &Document, n: NodeId) -> Restarted
        requires { CanReopen doc.now n self.old }
        ensures { HasMoved n (λ x y. HasRestarted doc.now.cluster x y result) self.old self.new }
    {
        let given = Given {
            alloc,
            cluster: doc.cluster(),
            event: Event::Compact,
        };
        let place = place_of(n);
        replace_with(&mut self.hosts[place], given, restart_host)
    }

    /// Node `n` is crashed.
    pub(crate) fn crash_at(&mut self, n: NodeId, how: u64)
        requires { n ≤ length self.old.hosts.items }
        ensures { HasMoved n HasCrashed self.old self.new }
    {
        let place = place_of(n);
        replace_with(&mut self.hosts[place], how, crash_host);
    }

    /// The fuses of node `n` are armed.
    pub(crate) fn arm_at(&mut self, n: NodeId, k: u64, how: u64)
        requires host { n ≤ length self.old.hosts.items }
        requires least { 1 ≤ k }
        ensures moved { HasMoved n (λ x y. HasArmed k how x y) self.old self.new }
        ensures positive { 1 ≤ n }
    {
        let place = place_of(n);
        replace_with(&mut self.hosts[place], (k, how), arm_host);
    }
}
