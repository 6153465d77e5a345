//! A document is played whole.
ghost use Rattle.std.specs.Prelude.{◌≡◌, ◌++◌, IfOk, IsOk, OnOk, List, replicate};
ghost use Rattle.grid_model.specs.declared.items.Item.TheVariants as item;
ghost use Rattle.grid_model.specs.Schedules.{events_in};
ghost use Rattle.grid_world.specs.Replays.{CanPlayAll, HasReplayed, PlaysAll, Adds};
ghost use Rattle.grid_world.specs.Starts.{AreDisksOf};

use crate::worlds::World;
use grid_model::{Act, Document, Item};
use score_base::{Memory, append};
use score_disk::{CrashDisk, Disk, Fused};
use std::alloc::Global;

impl<D: CrashDisk> World<Fused<D>> {
    /// Plays so many events of `next`, and adds their acts.
    fn play_next(
        &mut self,
        alloc: Global,
        doc: &Document,
        count: u32,
        acts: &mut Vec<Act>,
    ) -> Result<(), Memory>
        requires { CanPlayAll doc.now (replicate count (item.Next 1)) self.old }
        ensures { OnOk result (Adds doc.now (replicate count (item.Next 1)) self.old self.new acts.old.items acts.new.items) }
    {
        for i in 0..count {
            let more = self.play(alloc, doc, Item::Next(1))?;
            append(acts, more)?;
        }
        Ok(())
    }

    /// Plays the events of an item, and adds their acts.
    fn play_item(
        &mut self,
        alloc: Global,
        doc: &Document,
        item: Item,
        acts: &mut Vec<Act>,
    ) -> Result<(), Memory>
        requires { CanPlayAll doc.now (events_in item) self.old }
        ensures { OnOk result (Adds doc.now (events_in item) self.old self.new acts.old.items acts.new.items) }
    {
        match item {
            Item::Next(count) => self.play_next(alloc, doc, count, acts),
            _ => {
                let more = self.play(alloc, doc, item)?;
                append(acts, more)
            }
        }
    }
}

/// The acts of a document that is played over these disks, which are new, and the disks as they are left: node n has
/// those at the places 2 (n - 1) and 2 (n - 1) + 1.
pub fn replay<D: CrashDisk>(
    alloc: Global,
    doc: &Document,
    disks: Vec<Fused<D>>,
) -> Result<(Vec<Act>, Vec<Fused<D>>), Memory>
    requires { AreDisksOf ⟦<Fused<D> as Disk>⟧ doc.now.cluster.nodes disks.items }
    ensures { IfOk result (λ r. HasReplayed ⟦<Fused<D> as Disk>⟧ doc.now disks.items r.1.items r.0.items) }
{
    let mut world = World::new(alloc, doc, disks)?;
    let mut acts = world.opening(alloc, doc)?;
    for item in doc.items() {
        world.play_item(alloc, doc, *item, &mut acts)?;
    }
    Ok((acts, world.into_disks()))
}
