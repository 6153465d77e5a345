//! Events are played, and the lines of each are written before the next is played.
ghost use Rattle.std.specs.Prelude.{◌≡◌, ◌≤◌, ◌∷◌, [], List, replicate};
ghost use Rattle.grid_model.specs.declared.items.Item.TheVariants as item;
ghost use Rattle.grid_model.specs.Cuts.{events};
ghost use Rattle.grid_model.specs.Schedules.{events_in};
ghost use Rattle.grid_world.specs.Follows.{CanPlay};
ghost use Rattle.grid_world.specs.Replays.{CanPlayAll};
ghost use Rattle.grid_world.specs.Starts.{IsFresh};
ghost use Rattle.run_writer.specs.Writing.{Writes, WritesStart};

use grid_model::{Document, Item};
use grid_world::World;
use score_disk::{CrashDisk, Disk, Fused};
use score_io::Sink;
use std::alloc::Global;
use text_parts::{PartEnd, write_acts};

/// Opens the nodes, and writes the lines of the start row.
pub fn write_start<D: CrashDisk, K: Sink>(
    world: &mut World<Fused<D>>,
    alloc: Global,
    doc: &Document,
    out: &mut K,
) -> Result<(), PartEnd>
    requires { (given : List (Fused D)) × IsFresh doc.now given world.old }
    ensures writes { WritesStart doc.now world.old world.new (K.held out.old) (K.held out.new) (K.faults out.old)
        (K.faults out.new) result }
    ensures later { K.faults out.old ≤ K.faults out.new }
{
    match world.opening(alloc, doc) {
        Ok(acts) => write_acts(alloc, acts.as_slice(), out),
        Err(_) => Err(PartEnd::Memory),
    }
}

/// Plays an event, and writes its lines.
fn write_event<D: CrashDisk, K: Sink>(
    world: &mut World<Fused<D>>,
    alloc: Global,
    doc: &Document,
    event: Item,
    out: &mut K,
) -> Result<(), PartEnd>
    requires { CanPlay doc.now event world.old }
    ensures writes { Writes doc.now (event ∷ []) world.old world.new (K.held out.old) (K.held out.new)
        (K.faults out.old) (K.faults out.new) result }
    ensures later { K.faults out.old ≤ K.faults out.new }
{
    match world.play(alloc, doc, event) {
        Ok(acts) => write_acts(alloc, acts.as_slice(), out),
        Err(_) => Err(PartEnd::Memory),
    }
}

/// Plays so many events of `next`, and writes the lines of each.
fn write_next<D: CrashDisk, K: Sink>(
    world: &mut World<Fused<D>>,
    alloc: Global,
    doc: &Document,
    count: u32,
    out: &mut K,
) -> Result<(), PartEnd>
    requires { CanPlayAll doc.now (replicate count (item.Next 1)) world.old }
    ensures writes { Writes doc.now (replicate count (item.Next 1)) world.old world.new (K.held out.old)
        (K.held out.new) (K.faults out.old) (K.faults out.new) result }
    ensures later { K.faults out.old ≤ K.faults out.new }
{
    for i in 0..count {
        write_event(world, alloc, doc, Item::Next(1), out)?;
    }
    Ok(())
}

/// Plays the events of an item, and writes the lines of each.
fn write_item<D: CrashDisk, K: Sink>(
    world: &mut World<Fused<D>>,
    alloc: Global,
    doc: &Document,
    item: Item,
    out: &mut K,
) -> Result<(), PartEnd>
    requires { CanPlayAll doc.now (events_in item) world.old }
    ensures writes { Writes doc.now (events_in item) world.old world.new (K.held out.old) (K.held out.new)
        (K.faults out.old) (K.faults out.new) result }
    ensures later { K.faults out.old ≤ K.faults out.new }
{
    match item {
        Item::Next(count) => write_next(world, alloc, doc, count, out),
        _ => write_event(world, alloc, doc, item, out),
    }
}

/// Plays all events of a document, and writes the lines of each.
pub fn write_events<D: CrashDisk, K: Sink>(
    world: &mut World<Fused<D>>,
    alloc: Global,
    doc: &Document,
    out: &mut K,
) -> Result<(), PartEnd>
    requires { CanPlayAll doc.now (events doc.now) world.old }
    ensures writes { Writes doc.now (events doc.now) world.old world.new (K.held out.old) (K.held out.new)
        (K.faults out.old) (K.faults out.new) result }
    ensures later { K.faults out.old ≤ K.faults out.new }
{
    for item in doc.items() {
        write_item(world, alloc, doc, *item, out)?;
    }
    Ok(())
}
