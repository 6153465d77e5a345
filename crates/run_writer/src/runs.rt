//! A run is written whole, or as far as its sink and its memory go.
ghost use Rattle.std.specs.Prelude.{◌≡◌, ◌≤◌, List};
ghost use Rattle.grid_world.specs.Starts.{AreDisksOf, IsFresh};
ghost use Rattle.run_writer.specs.Writing.{HasWritten, WritesText};

use crate::events::{write_events, write_start};
use grid_model::Document;
use grid_world::World;
use score_disk::{CrashDisk, Disk, Fused};
use score_io::Sink;
use std::alloc::Global;
use text_parts::{PartEnd, write_tally};

/// How the writing of a run ended.
#[derive(Drop)]
pub enum RunEnd<D> {
    /// The text was written whole. The disks are as the run left them.
    Whole(Vec<D>),
    /// The sink failed in a part. The disks are as the event of that part left them.
    Broken(Vec<D>),
    /// Want of memory.
    Memory,
}

/// Plays the document, and writes each part of its text before the next event is played.
fn write_text<D: CrashDisk, K: Sink>(
    world: &mut World<Fused<D>>,
    alloc: Global,
    doc: &Document,
    out: &mut K,
) -> Result<(), PartEnd>
    requires { (given : List (Fused D)) × IsFresh doc.now given world.old }
    ensures { WritesText doc.now world.old world.new (K.held out.old) (K.held out.new) (K.faults out.old)
        (K.faults out.new) result }
{
    write_start(world, alloc, doc, out)?;
    write_events(world, alloc, doc, out)?;
    write_tally(alloc, doc, world.tally(), out)
}

/// Plays a document over these disks, which are new, and writes the text of its run: the lines of the start row, those
/// of each event before the next event is played, and the summary. Node n has the disks at the places 2 (n - 1) and
/// 2 (n - 1) + 1.
///
/// [`RunEnd::Broken`] comes only where the sink's count of faults rose; then the parts before one were written whole, a
/// proper prefix of that part behind them, and no event behind that of the part was played. After [`RunEnd::Memory`]
/// the first parts of a lawful run were written, or none, and nothing is said of the disks.
pub fn write_run<D: CrashDisk, K: Sink>(
    alloc: Global,
    doc: &Document,
    disks: Vec<Fused<D>>,
    out: &mut K,
) -> RunEnd<Fused<D>>
    requires { AreDisksOf ⟦<Fused<D> as Disk>⟧ doc.now.cluster.nodes disks.items }
    ensures { HasWritten ⟦<Fused<D> as Disk>⟧ doc.now disks.items (K.held out.old) (K.held out.new) (K.faults out.old)
        (K.faults out.new) result }
{
    let Ok(mut world) = World::new(alloc, doc, disks) else {
        return RunEnd::Memory;
    };
    match write_text(&mut world, alloc, doc, out) {
        Ok(()) => RunEnd::Whole(world.into_disks()),
        Err(PartEnd::WriteFault) => RunEnd::Broken(world.into_disks()),
        Err(PartEnd::Memory) => RunEnd::Memory,
    }
}
