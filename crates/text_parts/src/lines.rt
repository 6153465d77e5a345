//! The part of a row: the lines of its acts.
ghost use Rattle.std.specs.Prelude.{◌≡◌, ◌++◌, ◌≤◌, IsSome, OnOk, IsErrOf};
ghost use Rattle.std.specs.Io.KnownBytes.{Appends, Keeps};
ghost use Rattle.score_base.specs.Faults.{Rose};
ghost use Rattle.score_io.specs.Streams.{AppendsPart};
ghost use Rattle.text_parts.specs.Parts.{act_lines};

use crate::parts::{PartEnd, write_part};
use grid_model::Act;
use history_print::write_act;
use score_base::Memory;
use score_io::Sink;
use std::alloc::Global;

fn put_acts(acts: &[Act], lines: &mut Vec<u8>) -> Result<(), Memory>
    ensures { OnOk result (lines.new.items ≡ lines.old.items ++ act_lines acts.now) }
{
    for act in acts {
        write_act(act, lines)?;
    }
    Ok(())
}

/// Writes the lines of these acts as one part: they are built whole, and then appended by one whole write.
/// Where there are no acts the sink is not called.
///
/// [`PartEnd::WriteFault`] comes only where the sink's count of faults rose in this call; then a proper
/// prefix of the lines was appended. After [`PartEnd::Memory`] the sink is as before.
pub fn write_acts<K: Sink>(alloc: Global, acts: &[Act], out: &mut K) -> Result<(), PartEnd>
    ensures all { OnOk result (Appends (K.held out.old) (K.held out.new) (act_lines acts.now)) }
    ensures part { IsErrOf result PartEnd.WriteFault →
        AppendsPart (K.held out.old) (K.held out.new) (act_lines acts.now) }
    ensures fault { IsErrOf result PartEnd.WriteFault → Rose (K.faults out.old) (K.faults out.new) }
    ensures memory { IsErrOf result PartEnd.Memory → out.new ≡ out.old }
    ensures kept { IsErrOf result PartEnd.Memory → Keeps (K.held out.old) (K.held out.new) }
    ensures tells { IsSome (K.held out.old) → IsSome (K.held out.new) }
    ensures later { K.faults out.old ≤ K.faults out.new }
{
    let mut lines = Vec::new(alloc);
    match put_acts(acts, &mut lines) {
        Ok(()) => write_part(lines.as_slice(), out),
        Err(_) => Err(PartEnd::Memory),
    }
}
