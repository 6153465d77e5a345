//! The last part: the summary, by the tally of the run.
ghost use Rattle.std.specs.Prelude.{◌≡◌, ◌≤◌, IsSome, OnOk, IsErrOf};
ghost use Rattle.std.specs.Io.KnownBytes.{Appends, Keeps};
ghost use Rattle.score_base.specs.Faults.{Rose};
ghost use Rattle.score_io.specs.Streams.{AppendsPart};
ghost use Rattle.run_tally.specs.Texts.{TallyText};

use crate::parts::{PartEnd, write_part};
use grid_model::Document;
use run_tally::Tally;
use score_io::Sink;
use std::alloc::Global;

/// Writes the text of a tally as one part: it is built whole, and then appended by one whole write. The
/// tally of a run's acts has their summary as its text.
///
/// [`PartEnd::WriteFault`] comes only where the sink's count of faults rose in this call; then a proper
/// prefix of the text was appended. After [`PartEnd::Memory`] the sink is as before.
pub fn write_tally<K: Sink>(
    alloc: Global,
    doc: &Document,
    tally: &Tally,
    out: &mut K,
) -> Result<(), PartEnd>
    ensures all { OnOk result (Appends (K.held out.old) (K.held out.new) (TallyText doc.now tally.now)) }
    ensures part { IsErrOf result PartEnd.WriteFault →
        AppendsPart (K.held out.old) (K.held out.new) (TallyText doc.now tally.now) }
    ensures fault { IsErrOf result PartEnd.WriteFault → Rose (K.faults out.old) (K.faults out.new) }
    ensures memory { IsErrOf result PartEnd.Memory → out.new ≡ out.old }
    ensures kept { IsErrOf result PartEnd.Memory → Keeps (K.held out.old) (K.held out.new) }
    ensures tells { IsSome (K.held out.old) → IsSome (K.held out.new) }
    ensures later { K.faults out.old ≤ K.faults out.new }
{
    let mut text = Vec::new(alloc);
    match tally.write(doc, &mut text) {
        Ok(()) => write_part(text.as_slice(), out),
        Err(_) => Err(PartEnd::Memory),
    }
}
