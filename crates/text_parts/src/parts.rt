//! How the writing of a part ends.
ghost use Rattle.std.specs.Prelude.{◌≤◌, IsSome, OnOk, IsErrOf};
ghost use Rattle.std.specs.Io.KnownBytes.{Appends};
ghost use Rattle.score_base.specs.Faults.{Rose};
ghost use Rattle.score_io.specs.Streams.{AppendsPart};

use score_io::{Sink, write_all};

/// Why a part was not written whole.
#[derive(Clone, Copy, Debug, PartialEq, Eq)]
pub enum PartEnd {
    /// A call of the sink failed: its count of faults rose.
    WriteFault,
    /// Want of memory.
    Memory,
}

/// Writes a part that is built.
pub fn write_part<K: Sink>(part: &[u8], out: &mut K) -> Result<(), PartEnd>
    ensures all { OnOk result (Appends (K.held out.old) (K.held out.new) part.now) }
    ensures part { IsErrOf result PartEnd.WriteFault → AppendsPart (K.held out.old) (K.held out.new) part.now }
    ensures fault { IsErrOf result PartEnd.WriteFault → Rose (K.faults out.old) (K.faults out.new) }
    ensures memory { IsErrOf result PartEnd.Memory → ⊥ }
    ensures tells { IsSome (K.held out.old) → IsSome (K.held out.new) }
    ensures later { K.faults out.old ≤ K.faults out.new }
{
    match write_all(out, part) {
        Ok(()) => Ok(()),
        Err(_) => Err(PartEnd::WriteFault),
    }
}
