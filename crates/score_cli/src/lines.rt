//! The lines that say why no text was written.
ghost use Rattle.std.specs.Prelude.{◌≡◌, ◌≤◌, IfOk, codes};
ghost use Rattle.score_base.specs.Faults.{Rose};
ghost use Rattle.score_cli.specs.Answers.{Wrote, refused_line};

use cluster_file::Refusal;
use score_base::{Memory, put_bytes, put_number};
use score_io::{Sink, write_all};
use std::alloc::Global;

/// Writes a line. Where it cannot be written whole, since the sink failed, a prefix of it stands.
pub fn say<K: Sink>(out: &mut K, line: &[u8])
    ensures wrote { Wrote (K.held out.old) (K.held out.new) (K.faults out.old) (K.faults out.new) line.now }
    ensures later { K.faults out.old ≤ K.faults out.new }
{
    let _ = write_all(out, line);
}

/// The line of a refusal.
#[tactic(auto, unfolding(crate::specs::Answers::refused_line))]
pub fn refused_line(alloc: Global, refusal: Refusal) -> Result<Vec<u8>, Memory>
    ensures { IfOk result (λ line. line.items ≡ refused_line refusal) }
{
    let mut line = Vec::new(alloc);
    put_bytes(&mut line, b"refused ")?;
    put_number(&mut line, refusal.line as u64)?;
    put_bytes(&mut line, b" ")?;
    put_number(&mut line, refusal.why as u64)?;
    put_bytes(&mut line, b"\n")?;
    Ok(line)
}
