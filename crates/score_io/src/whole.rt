//! What a whole read gives and a whole write appends, and what each leaves where it ends early.
ghost use Rattle.std.specs.Prelude.{◌≡◌, ◌+◌, ◌<◌, ◌≤◌, ℕ, List, [], Option, Some, length, IsSome, IfOk, OnOk, OnErr, IsErrOf};
ghost use Rattle.std.specs.Io.KnownBytes.{IsAtEnd, Appends};
ghost use Rattle.score_base.specs.Faults.{Rose};
ghost use Rattle.score_io.specs.Streams.{ReadWhole, Lost, LostAtMost, Gained, AppendsPart};

use crate::traits::{Sink, Source};
use score_base::put_bytes;
use std::alloc::Global;

/// Why a whole read ended without its bytes.
#[derive(Clone, Copy, Debug, PartialEq, Eq)]
pub enum ReadEnd {
    /// A call of the source failed: its count of faults rose.
    ReadFault,
    /// More bytes came than were asked for.
    TooLong,
    /// Want of memory.
    Memory,
}

/// A whole write ended early, since a call of the sink failed: its count of faults rose.
#[derive(Clone, Copy, Debug, PartialEq, Eq)]
pub struct WriteFault;

/// How many bytes one call of a source is asked for at most: one page.
const PIECE: usize = 4096;

/// One call of the source for 1 to `most` bytes, put behind those that came before.
fn read_piece<S: Source>(source: &mut S, bytes: &mut Vec<u8>, most: usize) -> Result<usize, ReadEnd>
    requires { 0 < most }
    ensures gained { OnOk result (Gained (S.left source.old) (S.left source.new) bytes.old.items bytes.new.items) }
    ensures count { IfOk result (λ n. (length bytes.new.items ≡ length bytes.old.items + n) × (n ≤ most)) }
    ensures end { IfOk result (λ n. n ≡ 0 → IsAtEnd (S.left source.new)) }
    ensures not_long { IsErrOf result ReadEnd.TooLong → ⊥ }
    ensures fault { IsErrOf result ReadEnd.ReadFault → Rose (S.faults source.old) (S.faults source.new) }
    ensures fault_lost { IsErrOf result ReadEnd.ReadFault → LostAtMost (S.left source.old) (S.left source.new) 0 }
    ensures lost { OnErr result (LostAtMost (S.left source.old) (S.left source.new) most) }
    ensures tells { IsSome (S.left source.old) → IsSome (S.left source.new) }
    ensures later { S.faults source.old ≤ S.faults source.new }
{
    let mut buf = [0u8; PIECE];
    let n = source
        .read(&mut buf[..most.min(PIECE)])
        .map_err(|_| ReadEnd::ReadFault)?;
    put_bytes(bytes, &buf[..n]).map_err(|_| ReadEnd::Memory)?;
    Ok(n)
}

/// All bytes of the source to its end, at most `max`.
///
/// [`ReadEnd::ReadFault`] comes only where the source's count of faults rose in this call;
/// [`ReadEnd::TooLong`] exactly where `max + 1` bytes came. After each of these and after
/// [`ReadEnd::Memory`] the source has lost a prefix of its bytes.
pub fn read_all<S: Source>(alloc: Global, source: &mut S, max: usize) -> Result<Vec<u8>, ReadEnd>
    ensures whole { IfOk result (λ v. ReadWhole (S.left source.old) (S.left source.new) v.items) }
    ensures within { IfOk result (λ v. length v.items ≤ max) }
    ensures too_long { IsErrOf result ReadEnd.TooLong → Lost (S.left source.old) (S.left source.new) (max + 1) }
    ensures fault { IsErrOf result ReadEnd.ReadFault → Rose (S.faults source.old) (S.faults source.new) }
    ensures fault_lost { IsErrOf result ReadEnd.ReadFault → LostAtMost (S.left source.old) (S.left source.new) max }
    ensures lost { OnErr result (LostAtMost (S.left source.old) (S.left source.new) (max + 1)) }
    ensures tells { IsSome (S.left source.old) → IsSome (S.left source.new) }
    ensures later { S.faults source.old ≤ S.faults source.new }
{
    let mut bytes = Vec::new(alloc);
    while bytes.len() <= max {
        let room = max - bytes.len();
        let most = room.min(PIECE - 1) + 1;
        match read_piece(source, &mut bytes, most) {
            Ok(0) => return Ok(bytes),
            Ok(_) => {}
            Err(e) => return Err(e),
        }
    }
    Err(ReadEnd::TooLong)
}

/// Writes all of the bytes.
///
/// [`WriteFault`] comes only where the sink's count of faults rose in this call; then a proper
/// prefix of the bytes was appended.
pub fn write_all<K: Sink>(sink: &mut K, bytes: &[u8]) -> Result<(), WriteFault>
    ensures all { OnOk result (Appends (K.held sink.old) (K.held sink.new) bytes.now) }
    ensures part { OnErr result (AppendsPart (K.held sink.old) (K.held sink.new) bytes.now) }
    ensures fault { OnErr result (Rose (K.faults sink.old) (K.faults sink.new)) }
    ensures tells { IsSome (K.held sink.old) → IsSome (K.held sink.new) }
    ensures later { K.faults sink.old ≤ K.faults sink.new }
{
    let mut at = 0;
    while at < bytes.len() {
        match sink.write(&bytes[at..]) {
            Ok(n) => at += n,
            Err(_) => return Err(WriteFault),
        }
    }
    Ok(())
}

/// Where a source tells its bytes, a read to its end gave all that were left and leaves none, and a
/// source that lost a number of bytes had at least so many.
pub fn law_whole_input()
    ensures whole { (xs bytes : List ℕ) (now : Option (List ℕ)) → ReadWhole (Some xs) now bytes → (bytes ≡ xs) × (now ≡ Some []) }
    ensures long { (xs : List ℕ) (n : ℕ) (now : Option (List ℕ)) → Lost (Some xs) now n → n ≤ length xs }
{}
