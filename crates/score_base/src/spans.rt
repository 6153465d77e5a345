//! How a text falls into lines, and a line into words.
ghost use Rattle.std.specs.Prelude.{◌≡◌, ◌≤◌, ◌++◌, ◌∷◌, [], All, IfOk, length, map};
ghost use Rattle.std.specs.List.{slice_range};
ghost use Rattle.score_base.specs.Pieces.{pieces, lines, words, places, LieInOrder};

use crate::memory::{Memory, push};
use std::alloc::Global;

/// A part of a text: from the byte at `start` to the byte before `end`.
#[derive(Clone, Copy, Debug, PartialEq, Eq)]
pub struct Span {
    pub start: usize,
    pub end: usize,
}

/// The pieces that end at a separator, and where the last piece begins.
fn ended_pieces(alloc: Global, text: &[u8], separator: u8) -> Result<(Vec<Span>, usize), Memory>
    ensures pieces { IfOk result (λ r. r.0.items ++ (record { start = r.1; end = length text.now }) ∷ []
        ≡ places 0 (pieces separator text.now)) }
    ensures within { IfOk result (λ r. r.1 ≤ length text.now) }
{
    let mut spans = Vec::new(alloc);
    let mut start = 0;
    for (at, b) in text.iter().enumerate() {
        if *b == separator {
            push(&mut spans, Span { start, end: at })?;
            start = at + 1;
        }
    }
    Ok((spans, start))
}

/// The lines of a text: the pieces between line feeds, and a last piece without one where it isn't
/// empty.
pub fn lines(alloc: Global, text: &[u8]) -> Result<Vec<Span>, Memory>
    ensures value { IfOk result (λ v. v.items ≡ places 0 (lines text.now)) }
    ensures slices { IfOk result (λ v. map (λ s. slice_range text.now s.start s.end) v.items ≡ lines text.now) }
    ensures within { IfOk result (λ v. All (λ s. (s.start ≤ s.end) × (s.end ≤ length text.now)) v.items) }
    ensures order { IfOk result (λ v. LieInOrder 0 (length text.now) v.items) }
{
    let (mut spans, start) = ended_pieces(alloc, text, b'\n')?;
    let end = text.len();
    if start < end {
        push(&mut spans, Span { start, end })?;
    }
    Ok(spans)
}

/// The words of a line: the pieces between single spaces, empty pieces included.
pub fn words(alloc: Global, line: &[u8]) -> Result<Vec<Span>, Memory>
    ensures value { IfOk result (λ v. v.items ≡ places 0 (words line.now)) }
    ensures slices { IfOk result (λ v. map (λ s. slice_range line.now s.start s.end) v.items ≡ words line.now) }
    ensures within { IfOk result (λ v. All (λ s. (s.start ≤ s.end) × (s.end ≤ length line.now)) v.items) }
    ensures order { IfOk result (λ v. LieInOrder 0 (length line.now) v.items) }
{
    let (mut spans, start) = ended_pieces(alloc, line, b' ')?;
    let end = line.len();
    push(&mut spans, Span { start, end })?;
    Ok(spans)
}
