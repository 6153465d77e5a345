//! Marks on numbers.
ghost use Rattle.std.specs.Prelude.{◌≡◌, ◌<◌, ◌==◌, ◌||◌, ℕ, OnOk, length};
ghost use Rattle.run_state.specs.Kept.{is_marked};

use score_base::{Memory, push};

/// Whether a number is marked.
pub fn is_marked(marks: &[bool], m: u32) -> bool
    ensures { result ≡ is_marked marks.now m }
{
    match marks.get(m as usize) {
        None => false,
        Some(mark) => *mark,
    }
}

#[tactic(auto, using(crate::proofs::Marked::marked_more))]
/// Makes room for a number, which marks none.
fn reach(marks: &mut Vec<bool>, m: u32) -> Result<(), Memory>
    ensures inside { OnOk result (m < length marks.new.items) }
    ensures same { OnOk result ((k : ℕ) → is_marked marks.new.items k ≡ is_marked marks.old.items k) }
{
    for place in marks.len()..m as usize + 1 {
        push(marks, false)?;
    }
    Ok(())
}

#[tactic(auto, using(crate::proofs::Marked::marked_set))]
/// Marks a number.
pub fn mark(marks: &mut Vec<bool>, m: u32) -> Result<(), Memory>
    ensures { OnOk result ((k : ℕ) → is_marked marks.new.items k ≡ ((m == k) || is_marked marks.old.items k)) }
{
    let place = m as usize;
    reach(marks, m)?;
    marks[place] = true;
    Ok(())
}
