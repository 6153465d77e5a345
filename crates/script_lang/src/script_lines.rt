//! The lines of a script, as each reader of scripts meets them.
ghost use Rattle.std.specs.Prelude.{◌≡◌, map};
ghost use Rattle.script_lang.specs.Reading.{Gives};
ghost use Rattle.script_lang.specs.ScriptLines.{session_number, session_of, first_line};
ghost use Rattle.script_lang.specs.ScriptLines.{read_line, write_line, end_line, body_line};

use crate::expr_words::read_expr;
use crate::limits::{MAX_OPS, MAX_SESSION};
use crate::names::{name_key, new_number};
use crate::scripts::{Script, ScriptDraft};
use crate::whys::{LineEnd, Why};
use crate::words::{
    NodeCount, end_at, in_range, is_word, key_of, node_of, number_at, tx_of, word_at,
};
use score_base::{Key, TxId};
use std::alloc::Global;
use std::collections::BTreeSet;

/// How far the lines of a script were read.
#[derive(Drop)]
pub enum Stage {
    /// The first line, and some operations.
    Open(ScriptDraft),
    /// All of them.
    Done(Script),
}

/// The number of a session, from 1 to 65,535, and no word behind it; why 10, 2, 9 or 1.
#[tactic(auto, unfolding(crate::specs::ScriptLines::session_number))]
fn session_number(words: &[&[u8]]) -> Result<u16, LineEnd>
    ensures { Gives (λ s. s) result (session_number (map (λ w. w.now) words.now)) }
{
    let (n, rest) = number_at(words)?;
    let session = in_range(1, MAX_SESSION as u64, n)?;
    end_at(rest)?;
    Ok(session as u16)
}

/// The session that the words name, from `session` on, or 0 where no word is left.
fn session_of(words: &[&[u8]]) -> Result<u16, LineEnd>
    ensures { Gives (λ s. s) result (session_of (map (λ w. w.now) words.now)) }
{
    match words {
        [] => Ok(0),
        [word, rest @ ..] => {
            if is_word(word, b"session") {
                session_number(rest)
            } else {
                Err(LineEnd::Why(Why::Word))
            }
        }
    }
}

/// The first line, behind its word `tx`: a number that no other script has, the home, and the session.
#[tactic(auto, unfolding(crate::specs::ScriptLines::first_line))]
pub fn first_line(
    alloc: Global,
    nodes: NodeCount,
    numbers: &BTreeSet<TxId>,
    words: &[&[u8]],
) -> Result<ScriptDraft, LineEnd>
    ensures { Gives (λ s. s) result (first_line nodes numbers.now (map (λ w. w.now) words.now)) }
{
    let (word, rest) = word_at(words)?;
    let number = tx_of(word)?;
    new_number(numbers, &number)?;
    let (word, rest) = word_at(rest)?;
    let home = node_of(nodes, word)?;
    let session = session_of(rest)?;
    Ok(ScriptDraft::new(alloc, number, home, session))
}

#[tactic(auto, unfolding(crate::specs::ScriptLines::read_line))]
fn read_line(
    most: usize,
    named: &mut BTreeSet<Key>,
    mut draft: ScriptDraft,
    words: &[&[u8]],
) -> Result<Stage, LineEnd>
    ensures { Gives (λ s. (s, named.new)) result (read_line most named.old draft (map (λ w. w.now) words.now)) }
{
    if draft.len() >= MAX_OPS {
        return Err(LineEnd::Why(Why::Limit));
    }
    let (word, rest) = word_at(words)?;
    let key = key_of(word)?;
    name_key(named, most, key)?;
    end_at(rest)?;
    draft.push_read(key)?;
    Ok(Stage::Open(draft))
}

#[tactic(auto, unfolding(crate::specs::ScriptLines::write_line))]
fn write_line(
    alloc: Global,
    most: usize,
    named: &mut BTreeSet<Key>,
    mut draft: ScriptDraft,
    words: &[&[u8]],
) -> Result<Stage, LineEnd>
    ensures { Gives (λ s. (s, named.new)) result (write_line most named.old draft (map (λ w. w.now) words.now)) }
{
    if draft.len() >= MAX_OPS {
        return Err(LineEnd::Why(Why::Limit));
    }
    let (word, rest) = word_at(words)?;
    let key = key_of(word)?;
    name_key(named, most, key)?;
    let expr = read_expr(alloc, draft.ops(), rest)?;
    draft.push_write(key, expr)?;
    Ok(Stage::Open(draft))
}

#[tactic(auto, unfolding(crate::specs::ScriptLines::end_line))]
fn end_line(named: &BTreeSet<Key>, draft: ScriptDraft, words: &[&[u8]]) -> Result<Stage, LineEnd>
    ensures { Gives (λ s. (s, named.now)) result (end_line named.now draft (map (λ w. w.now) words.now)) }
{
    if draft.len() == 0 {
        return Err(LineEnd::Why(Why::Missing));
    }
    end_at(words)?;
    Ok(Stage::Done(draft.finish()))
}

/// A line behind the first, by its first word: what it makes of the script. The key that it names is
/// put among those named so far, which are at most so many.
pub fn body_line(
    alloc: Global,
    most: usize,
    named: &mut BTreeSet<Key>,
    draft: ScriptDraft,
    word: &[u8],
    rest: &[&[u8]],
) -> Result<Stage, LineEnd>
    ensures { Gives (λ s. (s, named.new)) result (body_line most named.old draft word.now (map (λ w. w.now) rest.now)) }
{
    if is_word(word, b"read") {
        read_line(most, named, draft, rest)
    } else if is_word(word, b"write") {
        write_line(alloc, most, named, draft, rest)
    } else if is_word(word, b"end") {
        end_line(named, draft, rest)
    } else {
        Err(LineEnd::Why(Why::Word))
    }
}
