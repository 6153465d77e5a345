//! A script, read from the lines of a text of its own.
ghost use Rattle.std.specs.Prelude.{◌≡◌, ◌≤◌, map};
ghost use Rattle.script_lang.specs.Reading.{Gives};
ghost use Rattle.script_lang.specs.Whys.{number_of};
ghost use Rattle.script_lang.specs.ScriptLines.{begin_line, stage_line, text_line, words_line, line_of, at_line, ended, whole, close, unread, lines_from, script_within, script_of_text, GivesScript};

use crate::limits::{MAX_NODES, MAX_OPS};
use crate::script_lines::{Stage, body_line, first_line};
use crate::scripts::Script;
use crate::whys::{At, LineEnd, ScriptEnd, Why};
use crate::words::{NodeCount, are_printed, is_word, pieces};
use score_base::Key;
use std::alloc::Global;
use std::collections::BTreeSet;

/// What was read of a text.
#[derive(Drop)]
pub struct TextDraft {
    /// The script, from its first line on.
    pub stage: Option<Stage>,
    /// The keys that its operations name.
    pub named: BTreeSet<Key>,
}

#[tactic(auto, unfolding(crate::specs::ScriptLines::begin_line))]
fn begin_line(
    alloc: Global,
    nodes: NodeCount,
    named: &BTreeSet<Key>,
    word: &[u8],
    rest: &[&[u8]],
) -> Result<Stage, LineEnd>
    ensures { Gives (λ s. (s, named.now)) result (begin_line nodes named.now word.now (map (λ w. w.now) rest.now)) }
{
    if !is_word(word, b"tx") {
        return Err(LineEnd::Why(Why::Word));
    }
    let numbers = BTreeSet::new(alloc);
    let draft = first_line(alloc, nodes, &numbers, rest)?;
    Ok(Stage::Open(draft))
}

fn stage_line(
    alloc: Global,
    stage: Stage,
    named: &mut BTreeSet<Key>,
    word: &[u8],
    rest: &[&[u8]],
) -> Result<Stage, LineEnd>
    ensures { Gives (λ s. (s, named.new)) result (stage_line MAX_OPS stage named.old word.now (map (λ w. w.now) rest.now)) }
{
    match stage {
        Stage::Open(draft) => body_line(alloc, MAX_OPS, named, draft, word, rest),
        Stage::Done(_) => Err(LineEnd::Why(Why::Word)),
    }
}

fn text_line(
    alloc: Global,
    nodes: NodeCount,
    stage: Option<Stage>,
    named: &mut BTreeSet<Key>,
    word: &[u8],
    rest: &[&[u8]],
) -> Result<Stage, LineEnd>
    ensures { Gives (λ s. (s, named.new)) result
        (text_line MAX_OPS nodes stage named.old word.now (map (λ w. w.now) rest.now)) }
{
    match stage {
        Some(stage) => stage_line(alloc, stage, named, word, rest),
        None => begin_line(alloc, nodes, named, word, rest),
    }
}

#[tactic(auto, unfolding(crate::specs::ScriptLines::words_line))]
fn words_line(
    alloc: Global,
    nodes: NodeCount,
    draft: TextDraft,
    words: &[&[u8]],
) -> Result<TextDraft, LineEnd>
    ensures { Gives (λ d. d) result (words_line MAX_OPS nodes draft (map (λ w. w.now) words.now)) }
{
    let [word, rest @ ..] = words else {
        return Err(LineEnd::Why(Why::Word));
    };
    let TextDraft { stage, named } = draft;
    let mut named = named;
    let next = text_line(alloc, nodes, stage, &mut named, word, rest)?;
    Ok(TextDraft {
        stage: Some(next),
        named,
    })
}

#[tactic(auto, unfolding(crate::specs::ScriptLines::line_of))]
fn line_of(
    alloc: Global,
    nodes: NodeCount,
    draft: TextDraft,
    line: &[u8],
) -> Result<TextDraft, LineEnd>
    ensures { Gives (λ d. d) result (line_of MAX_OPS nodes draft line.now) }
{
    if !are_printed(line) {
        return Err(LineEnd::Why(Why::Byte));
    }
    let words = pieces(alloc, line, b' ')?;
    words_line(alloc, nodes, draft, words.as_slice())
}

/// The fault of the line of this number.
fn bad(n: usize, why: Why) -> ScriptEnd
    ensures { result ≡ ScriptEnd.Bad (record { line = n; why = number_of why }) }
{
    ScriptEnd::Bad(At {
        line: n,
        why: why.number(),
    })
}

fn line_at(
    alloc: Global,
    nodes: NodeCount,
    draft: TextDraft,
    n: usize,
    line: &[u8],
) -> Result<TextDraft, ScriptEnd>
    ensures { GivesScript result (at_line n (line_of MAX_OPS nodes draft line.now)) }
{
    match line_of(alloc, nodes, draft, line) {
        Ok(next) => Ok(next),
        Err(LineEnd::Memory) => Err(ScriptEnd::Memory),
        Err(LineEnd::Why(why)) => Err(bad(n, why)),
    }
}

fn ended(stage: Stage, n: usize) -> Result<Script, ScriptEnd>
    ensures { GivesScript result (at_line n (ended stage)) }
{
    match stage {
        Stage::Done(script) => Ok(script),
        Stage::Open(_) => Err(bad(n, Why::Missing)),
    }
}

fn whole(stage: Option<Stage>, n: usize) -> Result<Script, ScriptEnd>
    ensures { GivesScript result (at_line n (whole stage)) }
{
    match stage {
        Some(stage) => ended(stage, n),
        None => Err(bad(n, Why::Missing)),
    }
}

fn close(draft: TextDraft, n: usize, tail: &[u8]) -> Result<Script, ScriptEnd>
    ensures { GivesScript result (at_line n (close draft tail.now)) }
{
    if !tail.is_empty() {
        return Err(bad(n, Why::Missing));
    }
    whole(draft.stage, n)
}

#[tactic(auto, unfolding(crate::specs::ScriptLines::lines_from))]
fn read_pieces(alloc: Global, nodes: NodeCount, pieces: &[&[u8]]) -> Result<Script, ScriptEnd>
    ensures { GivesScript result (lines_from MAX_OPS nodes unread 1 (map (λ w. w.now) pieces.now)) }
{
    let mut draft = TextDraft {
        stage: None,
        named: BTreeSet::new(alloc),
    };
    let mut n = 1;
    let mut lines = pieces;
    while let [line, rest @ ..] = lines {
        if rest.is_empty() {
            return close(draft, n, line);
        }
        draft = line_at(alloc, nodes, draft, n, line)?;
        n += 1;
        lines = rest;
    }
    Err(bad(n, Why::Missing))
}

/// The script that a text spells, in a cluster of so many nodes: the lines from `tx` to `end`. `Bad`
/// exactly where it spells none, with the first line at fault and why.
#[tactic(auto, unfolding(crate::specs::ScriptLines::script_within))]
pub fn read_script(alloc: Global, text: &[u8], nodes: u8) -> Result<Script, ScriptEnd>
    requires { nodes ≤ MAX_NODES }
    ensures { GivesScript result (script_of_text nodes text.now) }
{
    let Ok(pieces) = pieces(alloc, text, b'\n') else {
        return Err(ScriptEnd::Memory);
    };
    read_pieces(alloc, NodeCount::new(nodes as u64), pieces.as_slice())
}
