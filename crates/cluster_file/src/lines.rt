ghost use Rattle.std.specs.Prelude.{◌≡◌, ◌≤◌, ◌==◌, ◌+◌, [], map, OnOk};
ghost use Rattle.std.specs.List.{list_any};
ghost use Rattle.script_lang.specs.Reading.{Gives, steps};
ghost use Rattle.cluster_file.specs.Lines.{name_new_key, nodes_line, new_node, node_step, is_next, partition_line, init_line, tx_line, with_stage, script_line, schedule_line, later_line, init_or_later, part_line, words_line, line_of};
ghost use Rattle.script_lang.specs.Words.{is_printed};

use crate::drafts::{Draft, Part};
use crate::items::item_line;
use crate::limits::{MAX_KEYS, MAX_PARTITIONS, MAX_SCRIPTS};
use score_base::{Key, NodeId, NodeList, Value};
use script_lang::limits::MAX_NODES;
use script_lang::names::{has_name, name_key, put_number};
use script_lang::script_lines::{Stage, body_line, first_line};
use script_lang::words::{
    NodeCount, are_printed, end_at, in_range, is_word, key_of, node_of, number_at, pieces, word_at,
};
use script_lang::{LineEnd, ScriptDraft, Why};
use std::alloc::Global;
use std::collections::BTreeSet;

fn name_new_key(known: &mut BTreeSet<Key>, key: Key) -> Result<(), LineEnd>
    ensures { Gives (λ _. known.new) result (name_new_key known.old key) }
{
    if has_name(known, &key) {
        return Err(LineEnd::Why(Why::Repeat));
    }
    name_key(known, MAX_KEYS, key)
}

#[tactic(auto, unfolding(crate::specs::Lines::nodes_line))]
fn nodes_line(draft: Draft, words: &[&[u8]]) -> Result<Draft, LineEnd>
    ensures { Gives (λ d. d) result (nodes_line draft (map (λ w. w.now) words.now)) }
{
    let (n, rest) = number_at(words)?;
    let count = in_range(1, MAX_NODES as u64, n)?;
    end_at(rest)?;
    Ok(Draft {
        nodes: NodeCount::new(count),
        part: Part::Nodes,
        ..draft
    })
}

fn has_node(nodes: &[NodeId], node: NodeId) -> bool
    ensures { result ≡ list_any (λ m. m == node) nodes.now }
{
    nodes.iter().any(|m| *m == node)
}

fn new_node(nodes: &[NodeId], node: NodeId) -> Result<(), LineEnd>
    ensures { Gives (λ x. x) result (new_node nodes.now node) }
{
    if has_node(nodes, node) {
        return Err(LineEnd::Why(Why::Repeat));
    }
    Ok(())
}

#[tactic(auto, unfolding(crate::specs::Lines::node_step))]
fn node_step(count: NodeCount, mut nodes: NodeList, word: &[u8]) -> Result<NodeList, LineEnd>
    ensures { Gives (λ ns. ns) result (node_step count nodes word.now) }
{
    let node = node_of(count, word)?;
    new_node(nodes.as_slice(), node)?;
    nodes.push(node)?;
    Ok(nodes)
}

#[tactic(auto, unfolding(script_lang::specs::Reading::steps))]
fn nodes_at(alloc: Global, count: NodeCount, words: &[&[u8]]) -> Result<NodeList, LineEnd>
    ensures { Gives (λ ns. ns) result (steps (node_step count) [] (map (λ w. w.now) words.now)) }
{
    let mut nodes = NodeList::new(alloc);
    for word in words {
        nodes = node_step(count, nodes, word)?;
    }
    Ok(nodes)
}

fn is_next(next: usize, i: u64, words: &[&[u8]]) -> Result<(), LineEnd>
    ensures { Gives (λ x. x) result (is_next next i (map (λ w. w.now) words.now)) }
{
    if i != next as u64 {
        return Err(LineEnd::Why(Why::Partition));
    }
    if words.is_empty() {
        return Err(LineEnd::Why(Why::Missing));
    }
    Ok(())
}

#[tactic(auto, unfolding(crate::specs::Lines::partition_line))]
fn partition_line(alloc: Global, mut draft: Draft, words: &[&[u8]]) -> Result<Draft, LineEnd>
    ensures { Gives (λ d. d) result (partition_line draft (map (λ w. w.now) words.now)) }
{
    if draft.places.len() >= MAX_PARTITIONS {
        return Err(LineEnd::Why(Why::Limit));
    }
    let (i, rest) = number_at(words)?;
    is_next(draft.places.len(), i, rest)?;
    let nodes = nodes_at(alloc, draft.nodes, rest)?;
    draft.places.push(nodes)?;
    draft.part = Part::Partitions;
    Ok(draft)
}

#[tactic(auto, unfolding(crate::specs::Lines::init_line))]
fn init_line(mut draft: Draft, words: &[&[u8]]) -> Result<Draft, LineEnd>
    ensures { Gives (λ d. d) result (init_line draft (map (λ w. w.now) words.now)) }
{
    let (word, rest) = word_at(words)?;
    let key = key_of(word)?;
    name_new_key(&mut draft.known, key)?;
    let (value, rest) = number_at(rest)?;
    end_at(rest)?;
    draft.inits.push((key, Value(value)))?;
    draft.part = Part::Inits;
    Ok(draft)
}

#[tactic(auto, unfolding(crate::specs::Lines::tx_line))]
fn tx_line(alloc: Global, mut draft: Draft, words: &[&[u8]]) -> Result<Draft, LineEnd>
    ensures { Gives (λ d. d) result (tx_line draft (map (λ w. w.now) words.now)) }
{
    if draft.scripts.len() >= MAX_SCRIPTS {
        return Err(LineEnd::Why(Why::Limit));
    }
    let script = first_line(alloc, draft.nodes, &draft.numbers, words)?;
    put_number(&mut draft.numbers, script.number())?;
    draft.script = Some(script);
    draft.part = Part::Scripts;
    Ok(draft)
}

/// The draft with what a line made of the script that it stands in.
fn with_stage(mut draft: Draft, stage: Stage) -> Result<Draft, LineEnd>
    ensures { Gives (λ d. d) result (Ok (with_stage draft stage)) }
{
    match stage {
        Stage::Open(script) => draft.script = Some(script),
        Stage::Done(script) => {
            draft.scripts.push(script)?;
            draft.script = None;
        }
    }
    Ok(draft)
}

#[tactic(auto, unfolding(crate::specs::Lines::script_line))]
fn script_line(
    alloc: Global,
    mut draft: Draft,
    script: ScriptDraft,
    word: &[u8],
    rest: &[&[u8]],
) -> Result<Draft, LineEnd>
    ensures { Gives (λ d. d) result (script_line draft script word.now (map (λ w. w.now) rest.now)) }
{
    let stage = body_line(alloc, MAX_KEYS, &mut draft.known, script, word, rest)?;
    with_stage(draft, stage)
}

#[tactic(auto, unfolding(crate::specs::Lines::schedule_line))]
fn schedule_line(draft: Draft, words: &[&[u8]]) -> Result<Draft, LineEnd>
    ensures { Gives (λ d. d) result (schedule_line draft (map (λ w. w.now) words.now)) }
{
    end_at(words)?;
    Ok(Draft {
        part: Part::Items,
        ..draft
    })
}

fn later_line(alloc: Global, draft: Draft, word: &[u8], rest: &[&[u8]]) -> Result<Draft, LineEnd>
    ensures { Gives (λ d. d) result (later_line draft word.now (map (λ w. w.now) rest.now)) }
{
    if is_word(word, b"tx") {
        tx_line(alloc, draft, rest)
    } else if is_word(word, b"schedule") {
        schedule_line(draft, rest)
    } else {
        Err(LineEnd::Why(Why::Word))
    }
}

fn init_or_later(alloc: Global, draft: Draft, word: &[u8], rest: &[&[u8]]) -> Result<Draft, LineEnd>
    ensures { Gives (λ d. d) result (init_or_later draft word.now (map (λ w. w.now) rest.now)) }
{
    if is_word(word, b"init") {
        init_line(draft, rest)
    } else {
        later_line(alloc, draft, word, rest)
    }
}

fn part_line(alloc: Global, draft: Draft, word: &[u8], rest: &[&[u8]]) -> Result<Draft, LineEnd>
    ensures { Gives (λ d. d) result (part_line draft.part draft word.now (map (λ w. w.now) rest.now)) }
{
    match draft.part {
        Part::Start => {
            if is_word(word, b"nodes") {
                nodes_line(draft, rest)
            } else {
                Err(LineEnd::Why(Why::Word))
            }
        }
        Part::Nodes => {
            if is_word(word, b"partition") {
                partition_line(alloc, draft, rest)
            } else {
                Err(LineEnd::Why(Why::Word))
            }
        }
        Part::Partitions => {
            if is_word(word, b"partition") {
                partition_line(alloc, draft, rest)
            } else {
                init_or_later(alloc, draft, word, rest)
            }
        }
        Part::Inits => init_or_later(alloc, draft, word, rest),
        Part::Scripts => later_line(alloc, draft, word, rest),
        Part::Items => item_line(draft, word, rest),
    }
}

fn words_line(alloc: Global, mut draft: Draft, words: &[&[u8]]) -> Result<Draft, LineEnd>
    ensures { Gives (λ d. d) result (words_line draft (map (λ w. w.now) words.now)) }
{
    let [word, rest @ ..] = words else {
        return Err(LineEnd::Why(Why::Word));
    };
    match draft.script.take() {
        Some(script) => script_line(alloc, draft, script, word, rest),
        None => part_line(alloc, draft, word, rest),
    }
}

/// What a line adds to what was read before it.
#[tactic(auto, unfolding(crate::specs::Lines::line_of))]
pub fn line_of(alloc: Global, draft: Draft, line: &[u8]) -> Result<Draft, LineEnd>
    ensures { Gives (λ d. d) result (line_of draft line.now) }
{
    if !are_printed(line) {
        return Err(LineEnd::Why(Why::Byte));
    }
    let words = pieces(alloc, line, b' ')?;
    words_line(alloc, draft, words.as_slice())
}
