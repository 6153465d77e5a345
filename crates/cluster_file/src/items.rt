//! The lines of the schedule.
ghost use Rattle.std.specs.Prelude.{◌≡◌, ◌≤◌, ◌+◌, map, IfOk, OnOk};
ghost use Rattle.script_lang.specs.Reading.{Gives};
ghost use Rattle.cluster_file.specs.Items.{known_number, script_of, last_script, last_node, last_number, asked, ask_item, crash_item, fuse_item, kind_of, item_at, event_line, more_events, next_line, item_line};

use crate::drafts::Draft;
use crate::limits::{MAX_CALL, MAX_COUNT, MAX_EVENTS};
use grid_model::Item;
use score_base::{NodeId, TxId};
use script_lang::names::is_taken;
use script_lang::words::{
    NodeCount, end_at, in_range, is_word, node_of, number_at, tx_of, word_at,
};
use script_lang::{LineEnd, Why};
use std::collections::BTreeSet;

/// What an item of one event begins with.
#[derive(Clone, Copy, Debug, PartialEq, Eq)]
pub enum Kind {
    Begin,
    Deliver,
    Drop,
    Retry,
    Ask,
    Crash,
    Fuse,
    Restart,
    Compact,
}

fn known_number(numbers: &BTreeSet<TxId>, t: &TxId) -> Result<(), LineEnd>
    ensures { Gives (λ x. x) result (known_number numbers.now t.now) }
{
    if is_taken(numbers, t) {
        return Ok(());
    }
    Err(LineEnd::Why(Why::Transaction))
}

#[tactic(auto, unfolding(crate::specs::Items::script_of))]
fn script_of(numbers: &BTreeSet<TxId>, word: &[u8]) -> Result<TxId, LineEnd>
    ensures { Gives (λ t. t) result (script_of numbers.now word.now) }
{
    let t = tx_of(word)?;
    known_number(numbers, &t)?;
    Ok(t)
}

#[tactic(auto, unfolding(crate::specs::Items::last_script))]
fn last_script(numbers: &BTreeSet<TxId>, words: &[&[u8]]) -> Result<TxId, LineEnd>
    ensures { Gives (λ t. t) result (last_script numbers.now (map (λ w. w.now) words.now)) }
{
    let (word, rest) = word_at(words)?;
    let t = script_of(numbers, word)?;
    end_at(rest)?;
    Ok(t)
}

#[tactic(auto, unfolding(crate::specs::Items::last_node))]
fn last_node(nodes: NodeCount, words: &[&[u8]]) -> Result<NodeId, LineEnd>
    ensures { Gives (λ n. n) result (last_node nodes (map (λ w. w.now) words.now)) }
{
    let (word, rest) = word_at(words)?;
    let n = node_of(nodes, word)?;
    end_at(rest)?;
    Ok(n)
}

#[tactic(auto, unfolding(crate::specs::Items::last_number))]
fn last_number(low: u64, high: u64, words: &[&[u8]]) -> Result<u64, LineEnd>
    ensures value { Gives (λ m. m) result (last_number low high (map (λ w. w.now) words.now)) }
    ensures most { IfOk result (λ m. m ≤ high) }
{
    let (n, rest) = number_at(words)?;
    let m = in_range(low, high, n)?;
    end_at(rest)?;
    Ok(m)
}

#[tactic(auto, unfolding(crate::specs::Items::asked))]
fn asked(nodes: NodeCount, n: NodeId, t: TxId, words: &[&[u8]]) -> Result<Item, LineEnd>
    ensures { Gives (λ i. i) result (asked nodes n t (map (λ w. w.now) words.now)) }
{
    if words.is_empty() {
        return Ok(Item::Ask(n, t));
    }
    let m = last_node(nodes, words)?;
    Ok(Item::AskPeer(n, t, m))
}

#[tactic(auto, unfolding(crate::specs::Items::ask_item))]
fn ask_item(nodes: NodeCount, numbers: &BTreeSet<TxId>, words: &[&[u8]]) -> Result<Item, LineEnd>
    ensures { Gives (λ i. i) result (ask_item nodes numbers.now (map (λ w. w.now) words.now)) }
{
    let (word, rest) = word_at(words)?;
    let n = node_of(nodes, word)?;
    let (word, rest) = word_at(rest)?;
    let t = script_of(numbers, word)?;
    asked(nodes, n, t, rest)
}

#[tactic(auto, unfolding(crate::specs::Items::crash_item))]
fn crash_item(nodes: NodeCount, words: &[&[u8]]) -> Result<Item, LineEnd>
    ensures { Gives (λ i. i) result (crash_item nodes (map (λ w. w.now) words.now)) }
{
    let (word, rest) = word_at(words)?;
    let n = node_of(nodes, word)?;
    let how = last_number(0, MAX_COUNT, rest)?;
    Ok(Item::Crash(n, how))
}

#[tactic(auto, unfolding(crate::specs::Items::fuse_item))]
fn fuse_item(nodes: NodeCount, words: &[&[u8]]) -> Result<Item, LineEnd>
    ensures { Gives (λ i. i) result (fuse_item nodes (map (λ w. w.now) words.now)) }
{
    let (word, rest) = word_at(words)?;
    let n = node_of(nodes, word)?;
    let (call, rest) = number_at(rest)?;
    let k = in_range(1, MAX_CALL, call)?;
    let how = last_number(0, MAX_COUNT, rest)?;
    Ok(Item::Fuse(n, k, how))
}

fn kind_of(word: &[u8]) -> Result<Kind, LineEnd>
    ensures { Gives (λ k. k) result (kind_of word.now) }
{
    if is_word(word, b"begin") {
        Ok(Kind::Begin)
    } else if is_word(word, b"deliver") {
        Ok(Kind::Deliver)
    } else if is_word(word, b"drop") {
        Ok(Kind::Drop)
    } else if is_word(word, b"retry") {
        Ok(Kind::Retry)
    } else if is_word(word, b"ask") {
        Ok(Kind::Ask)
    } else if is_word(word, b"crash") {
        Ok(Kind::Crash)
    } else if is_word(word, b"fuse") {
        Ok(Kind::Fuse)
    } else if is_word(word, b"restart") {
        Ok(Kind::Restart)
    } else if is_word(word, b"compact") {
        Ok(Kind::Compact)
    } else {
        Err(LineEnd::Why(Why::Word))
    }
}

#[tactic(auto, unfolding(crate::specs::Items::item_at))]
fn item_at(
    kind: Kind,
    nodes: NodeCount,
    numbers: &BTreeSet<TxId>,
    words: &[&[u8]],
) -> Result<Item, LineEnd>
    ensures { Gives (λ i. i) result (item_at kind nodes numbers.now (map (λ w. w.now) words.now)) }
{
    match kind {
        Kind::Begin => Ok(Item::Begin(last_script(numbers, words)?)),
        Kind::Deliver => Ok(Item::Deliver(last_number(1, MAX_COUNT, words)? as u32)),
        Kind::Drop => Ok(Item::Drop(last_number(1, MAX_COUNT, words)? as u32)),
        Kind::Retry => Ok(Item::Retry(last_script(numbers, words)?)),
        Kind::Ask => ask_item(nodes, numbers, words),
        Kind::Crash => crash_item(nodes, words),
        Kind::Fuse => fuse_item(nodes, words),
        Kind::Restart => Ok(Item::Restart(last_node(nodes, words)?)),
        Kind::Compact => Ok(Item::Compact(last_node(nodes, words)?)),
    }
}

#[tactic(auto, unfolding(crate::specs::Items::event_line))]
fn event_line(mut draft: Draft, kind: Kind, words: &[&[u8]]) -> Result<Draft, LineEnd>
    ensures { Gives (λ d. d) result (event_line draft kind (map (λ w. w.now) words.now)) }
{
    if draft.events >= MAX_EVENTS {
        return Err(LineEnd::Why(Why::Limit));
    }
    let item = item_at(kind, draft.nodes, &draft.numbers, words)?;
    draft.items.push(item)?;
    draft.events += 1;
    Ok(draft)
}

fn more_events(events: u64, c: u64) -> Result<(), LineEnd>
    requires { c ≤ MAX_EVENTS }
    ensures value { Gives (λ x. x) result (more_events events c) }
    ensures few { OnOk result (events + c ≤ MAX_EVENTS) }
{
    if events <= MAX_EVENTS - c {
        Ok(())
    } else {
        Err(LineEnd::Why(Why::Limit))
    }
}

#[tactic(auto, unfolding(crate::specs::Items::next_line))]
fn next_line(mut draft: Draft, words: &[&[u8]]) -> Result<Draft, LineEnd>
    ensures { Gives (λ d. d) result (next_line draft (map (λ w. w.now) words.now)) }
{
    let (n, rest) = number_at(words)?;
    let c = in_range(1, MAX_EVENTS, n)?;
    more_events(draft.events, c)?;
    end_at(rest)?;
    draft.items.push(Item::Next(c as u32))?;
    draft.events += c;
    Ok(draft)
}

/// What a line of the schedule adds to what was read before it.
#[tactic(auto, unfolding(crate::specs::Items::item_line))]
pub fn item_line(draft: Draft, word: &[u8], rest: &[&[u8]]) -> Result<Draft, LineEnd>
    ensures { Gives (λ d. d) result (item_line draft word.now (map (λ w. w.now) rest.now)) }
{
    if is_word(word, b"next") {
        return next_line(draft, rest);
    }
    let kind = kind_of(word)?;
    event_line(draft, kind, rest)
}
