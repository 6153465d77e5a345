//! Counts of votes, and what the parts of a transaction are told.

ghost use Rattle.std.specs.Prelude.{◌≡◌, ◌++◌, ◌∷◌, [], IfOk, OnOk};
ghost use Rattle.placement.specs.Places.{others};
ghost use Rattle.grid_model.specs.Stories.{has_voted};
ghost use Rattle.grid_model.specs.Rows.{tells, greatest_vote, have_voted, are_all_among, not_voted, not_among};

use grid_model::{Message, Out, Voted};
use journal_words::records::is_among;
use score_base::{Ident, Memory, NodeId, NodeList, Outcome, TxId, push};
use std::alloc::Global;

/// Whether a yes of the node was taken.
pub(crate) fn has_voted(n: NodeId, votes: &[Voted]) -> bool
    ensures { result ≡ has_voted n votes.now }
{
    votes.iter().any(|vote| vote.from == n)
}

/// Whether a yes of each of these nodes was taken.
pub(crate) fn have_voted(nodes: &[NodeId], votes: &[Voted]) -> bool
    ensures { result ≡ have_voted nodes.now votes.now }
{
    for node in nodes {
        if !has_voted(*node, votes) {
            return false;
        }
    }
    true
}

/// The greatest proposal of these votes, or 0.
pub(crate) fn greatest_vote(votes: &[Voted]) -> Ident
    ensures { result ≡ greatest_vote votes.now }
{
    let mut greatest = Ident(0);
    for vote in votes {
        greatest = greatest.max(vote.p);
    }
    greatest
}

/// The nodes but for one.
pub(crate) fn others(alloc: Global, but: NodeId, nodes: &[NodeId]) -> Result<NodeList, Memory>
    ensures { IfOk result (λ ns. ns ≡ others but nodes.now) }
{
    let mut rest = NodeList::new(alloc);
    for node in nodes {
        if *node != but {
            rest.push(*node)?;
        }
    }
    Ok(rest)
}

/// Adds a message to each of these nodes that says how `t` ended.
pub(crate) fn push_tells(
    outs: &mut Vec<Out>,
    t: TxId,
    outcome: &Outcome,
    nodes: &[NodeId],
) -> Result<(), Memory>
    ensures { OnOk result (outs.new.items ≡ outs.old.items ++ tells t outcome.now nodes.now) }
{
    for node in nodes {
        let outcome = *outcome;
        push(outs, Out::Send(*node, Message::Tell { t, outcome }))?;
    }
    Ok(())
}

/// Whether each of these nodes is among those.
pub(crate) fn are_all_among(nodes: &[NodeId], among: &[NodeId]) -> bool
    ensures { result ≡ are_all_among nodes.now among.now }
{
    for node in nodes {
        if !is_among(*node, among) {
            return false;
        }
    }
    true
}

/// Those of the nodes of which no yes was taken.
pub(crate) fn not_voted(
    alloc: Global,
    nodes: &[NodeId],
    votes: &[Voted],
) -> Result<NodeList, Memory>
    ensures { IfOk result (λ ns. ns ≡ not_voted nodes.now votes.now) }
{
    let mut missing = NodeList::new(alloc);
    for node in nodes {
        if !has_voted(*node, votes) {
            missing.push(*node)?;
        }
    }
    Ok(missing)
}

/// Those of the nodes that are not among the others.
pub(crate) fn not_among(
    alloc: Global,
    nodes: &[NodeId],
    among: &[NodeId],
) -> Result<NodeList, Memory>
    ensures { IfOk result (λ ns. ns ≡ not_among nodes.now among.now) }
{
    let mut missing = NodeList::new(alloc);
    for node in nodes {
        if !is_among(*node, among) {
            missing.push(*node)?;
        }
    }
    Ok(missing)
}
