//! Which records fit those before them.
ghost use Rattle.std.specs.Prelude.{◌≡◌, ◌&&◌, ◌∷◌, List, reverse, is_none, IfOk};
ghost use Rattle.std.specs.List.{list_all};
ghost use Rattle.placement.specs.Places.{is_among, holds};
ghost use Rattle.score_base.specs.declared.records.Record.{Record};
ghost use Rattle.journal_words.specs.Journals.{is_above, are_distinct_keys, are_own_keys, are_lists, holder, newer, fits_prepared, fits_outcome, fits};

use super::conflicts::{holder, is_key_among, keys_in, newer};
use super::decisions::undone;
use super::endings::{floor, pending};
use super::proposals::{Prepared, prepared_of};
use placement::Cluster;
use score_base::{Ident, Key, Memory, NodeId, Outcome, Record, TxId, Value};
use std::alloc::Global;

/// Whether the proposal is above all numbers behind one more record.
fn is_above_behind(rec: &Record, p: Ident, before: bool) -> bool
    ensures { (r : List Record) → before ≡ is_above p r → result ≡ is_above p (rec.now ∷ r) }
{
    match rec {
        Record::Prepared { p: q, .. } => *q < p && before,
        Record::Ended {
            outcome: Outcome::Commit(f),
            ..
        } => *f < p && before,
        _ => before,
    }
}

/// Whether the proposal is above every proposal and every final identifier.
#[tactic(auto, using(crate::proofs::Newest::newest_more))]
fn is_above(records: &[Record], p: Ident) -> bool
    ensures { result ≡ is_above p (reverse records.now) }
{
    let mut above = true;
    for rec in records {
        above = is_above_behind(rec, p, above);
    }
    above
}

/// Whether no key stands twice.
fn are_distinct_keys(keys: &[Key]) -> bool
    ensures { result ≡ are_distinct_keys keys.now }
{
    let mut rest = keys;
    while let [first, more @ ..] = rest {
        if is_key_among(first, more) {
            return false;
        }
        rest = more;
    }
    true
}

/// Whether the node is among these.
pub fn is_among(node: NodeId, nodes: &[NodeId]) -> bool
    ensures { result ≡ is_among node nodes.now }
{
    nodes.iter().any(|other| *other == node)
}

/// Whether the node holds the key.
fn holds(cluster: &Cluster, node: NodeId, key: &Key) -> bool
    ensures { result ≡ holds cluster.now.places node key.now }
{
    is_among(node, cluster.places.holders(key))
}

/// Whether the node holds all of these.
fn holds_all(cluster: &Cluster, node: NodeId, keys: &[Key]) -> bool
    ensures { result ≡ list_all (holds cluster.now.places node) keys.now }
{
    for key in keys {
        if !holds(cluster, node, key) {
            return false;
        }
    }
    true
}

/// Whether these are distinct keys that the node holds.
pub fn are_own_keys(cluster: &Cluster, node: NodeId, keys: &[Key]) -> bool
    ensures { result ≡ are_own_keys cluster.now node keys.now }
{
    are_distinct_keys(keys) && holds_all(cluster, node, keys)
}

/// Whether there is a key, and each list has distinct keys that the node holds.
fn are_lists(
    alloc: Global,
    cluster: &Cluster,
    node: NodeId,
    reads: &[Key],
    writes: &[(Key, Value)],
) -> Result<bool, Memory>
    ensures { IfOk result (λ sound. sound ≡ are_lists cluster.now node reads.now writes.now) }
{
    let written = keys_in(alloc, writes)?;
    Ok(
        (!reads.is_empty() || !writes.is_empty())
            && are_own_keys(cluster, node, reads)
            && are_own_keys(cluster, node, written.as_slice()),
    )
}

/// Whether nothing holds these keys and none of those read is newer.
fn are_free(
    alloc: Global,
    before: &[Record],
    t: TxId,
    sid: Ident,
    reads: &[Key],
    writes: &[(Key, Value)],
) -> Result<bool, Memory>
    ensures { IfOk result (λ free. free ≡ (is_none (holder (reverse before.now) t reads.now writes.now)
        && is_none (newer (reverse before.now) reads.now sid))) }
{
    Ok(
        holder(alloc, before, t, reads, writes)?.is_none()
            && newer(alloc, before, reads, sid)?.is_none(),
    )
}

/// Whether a Prepared record of t, with these parts, fits the records before it.
fn fits_prepared(
    alloc: Global,
    cluster: &Cluster,
    me: NodeId,
    before: &[Record],
    t: TxId,
    parts: &[NodeId],
    said: &Prepared,
) -> Result<bool, Memory>
    ensures { IfOk result (λ fit. fit ≡ fits_prepared cluster.now me (reverse before.now) t parts.now said.now.sid
        said.now.proposal said.now.reads said.now.writes) }
{
    let is_new = prepared_of(before, t).is_none()
        && said.sid < said.proposal
        && is_above(before, said.proposal);
    let is_sound = is_among(me, parts) && are_lists(alloc, cluster, me, said.reads, said.writes)?;
    Ok(is_new && is_sound && are_free(alloc, before, t, said.sid, said.reads, said.writes)?)
}

/// Whether an outcome fits a transaction with this pending proposal.
fn fits_outcome(proposal: Option<Ident>, outcome: &Outcome) -> bool
    ensures { result ≡ fits_outcome proposal outcome.now }
{
    match (proposal, outcome) {
        (Some(p), Outcome::Commit(f)) => p <= *f,
        (Some(_), Outcome::Abort) => true,
        (None, _) => false,
    }
}

/// Whether a record of the node `me` fits those before it.
pub fn fits(
    alloc: Global,
    cluster: &Cluster,
    me: NodeId,
    before: &[Record],
    rec: &Record,
) -> Result<bool, Memory>
    ensures { IfOk result (λ fit. fit ≡ fits cluster.now me (reverse before.now) rec.now) }
{
    match rec {
        Record::Prepared {
            t,
            home,
            parts,
            sid,
            p,
            reads,
            writes,
        } => {
            let said = Prepared {
                home: *home,
                sid: *sid,
                proposal: *p,
                reads: reads.as_slice(),
                writes: writes.as_slice(),
            };
            fits_prepared(alloc, cluster, me, before, *t, parts.as_slice(), &said)
        }
        Record::Ended { t, outcome } => Ok(fits_outcome(pending(before, *t), outcome)),
        Record::Ceiling { c } => Ok(c.0 % 64 == 0 && floor(before) < *c),
        Record::Decided { t, f, .. } => Ok(undone(before, *t).is_none() && f.0 >= 1),
        Record::Closed { t } => Ok(undone(before, *t).is_some()),
    }
}
