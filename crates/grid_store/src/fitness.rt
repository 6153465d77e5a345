//! Whether a record fits those that the store has.

ghost use Rattle.std.specs.Prelude.{◌≡◌, ◌≤◌, ◌&&◌, nat_lt, is_none, is_some};
ghost use Rattle.placement.specs.Places.{is_among, holds};
ghost use Rattle.script_lang.specs.Reads.{is_key_among};
ghost use Rattle.journal_words.specs.Journals.{keys_of_writes, are_own_keys, are_lists, holder, newer, prepared_of, fits_prepared, fits_outcome, undone, is_above};

use crate::store::Store;
use crate::tables::had;
use journal_words::records::{are_own_keys, is_among};
use placement::Cluster;
use score_base::{Ident, Key, NodeId, Outcome, TxId, Value};

/// Whether the key is among those that are written.
fn is_written(key: &Key, writes: &[(Key, Value)]) -> bool
    ensures { result ≡ is_key_among key.now (keys_of_writes writes.now) }
{
    for write in writes {
        if *key == write.0 {
            return true;
        }
    }
    false
}

/// Whether the node holds the key.
fn holds(cluster: &Cluster, node: NodeId, key: &Key) -> bool
    ensures { result ≡ holds cluster.now.places node key.now }
{
    is_among(node, cluster.places.holders(key))
}

/// Whether distinct keys are written that the node holds.
fn are_own_writes(cluster: &Cluster, node: NodeId, writes: &[(Key, Value)]) -> bool
    ensures { result ≡ are_own_keys cluster.now node (keys_of_writes writes.now) }
{
    let mut rest = writes;
    while let [first, more @ ..] = rest {
        if is_written(&first.0, more) || !holds(cluster, node, &first.0) {
            return false;
        }
        rest = more;
    }
    true
}

/// Whether an outcome fits a transaction with this pending proposal.
pub(crate) fn fits_outcome(proposal: Option<Ident>, outcome: &Outcome) -> bool
    ensures { result ≡ fits_outcome proposal outcome.now }
{
    match (proposal, outcome) {
        (Some(p), Outcome::Commit(f)) => p <= *f,
        (Some(_), Outcome::Abort) => true,
        (None, _) => false,
    }
}

impl Store {
    /// Whether t has no Prepared yet, and its proposal is above its snapshot, every proposal and every
    /// final identifier.
    pub(crate) fn is_new(&self, t: TxId, sid: Ident, p: Ident) -> bool
        ensures { result ≡ (is_none (prepared_of t self.now.journal)
            && (nat_lt sid p && is_above p self.now.journal)) }
    {
        had(&self.places, t).is_none() && sid < p && self.is_above(p)
    }

    /// Whether a number, which is not 0, is above every proposal and every final identifier.
    fn is_above(&self, p: Ident) -> bool
        requires { 1 ≤ p }
        ensures { result ≡ is_above p self.now.journal }
    {
        self.highest < p
    }

    /// Whether this node is among the parts, there is a key, and each list has distinct keys of this
    /// node.
    pub fn are_sound(&self, parts: &[NodeId], reads: &[Key], writes: &[(Key, Value)]) -> bool
        ensures { result ≡ (is_among self.now.node parts.now
            && are_lists self.now.cluster self.now.node reads.now writes.now) }
    {
        is_among(self.node, parts)
            && (!reads.is_empty() || !writes.is_empty())
            && are_own_keys(&self.cluster, self.node, reads)
            && are_own_writes(&self.cluster, self.node, writes)
    }

    /// Whether nothing holds these keys, and none of those read is newer.
    pub(crate) fn are_free(
        &self,
        t: TxId,
        sid: Ident,
        reads: &[Key],
        writes: &[(Key, Value)],
    ) -> bool
        ensures { result ≡ (is_none (holder self.now.journal t reads.now writes.now)
            && is_none (newer self.now.journal reads.now sid)) }
    {
        self.holder(reads, writes, t).is_none() && self.newer(reads, sid).is_none()
    }

    /// Whether t has a Decided behind which no Closed of t stands.
    pub(crate) fn is_open(&self, t: TxId) -> bool
        ensures { result ≡ is_some (undone t self.now.journal) }
    {
        had(&self.opened, t).is_some()
    }
}
