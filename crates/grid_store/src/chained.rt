//! The chains of the keys: room for what a record writes, the chains that begin with it, and what a commit
//! puts.

ghost use Rattle.std.specs.Prelude.{◌≡◌, ◌≤◌, ◌||◌, true, Some, is_some, reverse, OnOk};
ghost use Rattle.score_base.specs.declared.keys.Key.{Key};
ghost use Rattle.score_base.specs.declared.ids.Value.{Value};
ghost use Rattle.placement.specs.Clusters.{init};
ghost use Rattle.script_lang.specs.Reads.{is_key_among};
ghost use Rattle.version_chain.specs.Kept.{place_of, versions_of, spare_of, StartsBy};
ghost use Rattle.journal_words.specs.Journals.{prepared_of, written_value, keys_of_writes};
ghost use Rattle.grid_store.specs.Given.{has_room_for, new_keys, writes_of};
ghost use Rattle.grid_store.specs.Keeping.{said_by, KeepsPlaces};
ghost use Rattle.grid_store.specs.Chained.{writes_in, versions_room, HasPlaceRoom, HasWriteRoom, IsWider, CanPutAll, IsPut};

use crate::tables::had;
use placement::Cluster;
use score_base::{Ident, Key, Memory, Ordered, Record, TxId, Value};
use version_chain::Chains;

/// Makes room for a version of each of these keys that has a chain.
fn lengthen_all(chains: &mut Chains, writes: &[(Key, Value)]) -> Result<(), Memory>
    ensures room { OnOk result ((k : Key) (v : Value) →
        written_value k writes.now ≡ Some v → HasPlaceRoom k chains.new) }
    ensures wider { IsWider chains.old chains.new }
    ensures places { chains.new.places ≡ chains.old.places }
    ensures initial { (init : Key → Value) → StartsBy init chains.old → StartsBy init chains.new }
{
    for write in writes {
        chains.reserve(&write.0)?;
    }
    Ok(())
}

/// Makes room for a version of each of these keys that has a chain, and for a chain of each other.
fn widen_all(chains: &mut Chains, writes: &[(Key, Value)]) -> Result<(), Memory>
    ensures room { OnOk result (has_room_for writes.now (versions_room chains.new) ≡ true) }
    ensures fresh { OnOk result (new_keys writes.now (versions_room chains.new) ≤ chains.new.fresh) }
    ensures wider { IsWider chains.old chains.new }
    ensures places { chains.new.places ≡ chains.old.places }
    ensures initial { (init : Key → Value) → StartsBy init chains.old → StartsBy init chains.new }
{
    lengthen_all(chains, writes)?;
    chains.widen(writes.len())
}

/// Makes room for what a record writes.
pub(crate) fn widen(chains: &mut Chains, rec: &Record) -> Result<(), Memory>
    ensures room { OnOk result (has_room_for (writes_of rec.now) (versions_room chains.new) ≡ true) }
    ensures fresh { OnOk result (new_keys (writes_of rec.now) (versions_room chains.new) ≤ chains.new.fresh) }
    ensures wider { IsWider chains.old chains.new }
    ensures places { chains.new.places ≡ chains.old.places }
    ensures initial { (init : Key → Value) → StartsBy init chains.old → StartsBy init chains.new }
{
    match rec {
        Record::Prepared { writes, .. } => widen_all(chains, writes.as_slice()),
        _ => Ok(()),
    }
}

/// Each of these keys has a chain, with room for a version.
fn begin_all(chains: &mut Chains, cluster: &Cluster, writes: &[(Key, Value)])
    requires fresh { new_keys writes.now (versions_room chains.old) ≤ chains.old.fresh }
    requires room { has_room_for writes.now (versions_room chains.old) ≡ true }
    ensures room { (k : Key) (v : Value) → written_value k writes.now ≡ Some v → 1 ≤ spare_of k chains.new }
    ensures wider { IsWider chains.old chains.new }
    ensures keys { (k : Key) → is_some (place_of k chains.new.places)
        ≡ (is_key_among k (keys_of_writes writes.now) || is_some (place_of k chains.old.places)) }
    ensures initial { StartsBy (init cluster.now) chains.old → StartsBy (init cluster.now) chains.new }
{
    for write in writes {
        chains.begin(&write.0, cluster.init(&write.0));
    }
}

/// Each key that a record writes has a chain, with room for a version.
pub(crate) fn begin(chains: &mut Chains, cluster: &Cluster, rec: &Record)
    requires fresh { new_keys (writes_of rec.now) (versions_room chains.old) ≤ chains.old.fresh }
    requires room { has_room_for (writes_of rec.now) (versions_room chains.old) ≡ true }
    ensures room { HasWriteRoom rec.now chains.new }
    ensures wider { IsWider chains.old chains.new }
    ensures keys { (k : Key) → is_some (place_of k chains.new.places)
        ≡ (is_key_among k (keys_of_writes (writes_of rec.now)) || is_some (place_of k chains.old.places)) }
    ensures initial { StartsBy (init cluster.now) chains.old → StartsBy (init cluster.now) chains.new }
{
    if let Record::Prepared { writes, .. } = rec {
        begin_all(chains, cluster, writes.as_slice());
    }
}

/// Puts a version of each of these keys, at a final identifier.
fn put_all(chains: &mut Chains, writes: &[(Key, Value)], f: Ident)
    requires { CanPutAll writes.now f chains.old }
    ensures { IsPut writes.now f chains.old chains.new }
{
    for write in writes {
        chains.put(&write.0, f, write.1);
    }
}

/// Puts what a record writes, at a final identifier.
fn put_of(chains: &mut Chains, rec: &Record, f: Ident)
    requires { CanPutAll (writes_in (said_by rec.now)) f chains.old }
    ensures { IsPut (writes_in (said_by rec.now)) f chains.old chains.new }
{
    if let Record::Prepared { writes, .. } = rec {
        put_all(chains, writes.as_slice(), f);
    }
}

/// Puts what t wrote, at its final identifier.
pub(crate) fn apply(
    chains: &mut Chains,
    places: &Ordered<TxId, usize>,
    records: &[Record],
    f: Ident,
    t: TxId,
)
    requires placed { KeepsPlaces places.now.pairs records.now }
    requires can { CanPutAll (writes_in (prepared_of t (reverse records.now))) f chains.old }
    ensures { IsPut (writes_in (prepared_of t (reverse records.now))) f chains.old chains.new }
{
    if let Some(i) = had(places, t) {
        put_of(chains, &records[i], f);
    }
}
