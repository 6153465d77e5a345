//! The Prepares of a home.

ghost use Rattle.std.specs.Prelude.{◌≡◌, ◌++◌, [], IfOk, OnOk, filter, map};
ghost use Rattle.placement.specs.Places.{holds};
ghost use Rattle.script_lang.specs.Reads.{remote_keys, written_keys};
ghost use Rattle.script_lang.specs.Values.{value_in};
ghost use Rattle.script_runs.specs.Walks.{own_map};
ghost use Rattle.script_runs.specs.Serials.{Map};
ghost use Rattle.grid_model.specs.Advances.{prepare_for, prepares};
ghost use Rattle.grid_model.specs.Stories.{first_sid};

use crate::opens::OpenRef;
use crate::parts::Parts;
use grid_model::{Message, Out, Prepare};
use placement::Cluster;
use score_base::{Ident, Key, KeyList, Memory, NodeId, Value, WriteList, push};
use script_lang::{Reads, Script, read_keys, write_keys};
use script_runs::walk;
use std::alloc::Global;

/// The snapshot identifier, or else this one.
fn first_sid(snapshot: Option<Ident>, sid: Ident) -> Ident
    ensures { result ≡ first_sid snapshot sid }
{
    match snapshot {
        None => sid,
        Some(first) => first,
    }
}

/// Those of the keys that the node holds.
fn held_keys(alloc: Global, cluster: &Cluster, n: NodeId, keys: &[Key]) -> Result<KeyList, Memory>
    ensures { IfOk result (λ ks. ks ≡ filter (holds cluster.now.places n) keys.now) }
{
    let mut held = KeyList::new(alloc);
    for key in keys {
        if cluster.places.holds(n, key) {
            held.push(*key)?;
        }
    }
    Ok(held)
}

/// The keys with their values in the map.
fn writes_of(alloc: Global, keys: &[Key], mine: &Reads) -> Result<WriteList, Memory>
    ensures { IfOk result (λ ws. ws ≡ map (λ k. (k, value_in mine.now k)) keys.now) }
{
    let mut writes = WriteList::new(alloc);
    for key in keys {
        let value = mine.get(key).unwrap_or(Value(0));
        writes.push((*key, value))?;
    }
    Ok(writes)
}

/// The keys that a script reads remotely and the node holds.
fn reads_for(
    alloc: Global,
    cluster: &Cluster,
    script: &Script,
    n: NodeId,
) -> Result<KeyList, Memory>
    ensures { IfOk result (λ ks. ks ≡ filter (holds cluster.now.places n) (remote_keys [] script.now.ops)) }
{
    let keys = read_keys(alloc, script)?;
    held_keys(alloc, cluster, n, keys.as_slice())
}

/// The keys that a script writes and the node holds, with their values in the map.
fn writes_for(
    alloc: Global,
    cluster: &Cluster,
    script: &Script,
    mine: &Reads,
    n: NodeId,
) -> Result<WriteList, Memory>
    ensures { (m : Map) → value_in mine.now ≡ m
        → IfOk result (λ ws.
        ws ≡ map (λ k. (k, m k)) (filter (holds cluster.now.places n) (written_keys [] script.now.ops))) }
{
    let keys = write_keys(alloc, script)?;
    let keys = held_keys(alloc, cluster, n, keys.as_slice())?;
    writes_of(alloc, keys.as_slice(), mine)
}

/// The Prepare for a node, by the transaction's own map.
fn prepare_for(
    alloc: Global,
    cluster: &Cluster,
    tx: &OpenRef,
    mine: &Reads,
    n: NodeId,
) -> Result<Prepare, Memory>
    requires { value_in mine.now ≡ own_map tx.now.script.ops tx.now.progress.values }
    ensures { IfOk result (λ q. q ≡ prepare_for cluster.now tx.now n) }
{
    let (script, progress) = (tx.script, tx.progress);
    Ok(Prepare {
        t: script.number,
        sid: first_sid(progress.sid, progress.sid0),
        parts: Parts::of(alloc, cluster, tx)?.into_list(),
        reads: reads_for(alloc, cluster, script, n)?,
        writes: writes_for(alloc, cluster, script, mine, n)?,
    })
}

/// Adds a Prepare to each of these nodes.
pub(crate) fn push_prepares(
    alloc: Global,
    outs: &mut Vec<Out>,
    cluster: &Cluster,
    tx: &OpenRef,
    mine: &Reads,
    nodes: &[NodeId],
) -> Result<(), Memory>
    requires { value_in mine.now ≡ own_map tx.now.script.ops tx.now.progress.values }
    ensures { OnOk result (outs.new.items ≡ outs.old.items ++ prepares cluster.now tx.now nodes.now) }
{
    for node in nodes {
        let prepare = prepare_for(alloc, cluster, tx, mine, *node)?;
        push(outs, Out::Send(*node, Message::Prepare(prepare)))?;
    }
    Ok(())
}

/// Adds a Prepare to each of these nodes, where the transaction is collecting, by a walk of its own over
/// the script.
pub(crate) fn push_prepares_again(
    alloc: Global,
    outs: &mut Vec<Out>,
    cluster: &Cluster,
    tx: &OpenRef,
    nodes: &[NodeId],
) -> Result<(), Memory>
    ensures { OnOk result (outs.new.items ≡ outs.old.items ++ prepares cluster.now tx.now nodes.now) }
{
    let (script, progress) = (tx.script, tx.progress);
    let trail = walk(alloc, script, progress.values.as_slice())?;
    push_prepares(alloc, outs, cluster, tx, &trail.mine, nodes)
}
