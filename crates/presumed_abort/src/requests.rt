//! The read request of a home.

ghost use Rattle.std.specs.Prelude.{◌≡◌, ◌++◌, OnOk, slice_get};
ghost use Rattle.std.specs.Option.{option_copied};
ghost use Rattle.placement.specs.Places.{others, preferred};
ghost use Rattle.script_runs.specs.Walks.{op_at};
ghost use Rattle.grid_model.specs.Advances.{date_by, request_of, request};
ghost use Rattle.grid_model.specs.Stories.{place_behind};
ghost use Rattle.presumed_abort.specs.Replies.{holders_of, request_sent};

use crate::opens::OpenRef;
use grid_model::{Message, Out, ReadReq};
use journal_words::records::is_among;
use placement::Cluster;
use score_base::{Date, Ident, Key, Memory, NodeId, push};
use script_lang::{Op, key_of};
use script_runs::op_at;

/// How a read is dated: the first by the identifier of the begin, a later one by the snapshot.
fn date_by(sid0: Ident, sid: Option<Ident>) -> Date
    ensures { result ≡ date_by sid0 sid }
{
    match sid {
        None => Date::First(sid0),
        Some(sid) => Date::At(sid),
    }
}

/// The node at this place of the nodes but for one.
fn other_at(but: NodeId, nodes: &[NodeId], place: usize) -> Option<NodeId>
    ensures { result ≡ slice_get (others but nodes.now) place }
{
    let mut left = place;
    for node in nodes {
        if *node != but {
            if left == 0 {
                return Some(*node);
            }
            left -= 1;
        }
    }
    None
}

/// The holder of a key at this place of the order that the home prefers.
fn holder_at(cluster: &Cluster, home: NodeId, key: &Key, place: usize) -> Option<NodeId>
    ensures { result ≡ slice_get (preferred cluster.now.places home key.now) place }
{
    let holders = cluster.places.holders(key);
    if !is_among(home, holders) {
        return holders.get(place).copied();
    }
    if place == 0 {
        return Some(home);
    }
    other_at(home, holders, place - 1)
}

/// The request of an operation, where there is one, to the holder of its key at this place of the order
/// that the home prefers.
fn request_of(
    cluster: &Cluster,
    tx: &OpenRef,
    j: u8,
    place: usize,
    op: Option<&Op>,
) -> Option<(NodeId, ReadReq)>
    ensures { request_sent result ≡ request_of cluster.now tx.now j place (option_copied op.entry) }
{
    let Some(op) = op else {
        return None;
    };
    let (script, progress) = (tx.script, tx.progress);
    let key = key_of(op);
    let Some(to) = holder_at(cluster, script.home, &key, place) else {
        return None;
    };
    let q = ReadReq {
        t: script.number,
        op: j,
        key,
        date: date_by(progress.sid0, progress.sid),
    };
    Some((to, q))
}

/// The request of operation `j`, to the holder of its key at this place of the order that the home
/// prefers.
pub(crate) fn request(
    cluster: &Cluster,
    tx: &OpenRef,
    j: u8,
    place: usize,
) -> Option<(NodeId, ReadReq)>
    ensures { request_sent result ≡ request cluster.now tx.now j place }
{
    request_of(cluster, tx, j, place, op_at(tx.script.ops(), j))
}

/// Adds a request, where there is one.
pub(crate) fn push_request(
    outs: &mut Vec<Out>,
    request: Option<(NodeId, ReadReq)>,
) -> Result<(), Memory>
    ensures { OnOk result (outs.new.items ≡ outs.old.items ++ request_sent request) }
{
    let Some((to, q)) = request else {
        return Ok(());
    };
    push(outs, Out::Send(to, Message::ReadReq(q)))
}

/// How many nodes hold the key of operation `j`.
pub(crate) fn holders_of(cluster: &Cluster, tx: &OpenRef, j: u8) -> usize
    ensures { result ≡ holders_of cluster.now (op_at tx.now.script.ops j) }
{
    match op_at(tx.script.ops(), j) {
        None => 0,
        Some(op) => cluster.places.holders(&key_of(op)).len(),
    }
}

/// The place behind place `i`, in turn, of `r` places.
pub(crate) fn place_behind(r: usize, i: usize) -> usize
    ensures { result ≡ place_behind r i }
{
    if i < r && i + 1 < r { i + 1 } else { 0 }
}
