//! What a document says of a transaction.
ghost use Rattle.std.specs.Prelude.{◌≡◌, IfOk};
ghost use Rattle.std.specs.Option.{option_copied};
ghost use Rattle.placement.specs.Places.{parts};
ghost use Rattle.script_lang.specs.Reads.{keys_of};
ghost use Rattle.grid_model.specs.Nodes.{script_of, parts_of, parts_in, is_home};
ghost use Rattle.run_state.specs.Kept.{home_in};

use grid_model::Document;
use placement::Cluster;
use score_base::{Memory, NodeId, NodeList, TxId};
use script_lang::{Script, keys};
use std::alloc::Global;

/// The script of a number.
pub fn script_of(scripts: &[Script], t: TxId) -> Option<&Script>
    ensures { option_copied result ≡ script_of t scripts.now }
{
    for script in scripts {
        if script.number == t {
            return Some(script);
        }
    }
    None
}

/// The home of a transaction; none where it has no script.
pub fn home_of(doc: &Document, t: TxId) -> Option<NodeId>
    ensures { result ≡ home_in (script_of t doc.now.scripts) }
{
    match script_of(doc.scripts(), t) {
        None => None,
        Some(script) => Some(script.home),
    }
}

/// Whether the node is the home of the transaction.
pub fn is_home(doc: &Document, t: TxId, n: NodeId) -> bool
    ensures { result ≡ is_home doc.now t n }
{
    match script_of(doc.scripts(), t) {
        None => false,
        Some(script) => script.home == n,
    }
}

/// All nodes of the cluster that hold a key of the script, rising.
pub fn parts_at(alloc: Global, cluster: &Cluster, script: &Script) -> Result<NodeList, Memory>
    ensures { IfOk result (λ ns. ns ≡ parts cluster.now.places (keys_of script.now.ops)) }
{
    let keys = keys(alloc, script)?;
    cluster.places.parts(alloc, keys.as_slice())
}

/// All nodes of the document that hold a key of the script, rising.
pub fn parts_of(alloc: Global, doc: &Document, script: &Script) -> Result<NodeList, Memory>
    ensures { IfOk result (λ ns. ns ≡ parts_of doc.now script.now) }
{
    parts_at(alloc, doc.cluster(), script)
}

/// The parts of a transaction; none where it has no script.
pub fn parts_in(alloc: Global, doc: &Document, t: TxId) -> Result<NodeList, Memory>
    ensures { IfOk result (λ ns. ns ≡ parts_in doc.now (script_of t doc.now.scripts)) }
{
    match script_of(doc.scripts(), t) {
        None => Ok(NodeList::new(alloc)),
        Some(script) => parts_of(alloc, doc, script),
    }
}
