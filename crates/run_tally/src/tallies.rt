//! The tally of a run, and one act more.
ghost use Rattle.std.specs.Prelude.{◌≡◌, IfSome, IfNone, IfOk, OnOk, OnErr};
ghost use Rattle.grid_model.specs.Keyed.{at_key, put_key, IsPlace, IsAbsent};
ghost use Rattle.std.specs.Option.{option_copied};
ghost use Rattle.run_tally.specs.Texts.{newest_at};
ghost use Rattle.run_tally.specs.Tallies.{node_in, begun, with_value, as_finished, as_aborted, as_lost, retold, node_told, node_behind, txs_behind, with_node};

use crate::nodes::{NodeTally, initial};
use crate::txs::TxTally;
use grid_model::{Act, Document};
use journal_words::Version;
use run_state::script_of;
use score_base::{Ident, Key, Members, Memory, NodeId, TxId, Value, push};
use std::alloc::Global;
use std::marker::Model;

/// What the summary of a run needs of the acts so far: no act is kept.
#[derive(Drop, Debug)]
pub struct Tally {
    txs: Vec<(TxId, TxTally)>,
    nodes: Vec<(NodeId, NodeTally)>,
}

impl Model for Tally {
    ghost use Rattle.run_tally.specs.Tallies.{TallyData};

    ghost Value = { TallyData };

    ghost view = { λ x. record { txs = x.txs.items; nodes = x.nodes.items } };
}

/// The place of a transaction among these.
fn tx_place(txs: &[(TxId, TxTally)], t: TxId) -> Option<usize>
    ensures found { IfSome result (λ i. IsPlace t txs.now i) }
    ensures none { IfNone result (IsAbsent t txs.now) }
{
    for i in 0..txs.len() {
        if txs[i].0 == t {
            return Some(i);
        }
    }
    None
}

/// Puts what is told of a transaction, in the place of what was told of it before.
fn put_tx(txs: &mut Vec<(TxId, TxTally)>, t: TxId, tx: TxTally) -> Result<(), Memory>
    ensures ok { OnOk result (txs.new.items ≡ put_key t tx txs.old.items) }
    ensures err { OnErr result (txs.new.items ≡ txs.old.items) }
{
    match tx_place(txs.as_slice(), t) {
        Some(i) => {
            txs[i] = (t, tx);
            Ok(())
        }
        None => push(txs, (t, tx)),
    }
}

/// A transaction that begins.
fn begun(alloc: Global, sid0: Ident) -> TxTally
    ensures { result ≡ begun sid0 }
{
    TxTally {
        sid0,
        sid: None,
        values: Members::new(alloc),
        finished: false,
        aborted: false,
        lost: false,
    }
}

impl TxTally {
    /// Takes a reply: the first fixes the snapshot.
    fn take_value(&mut self, j: u8, sid: Ident, value: Value) -> Result<(), Memory>
        ensures ok { OnOk result (self.new ≡ with_value j sid value self.old) }
        ensures err { OnErr result (self.new ≡ self.old) }
    {
        self.values.push((j, value))?;
        if self.sid.is_none() {
            self.sid = Some(sid);
        }
        Ok(())
    }
}

fn take_value(
    txs: &mut Vec<(TxId, TxTally)>,
    t: TxId,
    j: u8,
    sid: Ident,
    value: Value,
) -> Result<(), Memory>
    ensures ok { OnOk result (txs.new.items ≡ retold t (with_value j sid value) txs.old.items) }
    ensures err { OnErr result (txs.new.items ≡ txs.old.items) }
{
    match tx_place(txs.as_slice(), t) {
        Some(i) => txs[i].1.take_value(j, sid, value),
        None => Ok(()),
    }
}

fn finish(txs: &mut Vec<(TxId, TxTally)>, t: TxId)
    ensures { txs.new.items ≡ retold t as_finished txs.old.items }
{
    if let Some(i) = tx_place(txs.as_slice(), t) {
        txs[i].1.finished = true;
    }
}

fn abort(txs: &mut Vec<(TxId, TxTally)>, t: TxId)
    ensures { txs.new.items ≡ retold t as_aborted txs.old.items }
{
    if let Some(i) = tx_place(txs.as_slice(), t) {
        txs[i].1.aborted = true;
    }
}

fn lose(txs: &mut Vec<(TxId, TxTally)>, t: TxId)
    ensures { txs.new.items ≡ retold t as_lost txs.old.items }
{
    if let Some(i) = tx_place(txs.as_slice(), t) {
        txs[i].1.lost = true;
    }
}

/// Takes what an act tells of a transaction.
fn take_of_tx(txs: &mut Vec<(TxId, TxTally)>, act: &Act) -> Result<(), Memory>
    ensures ok { OnOk result (txs.new.items ≡ txs_behind act.now txs.old.items) }
    ensures err { OnErr result (txs.new.items ≡ txs.old.items) }
{
    let alloc = *txs.allocator();
    match act {
        Act::Began(t, _, sid0) => return put_tx(txs, *t, begun(alloc, *sid0)),
        Act::Taken(t, j, sid, value) => return take_value(txs, *t, *j, *sid, *value),
        Act::Finished(t) => finish(txs, *t),
        Act::Aborted(t, _, _) => abort(txs, *t),
        Act::Lost(t) => lose(txs, *t),
        _ => {}
    }
    Ok(())
}

/// The node of which an act tells.
fn node_told(doc: &Document, act: &Act) -> Option<NodeId>
    ensures { result ≡ node_told doc.now act.now }
{
    match act {
        Act::Sent(_, _, to, _) => Some(*to),
        Act::Prepared(n, _, _) => Some(*n),
        Act::Ended(n, _, _) => Some(*n),
        Act::Decided(t, _) => match script_of(doc.scripts(), *t) {
            None => None,
            Some(script) => Some(script.home),
        },
        Act::Down(n, _) => Some(*n),
        Act::Up(n, _) => Some(*n),
        _ => None,
    }
}

/// The place of a node among these.
fn node_place(nodes: &[(NodeId, NodeTally)], n: NodeId) -> Option<usize>
    ensures found { IfSome result (λ i. IsPlace n nodes.now i) }
    ensures none { IfNone result (IsAbsent n nodes.now) }
{
    for i in 0..nodes.len() {
        if nodes[i].0 == n {
            return Some(i);
        }
    }
    None
}

/// Takes what an act tells of node `n`.
fn take_at(nodes: &mut Vec<(NodeId, NodeTally)>, n: NodeId, act: &Act) -> Result<(), Memory>
    ensures ok { OnOk result (nodes.new.items ≡ with_node n (node_behind act.now) nodes.old.items) }
    ensures err { OnErr result (nodes.new.items ≡ nodes.old.items) }
{
    match node_place(nodes.as_slice(), n) {
        Some(i) => nodes[i].1.take(act),
        None => {
            let mut node = NodeTally::blank(*nodes.allocator());
            node.take(act)?;
            push(nodes, (n, node))
        }
    }
}

impl Tally {
    ghost use Rattle.run_tally.specs.Tallies.{TallyStart, TallyStep};

    /// No act is taken yet.
    pub fn new(alloc: Global, doc: &Document) -> Result<Tally, Memory>
        ensures { IfOk result (λ x. x ≡ TallyStart doc.now) }
    {
        Ok(Tally {
            txs: Vec::new(alloc),
            nodes: Vec::new(alloc),
        })
    }

    /// What is told of a transaction; `None` exactly where it was not begun.
    pub fn tx(&self, t: TxId) -> Option<&TxTally>
        ensures { option_copied result ≡ at_key t self.now.txs }
    {
        for pair in &self.txs {
            if pair.0 == t {
                return Some(&pair.1);
            }
        }
        None
    }

    fn node(&self, n: NodeId) -> Option<&NodeTally>
        ensures { option_copied result ≡ at_key n self.now.nodes }
    {
        for pair in &self.nodes {
            if pair.0 == n {
                return Some(&pair.1);
            }
        }
        None
    }

    /// The final identifier of the decision on t that stands at a node.
    pub fn decided(&self, n: NodeId, t: TxId) -> Option<Ident>
        ensures { result ≡ at_key t (node_in n self.now.nodes).decided }
    {
        match self.node(n) {
            None => None,
            Some(node) => node.decided(t),
        }
    }

    /// The newest applied version of the key at a node, or the initial one, of the value `start`.
    pub fn newest(&self, n: NodeId, key: &Key, start: Value) -> Version
        ensures { result ≡ newest_at (node_in n self.now.nodes) key.now start }
    {
        match self.node(n) {
            None => initial(start),
            Some(node) => node.newest(key, start),
        }
    }

    /// Takes one act more. After [`Memory`] the tally is as before.
    #[tactic(auto, using(crate::proofs::Elsewhere::txs_same))]
    pub fn take(&mut self, doc: &Document, act: &Act) -> Result<(), Memory>
        ensures ok { OnOk result (self.new ≡ TallyStep doc.now self.old act.now) }
        ensures err { OnErr result (self.new ≡ self.old) }
    {
        match node_told(doc, act) {
            Some(n) => take_at(&mut self.nodes, n, act),
            None => take_of_tx(&mut self.txs, act),
        }
    }
}
