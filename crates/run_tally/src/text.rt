//! The text of a tally: a line for each transaction, then one for each key at each of its holders.
ghost use Rattle.std.specs.Prelude.{◌≡◌, ◌≤◌, ◌++◌, ◌∷◌, [], codes, OnOk, OnErr, Some};
ghost use Rattle.std.specs.List.{flat_map, range_with_len};
ghost use Rattle.std.specs.Option.{option_copied};
ghost use Rattle.placement.specs.Places.{is_among};
ghost use Rattle.grid_model.specs.Documents.{script_numbers, number_order, key_order, keys_of_document};
ghost use Rattle.grid_model.specs.Keyed.{at_key};
ghost use Rattle.grid_model.specs.Nodes.{script_of};
ghost use Rattle.history_print.specs.Acts.{spaced, line};
ghost use Rattle.history_print.specs.Begun.{decided_words};
ghost use Rattle.run_tally.specs.Tallies.{or_blank, node_in};
ghost use Rattle.run_tally.specs.Texts.{tx_words, told_line, told_lines, newest_at, told_key, told_holders, told_keys, TallyText};

use crate::nodes::NodeTally;
use crate::phases::snapshot_of;
use crate::tallies::Tally;
use crate::txs::TxTally;
use grid_model::Document;
use history_print::{
    add_numbers, key_set, put_final, put_tx, put_undecided, put_version_line, put_word,
};
use placement::Cluster;
use run_state::script_of;
use score_base::{Ident, Key, Memory, NodeId, TxId, put_bytes};
use script_lang::{Op, Script, is_update};
use script_runs::first_waiting;
use std::collections::BTreeSet;

/// How many nodes a cluster has at most.
const MOST_NODES: u8 = 16;

#[tactic(auto, unfolding(crate::specs::Texts::tx_words))]
fn put_begun(
    out: &mut Vec<u8>,
    ops: &[Op],
    tx: &TxTally,
    final_ident: Option<Ident>,
) -> Result<(), Memory>
    ensures { OnOk result (out.new.items ≡ out.old.items ++ spaced (tx_words ops.now (Some tx.now) final_ident)) }
{
    if tx.lost {
        return put_word(out, b"lost");
    }
    if let Some(f) = final_ident {
        return put_final(out, f);
    }
    put_undecided(
        out,
        tx.aborted,
        tx.finished && !is_update(ops),
        first_waiting(ops, tx.values.as_slice()),
        snapshot_of(tx),
    )
}

#[tactic(auto, unfolding(crate::specs::Texts::tx_words))]
fn put_told(
    out: &mut Vec<u8>,
    ops: &[Op],
    tx: Option<&TxTally>,
    final_ident: Option<Ident>,
) -> Result<(), Memory>
    ensures { OnOk result (out.new.items ≡
        out.old.items ++ spaced (tx_words ops.now (option_copied tx.entry) final_ident)) }
{
    match tx {
        None => put_word(out, b"unbegun"),
        Some(tx) => put_begun(out, ops, tx, final_ident),
    }
}

#[tactic(auto, unfolding(crate::specs::Texts::told_line))]
fn put_script_line(out: &mut Vec<u8>, script: &Script, tally: &Tally) -> Result<(), Memory>
    ensures { OnOk result (out.new.items ≡ out.old.items ++ told_line tally.now (Some script.now)) }
{
    put_bytes(out, b"tx")?;
    put_tx(out, script.number)?;
    put_told(
        out,
        script.ops(),
        tally.tx(script.number),
        tally.decided(script.home, script.number),
    )?;
    put_bytes(out, b"\n")
}

#[tactic(auto, unfolding(crate::specs::Texts::told_line))]
fn put_line(out: &mut Vec<u8>, script: Option<&Script>, tally: &Tally) -> Result<(), Memory>
    ensures { OnOk result (out.new.items ≡ out.old.items ++ told_line tally.now (option_copied script.entry)) }
{
    match script {
        None => Ok(()),
        Some(script) => put_script_line(out, script, tally),
    }
}

fn put_numbered(
    out: &mut Vec<u8>,
    numbers: &BTreeSet<TxId>,
    scripts: &[Script],
    tally: &Tally,
) -> Result<(), Memory>
    ensures { OnOk result (out.new.items ≡
        out.old.items ++ flat_map (λ t. told_line tally.now (script_of t scripts.now)) numbers.now.keys) }
{
    for number in numbers {
        put_line(out, script_of(scripts, *number), tally)?;
    }
    Ok(())
}

#[tactic(auto, unfolding(crate::specs::Texts::told_lines))]
fn put_lines(out: &mut Vec<u8>, scripts: &[Script], tally: &Tally) -> Result<(), Memory>
    ensures { OnOk result (out.new.items ≡ out.old.items ++ told_lines scripts.now tally.now) }
{
    let mut numbers = BTreeSet::new(*out.allocator());
    add_numbers(&mut numbers, scripts)?;
    put_numbered(out, &numbers, scripts, tally)
}

#[tactic(auto, unfolding(crate::specs::Texts::told_key))]
fn put_key_line(
    out: &mut Vec<u8>,
    cluster: &Cluster,
    tally: &Tally,
    key: &Key,
    n: NodeId,
) -> Result<(), Memory>
    ensures { OnOk result (out.new.items ≡ out.old.items ++ told_key cluster.now tally.now key.now n) }
{
    if !cluster.places.holders(key).contains(&n) {
        return Ok(());
    }
    put_version_line(out, key, n, tally.newest(n, key, cluster.init(key)))
}

fn put_holder_lines(
    out: &mut Vec<u8>,
    cluster: &Cluster,
    tally: &Tally,
    key: &Key,
    count: u8,
) -> Result<(), Memory>
    requires { count ≤ 16 }
    ensures { OnOk result (out.new.items ≡
        out.old.items ++ flat_map (told_key cluster.now tally.now key.now) (range_with_len 1 count)) }
{
    for i in 0..count {
        put_key_line(out, cluster, tally, key, NodeId { number: i + 1 })?;
    }
    Ok(())
}

#[tactic(auto, unfolding(crate::specs::Texts::told_holders))]
fn put_holders(out: &mut Vec<u8>, cluster: &Cluster, tally: &Tally, key: &Key) -> Result<(), Memory>
    ensures { OnOk result (out.new.items ≡ out.old.items ++ told_holders cluster.now tally.now key.now) }
{
    put_holder_lines(out, cluster, tally, key, MOST_NODES)
}

fn put_each_key(
    out: &mut Vec<u8>,
    keys: &BTreeSet<Key>,
    cluster: &Cluster,
    tally: &Tally,
) -> Result<(), Memory>
    ensures { OnOk result (out.new.items ≡
        out.old.items ++ flat_map (told_holders cluster.now tally.now) keys.now.keys) }
{
    for key in keys {
        put_holders(out, cluster, tally, key)?;
    }
    Ok(())
}

#[tactic(auto, unfolding(crate::specs::Texts::told_keys))]
fn put_keys(out: &mut Vec<u8>, doc: &Document, tally: &Tally) -> Result<(), Memory>
    ensures { OnOk result (out.new.items ≡ out.old.items ++ told_keys doc.now tally.now) }
{
    let keys = key_set(*out.allocator(), doc)?;
    put_each_key(out, &keys, doc.cluster(), tally)
}

#[tactic(auto, unfolding(crate::specs::Texts::TallyText))]
fn put_text(out: &mut Vec<u8>, doc: &Document, tally: &Tally) -> Result<(), Memory>
    ensures { OnOk result (out.new.items ≡ out.old.items ++ TallyText doc.now tally.now) }
{
    put_bytes(out, b"summary\n")?;
    put_lines(out, doc.scripts(), tally)?;
    put_keys(out, doc, tally)
}

impl Tally {
    /// Appends the text of the tally: the phase of each transaction of the document, in rising number, and
    /// the newest version of each of its keys at each of the key's holders, in byte order and then by rising
    /// node. After [`Memory`] `out` is as before.
    pub fn write(&self, doc: &Document, out: &mut Vec<u8>) -> Result<(), Memory>
        ensures ok { OnOk result (out.new.items ≡ out.old.items ++ TallyText doc.now self.now) }
        ensures err { OnErr result (out.new.items ≡ out.old.items) }
    {
        let mut text = Vec::new(*out.allocator());
        put_text(&mut text, doc, self)?;
        put_bytes(out, text.as_slice())
    }
}
