//! The lines of the schedule.
ghost use Rattle.std.specs.Prelude.{◌≡◌, ◌++◌, codes, OnOk};
ghost use Rattle.std.specs.Fmt.{decimal};
ghost use Rattle.std.specs.List.{flat_map};
ghost use Rattle.history_print.specs.Acts.{behind_space, joined, line, node_word};
ghost use Rattle.cluster_file.specs.Spelling.{item_words};

use grid_model::Item;
use history_print::{put_count, put_node, put_tx};
use score_base::{Memory, NodeId, TxId, put_bytes};

fn put_ask(out: &mut Vec<u8>, n: NodeId, t: TxId) -> Result<(), Memory>
    ensures { OnOk result
        (out.new.items ≡ out.old.items ++ (codes "ask" ++ behind_space (node_word n) ++ behind_space (decimal t))) }
{
    put_bytes(out, b"ask")?;
    put_node(out, n)?;
    put_tx(out, t)
}

fn put_item(out: &mut Vec<u8>, item: &Item) -> Result<(), Memory>
    ensures { OnOk result (out.new.items ≡ out.old.items ++ joined (item_words item.now)) }
{
    match item {
        Item::Begin(t) => {
            put_bytes(out, b"begin")?;
            put_tx(out, *t)
        }
        Item::Deliver(m) => {
            put_bytes(out, b"deliver")?;
            put_count(out, *m as u64)
        }
        Item::Drop(m) => {
            put_bytes(out, b"drop")?;
            put_count(out, *m as u64)
        }
        Item::Next(c) => {
            put_bytes(out, b"next")?;
            put_count(out, *c as u64)
        }
        Item::Retry(t) => {
            put_bytes(out, b"retry")?;
            put_tx(out, *t)
        }
        Item::Ask(n, t) => put_ask(out, *n, *t),
        Item::AskPeer(n, t, m) => {
            put_ask(out, *n, *t)?;
            put_node(out, *m)
        }
        Item::Crash(n, how) => {
            put_bytes(out, b"crash")?;
            put_node(out, *n)?;
            put_count(out, *how)
        }
        Item::Fuse(n, k, how) => {
            put_bytes(out, b"fuse")?;
            put_node(out, *n)?;
            put_count(out, *k)?;
            put_count(out, *how)
        }
        Item::Restart(n) => {
            put_bytes(out, b"restart")?;
            put_node(out, *n)
        }
        Item::Compact(n) => {
            put_bytes(out, b"compact")?;
            put_node(out, *n)
        }
    }
}

/// Appends the lines of these items.
pub fn put_items(out: &mut Vec<u8>, items: &[Item]) -> Result<(), Memory>
    ensures { OnOk result (out.new.items ≡ out.old.items ++ flat_map (λ i. line (item_words i)) items.now) }
{
    for item in items {
        put_item(out, item)?;
        put_bytes(out, b"\n")?;
    }
    Ok(())
}
