//! One word behind a space: numbers, nodes, transactions, keys.
ghost use Rattle.std.specs.Prelude.{◌≡◌, ◌++◌, OnOk};
ghost use Rattle.std.specs.Fmt.{decimal};
ghost use Rattle.history_print.specs.Acts.{behind_space, node_word};

use score_base::{Ident, Key, Memory, NodeId, TxId, Value, put_bytes, put_number};

/// Appends a word behind a space.
pub fn put_word(out: &mut Vec<u8>, word: &[u8]) -> Result<(), Memory>
    ensures { OnOk result (out.new.items ≡ out.old.items ++ behind_space word.now) }
{
    put_bytes(out, b" ")?;
    put_bytes(out, word)
}

/// Appends a number behind a space.
pub fn put_count(out: &mut Vec<u8>, n: u64) -> Result<(), Memory>
    ensures { OnOk result (out.new.items ≡ out.old.items ++ behind_space (decimal n)) }
{
    put_bytes(out, b" ")?;
    put_number(out, n)
}

/// Appends a node behind a space.
pub fn put_node(out: &mut Vec<u8>, n: NodeId) -> Result<(), Memory>
    ensures { OnOk result (out.new.items ≡ out.old.items ++ behind_space (node_word n)) }
{
    put_bytes(out, b" n")?;
    put_number(out, n.get() as u64)
}

/// Appends the number of a transaction behind a space.
pub fn put_tx(out: &mut Vec<u8>, t: TxId) -> Result<(), Memory>
    ensures { OnOk result (out.new.items ≡ out.old.items ++ behind_space (decimal t)) }
{
    put_count(out, t.get() as u64)
}

/// Appends an identifier behind a space.
pub fn put_ident(out: &mut Vec<u8>, i: Ident) -> Result<(), Memory>
    ensures { OnOk result (out.new.items ≡ out.old.items ++ behind_space (decimal i)) }
{
    put_count(out, i.0)
}

/// Appends a value behind a space.
pub fn put_value(out: &mut Vec<u8>, v: Value) -> Result<(), Memory>
    ensures { OnOk result (out.new.items ≡ out.old.items ++ behind_space (decimal v)) }
{
    put_count(out, v.0)
}

/// Appends a key behind a space.
pub fn put_key(out: &mut Vec<u8>, key: &Key) -> Result<(), Memory>
    ensures { OnOk result (out.new.items ≡ out.old.items ++ behind_space key.now) }
{
    put_word(out, key.bytes())
}

/// Appends the node of a number behind a space.
pub fn put_node_number(out: &mut Vec<u8>, n: u8) -> Result<(), Memory>
    ensures { OnOk result (out.new.items ≡ out.old.items ++ behind_space (node_word n)) }
{
    put_bytes(out, b" n")?;
    put_number(out, n as u64)
}
