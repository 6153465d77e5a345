ghost use Rattle.std.specs.Prelude.{◌≡◌, ◌++◌, ◌∷◌, [], IfOk, OnOk};
ghost use Rattle.script_lang.specs.Reads.{key_of, keys_named, is_key_among, is_update, known_keys, unless_among, keys_of, remote_key, remote_keys, written_key, written_keys};

use crate::scripts::{Op, Script};
use score_base::{Key, KeyList, Memory};
use std::alloc::Global;

/// The key that an operation names.
pub fn key_of(op: &Op) -> Key
    ensures { result ≡ key_of op.now }
{
    match op {
        Op::Read(key) => *key,
        Op::Write(key, _) => *key,
    }
}

/// Whether an operation names the key.
pub fn is_named(key: Key, ops: &[Op]) -> bool
    ensures { result ≡ is_key_among key (keys_named ops.now) }
{
    for op in ops {
        if key == key_of(op) {
            return true;
        }
    }
    false
}

/// Whether a read among these operations names the key.
pub fn is_known(key: Key, ops: &[Op]) -> bool
    ensures { result ≡ is_key_among key (known_keys ops.now) }
{
    for op in ops {
        if is_read_of(key, op) {
            return true;
        }
    }
    false
}

fn is_read_of(key: Key, op: &Op) -> bool
    ensures { result ≡ is_key_among key (known_keys (op.now ∷ [])) }
{
    match op {
        Op::Read(read) => key == *read,
        Op::Write(_, _) => false,
    }
}

/// Whether an operation is a write.
pub fn is_update(ops: &[Op]) -> bool
    ensures { result ≡ is_update ops.now }
{
    for op in ops {
        match op {
            Op::Read(_) => {}
            Op::Write(_, _) => return true,
        }
    }
    false
}

/// Whether the key is among these.
fn is_among(key: Key, keys: &[Key]) -> bool
    ensures { result ≡ is_key_among key keys.now }
{
    keys.iter().any(|other| key == *other)
}

/// Puts the key last, unless it is there.
fn push_new(keys: &mut KeyList, key: Key) -> Result<(), Memory>
    ensures { OnOk result (keys.new ≡ keys.old ++ unless_among keys.old key) }
{
    if !is_among(key, keys.as_slice()) {
        keys.push(key)?;
    }
    Ok(())
}

/// Puts the key of a remote read last.
fn push_remote(keys: &mut KeyList, op: &Op, before: &[Op]) -> Result<(), Memory>
    ensures { OnOk result (keys.new ≡ keys.old ++ remote_key (keys_named before.now) op.now) }
{
    match op {
        Op::Read(key) => {
            if !is_named(*key, before) {
                keys.push(*key)?;
            }
        }
        Op::Write(_, _) => {}
    }
    Ok(())
}

/// Puts the key of a first write last.
fn push_written(keys: &mut KeyList, op: &Op) -> Result<(), Memory>
    ensures { OnOk result (keys.new ≡ keys.old ++ written_key keys.old op.now) }
{
    match op {
        Op::Read(_) => Ok(()),
        Op::Write(key, _) => push_new(keys, *key),
    }
}

/// The keys of a script, each once, in the order in which its operations first name them.
pub fn keys(alloc: Global, script: &Script) -> Result<KeyList, Memory>
    ensures { IfOk result (λ ks. ks ≡ keys_of script.now.ops) }
{
    let ops = script.ops();
    let mut keys = KeyList::new(alloc);
    for op in ops {
        push_new(&mut keys, key_of(op))?;
    }
    Ok(keys)
}

/// The keys that a script reads remotely, in order: those of a read whose key no operation before
/// it names.
pub fn read_keys(alloc: Global, script: &Script) -> Result<KeyList, Memory>
    ensures { IfOk result (λ ks. ks ≡ remote_keys [] script.now.ops) }
{
    let ops = script.ops();
    let mut keys = KeyList::new(alloc);
    for (i, op) in ops.iter().enumerate() {
        push_remote(&mut keys, op, &ops[..i])?;
    }
    Ok(keys)
}

/// The keys that a script writes, each once, in the order of first writing.
pub fn write_keys(alloc: Global, script: &Script) -> Result<KeyList, Memory>
    ensures { IfOk result (λ ks. ks ≡ written_keys [] script.now.ops) }
{
    let ops = script.ops();
    let mut keys = KeyList::new(alloc);
    for op in ops {
        push_written(&mut keys, op)?;
    }
    Ok(keys)
}
