//! What a reader of scripts has met before: the keys that were named, and the numbers of scripts.
ghost use Rattle.std.specs.Prelude.{◌≡◌, OnOk};
ghost use Rattle.script_lang.specs.Names.{has_name, is_taken, with_key, with_number, name_key, new_number};
ghost use Rattle.script_lang.specs.Reading.{Gives};

use crate::whys::{LineEnd, Why};
use score_base::{Key, Memory, TxId};
use std::collections::BTreeSet;

/// Whether the key was named.
pub fn has_name(named: &BTreeSet<Key>, key: &Key) -> bool
    ensures { result ≡ has_name named.now key.now }
{
    named.contains(key)
}

/// Whether a script has the number.
pub fn is_taken(numbers: &BTreeSet<TxId>, t: &TxId) -> bool
    ensures { result ≡ is_taken numbers.now t.now }
{
    numbers.contains(t)
}

fn put_key(named: &mut BTreeSet<Key>, key: Key) -> Result<(), Memory>
    ensures { OnOk result (named.new ≡ with_key named.old key) }
{
    named.insert(key)?;
    Ok(())
}

/// Puts the number among those of the scripts.
pub fn put_number(numbers: &mut BTreeSet<TxId>, t: TxId) -> Result<(), Memory>
    ensures { OnOk result (numbers.new ≡ with_number numbers.old t) }
{
    numbers.insert(t)?;
    Ok(())
}

/// Names the key; why `Limit` where more than so many keys are named then.
pub fn name_key(named: &mut BTreeSet<Key>, most: usize, key: Key) -> Result<(), LineEnd>
    ensures { Gives (λ _. named.new) result (name_key most named.old key) }
{
    put_key(named, key)?;
    if named.len() > most {
        return Err(LineEnd::Why(Why::Limit));
    }
    Ok(())
}

/// Why `Repeat` where a script has the number.
pub fn new_number(numbers: &BTreeSet<TxId>, t: &TxId) -> Result<(), LineEnd>
    ensures { Gives (λ x. x) result (new_number numbers.now t.now) }
{
    if is_taken(numbers, t) {
        return Err(LineEnd::Why(Why::Repeat));
    }
    Ok(())
}
