//! What stands in the way of a transaction: the holder of one of its keys, and a newer version.
ghost use Rattle.std.specs.Prelude.{◌≡◌, Some, reverse, IfOk};
ghost use Rattle.script_lang.specs.Reads.{is_key_among};
ghost use Rattle.journal_words.specs.Journals.{pendings, keys_of_writes, shares, conflicts_with, prepared_of, is_locking, lesser, holds_out, holder, newer};

use super::commits::pendings;
use super::endings::{ended, pending};
use super::pairs::PairList;
use super::proposals::prepared_of;
use super::values::newest;
use score_base::{Ident, Key, KeyList, Memory, Outcome, Record, TxId, Value};
use std::alloc::Global;

/// Whether the key is among these.
pub fn is_key_among(key: &Key, keys: &[Key]) -> bool
    ensures { result ≡ is_key_among key.now keys.now }
{
    keys.iter().any(|other| *key == *other)
}

/// The keys that are written.
pub fn keys_in(alloc: Global, writes: &[(Key, Value)]) -> Result<KeyList, Memory>
    ensures { IfOk result (λ keys. keys ≡ keys_of_writes writes.now) }
{
    let mut keys = KeyList::new(alloc);
    for write in writes {
        keys.push(write.0)?;
    }
    Ok(keys)
}

/// Whether a key of the first list is in the second.
fn shares(keys: &[Key], others: &[Key]) -> bool
    ensures { result ≡ shares keys.now others.now }
{
    for key in keys {
        if is_key_among(key, others) {
            return true;
        }
    }
    false
}

/// Whether what t prepared has a key in common with these that at least one of the two writes.
fn conflicts_with(
    alloc: Global,
    records: &[Record],
    t: TxId,
    reads: &[Key],
    writes: &[(Key, Value)],
) -> Result<bool, Memory>
    ensures { IfOk result (λ meets. meets ≡ conflicts_with (prepared_of t (reverse records.now)) reads.now writes.now) }
{
    match prepared_of(records, t) {
        Some(first) => {
            let held = keys_in(alloc, first.writes)?;
            let wanted = keys_in(alloc, writes)?;
            Ok(
                shares(held.as_slice(), reads)
                    || shares(held.as_slice(), wanted.as_slice())
                    || shares(first.reads, wanted.as_slice()),
            )
        }
        None => Ok(false),
    }
}

/// Whether t is pending, or ended with commit and isn't applied.
fn is_locking(records: &[Record], pairs: &PairList, t: TxId) -> bool
    requires { pairs.now ≡ pendings (reverse records.now) }
    ensures { result ≡ is_locking t (reverse records.now) }
{
    if pending(records, t).is_some() {
        return true;
    }
    match &ended(records, t) {
        Some(Outcome::Commit(f)) => !pairs.all_above(*f),
        _ => false,
    }
}

/// Whether u keeps t, with these reads and writes, out.
fn holds_out(
    alloc: Global,
    records: &[Record],
    pairs: &PairList,
    u: TxId,
    t: TxId,
    reads: &[Key],
    writes: &[(Key, Value)],
) -> Result<bool, Memory>
    requires { pairs.now ≡ pendings (reverse records.now) }
    ensures { IfOk result (λ out. out ≡ holds_out u (reverse records.now) t reads.now writes.now) }
{
    if u == t || !is_locking(records, pairs, u) {
        return Ok(false);
    }
    conflicts_with(alloc, records, u, reads, writes)
}

/// The lesser of the two.
fn lesser(u: TxId, before: Option<TxId>) -> TxId
    ensures { Some result ≡ lesser u before }
{
    match before {
        Some(v) if v <= u => v,
        _ => u,
    }
}

/// The least transaction other than t that locks a key with which these reads and writes conflict.
#[tactic(auto, using(crate::proofs::Newest::newest_more))]
pub fn holder(
    alloc: Global,
    records: &[Record],
    t: TxId,
    reads: &[Key],
    writes: &[(Key, Value)],
) -> Result<Option<TxId>, Memory>
    ensures { IfOk result (λ found. found ≡ holder (reverse records.now) t reads.now writes.now) }
{
    let pairs = pendings(alloc, records)?;
    let mut found = None;
    for rec in records {
        if let Record::Prepared { t: u, .. } = rec {
            if holds_out(alloc, records, &pairs, *u, t, reads, writes)? {
                found = Some(lesser(*u, found));
            }
        }
    }
    Ok(found)
}

/// The first of these keys whose newest version is above `sid`, and that version's identifier.
pub fn newer(
    alloc: Global,
    records: &[Record],
    reads: &[Key],
    sid: Ident,
) -> Result<Option<(Key, Ident)>, Memory>
    ensures { IfOk result (λ found. found ≡ newer (reverse records.now) reads.now sid) }
{
    for key in reads {
        let ident = newest(alloc, records, key)?;
        if sid < ident {
            return Ok(Some((*key, ident)));
        }
    }
    Ok(None)
}
