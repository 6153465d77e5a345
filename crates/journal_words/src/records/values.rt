//! The versions of a key.
ghost use Rattle.std.specs.Prelude.{◌≡◌, reverse, IfOk};
ghost use Rattle.journal_words.specs.Journals.{written_value, wrote_in, prepared_of, later, best, version_at, newest_version, newest};

use super::commits::applied;
use super::pairs::PairList;
use super::proposals::prepared_of;
use crate::versions::Version;
use score_base::{Ident, Key, Memory, Record, TxId, Value};
use std::alloc::Global;

/// What is written to the key.
pub fn written_value(key: &Key, writes: &[(Key, Value)]) -> Option<Value>
    ensures { result ≡ written_value key.now writes.now }
{
    for write in writes {
        if write.0 == *key {
            return Some(write.1);
        }
    }
    None
}

/// What t writes to the key.
fn wrote(records: &[Record], t: TxId, key: &Key) -> Option<Value>
    ensures { result ≡ wrote_in (prepared_of t (reverse records.now)) key.now }
{
    match prepared_of(records, t) {
        Some(first) => written_value(key, first.writes),
        None => None,
    }
}

/// The greater of a version and of what a commit wrote.
pub fn later(ident: Ident, t: TxId, wrote: Option<Value>, best: Version) -> Version
    ensures { result ≡ later ident t wrote best }
{
    match wrote {
        Some(value) if best.ident < ident || (best.ident == ident && best.of < t.number) =>
            Version {
                ident,
                of: t.number,
                value,
            },
        _ => best,
    }
}

/// The greatest version of the key among these commits, or the initial one.
#[tactic(auto, using(crate::proofs::Newest::newest_more))]
fn best(records: &[Record], key: &Key, start: Value, commits: &PairList) -> Version
    ensures { result ≡ best (reverse records.now) key.now start commits.now }
{
    let mut found = Version {
        ident: Ident(0),
        of: 0,
        value: start,
    };
    for pair in commits.oldest_first() {
        found = later(pair.1, pair.0, wrote(records, pair.0, key), found);
    }
    found
}

/// The applied version of the key with the greatest identifier at most `sid`, or the initial one, of
/// the value `start`.
pub fn version_at(
    alloc: Global,
    records: &[Record],
    key: &Key,
    start: Value,
    sid: Ident,
) -> Result<Version, Memory>
    ensures { IfOk result (λ version. version ≡ version_at (reverse records.now) key.now start sid) }
{
    let commits = applied(alloc, records)?.up_to(alloc, sid)?;
    Ok(best(records, key, start, &commits))
}

/// The newest applied version of the key, or the initial one, of the value `start`.
pub fn newest_version(
    alloc: Global,
    records: &[Record],
    key: &Key,
    start: Value,
) -> Result<Version, Memory>
    ensures { IfOk result (λ version. version ≡ newest_version (reverse records.now) key.now start) }
{
    let commits = applied(alloc, records)?;
    Ok(best(records, key, start, &commits))
}

/// The identifier of the newest applied version of the key; 0 for the initial one.
pub fn newest(alloc: Global, records: &[Record], key: &Key) -> Result<Ident, Memory>
    ensures { IfOk result (λ ident. ident ≡ newest (reverse records.now) key.now) }
{
    Ok(newest_version(alloc, records, key, Value(0))?.ident)
}
