//! A whole file of version 2, spelled in memory before it is written.
ghost use Rattle.std.specs.Prelude.{◌≡◌, ℕ, ◌+◌, ◌≤◌, ◌++◌, ◌≢◌, List, [], length, OnOk, OnErr, All};
ghost use Rattle.journal_records.specs.Records.{CanEncode, IsRecord};
ghost use Rattle.node_journal.specs.Pairs.{filling, open_block};

use journal_records::encode;
use score_base::{Memory, Record};

/// The longest body of a record.
const LONGEST_BODY: usize = 4096;

/// Puts an open gate and the block of the record behind the bytes.
#[tactic(auto, unfolding(crate::specs::Pairs::open_block, crate::specs::Log::framed))]
fn spell_block(
    out: &mut Vec<u8>,
    body: &mut Vec<u8>,
    scratch: &mut Vec<u8>,
    rec: &Record,
) -> Result<(), Memory>
    requires { CanEncode rec.now }
    ensures out { OnOk result (out.new.items ≡ out.old.items ++ open_block rec.now) }
    ensures is { OnOk result (IsRecord rec.now) }
{
    scratch.clear();
    body.clear();
    scratch.reserve(LONGEST_BODY)?;
    body.reserve(LONGEST_BODY)?;
    encode(rec, scratch, body)?;
    out.push(1)?;
    out.extend_from_slice(&(body.len() as u16).to_be_bytes())?;
    out.extend_from_slice(body.as_slice())?;
    Ok(())
}

/// Spells what stands behind the version in a file of version 2: the generation, the records behind
/// open gates, and a closed gate.
#[tactic(auto, unfolding(crate::specs::Pairs::filling))]
pub(crate) fn spell(out: &mut Vec<u8>, generation: u64, records: &[Record]) -> Result<(), Memory>
    requires { All CanEncode records.now }
    ensures out { OnOk result (out.new.items ≡ filling generation records.now) }
    ensures are { OnOk result (All IsRecord records.now) }
{
    let mut body = Vec::new(*out.allocator());
    let mut scratch = Vec::new(*out.allocator());
    out.clear();
    out.extend_from_slice(&generation.to_be_bytes())?;
    for record in records {
        spell_block(out, &mut body, &mut scratch, record)?;
    }
    out.push(0)?;
    Ok(())
}

/// Spells the records as [`spell`] does, over a spelling of no record. It takes no memory where there
/// is no record.
pub(crate) fn respell(out: &mut Vec<u8>, generation: u64, records: &[Record]) -> Result<(), Memory>
    requires fit { All CanEncode records.now }
    requires none { out.old.items ≡ filling generation [] }
    ensures out { OnOk result (out.new.items ≡ filling generation records.now) }
    ensures are { OnOk result (All IsRecord records.now) }
    ensures memory { OnErr result (records.now ≢ []) }
{
    if records.is_empty() {
        return Ok(());
    }
    match spell(out, generation, records) {
        Ok(()) => Ok(()),
        Err(e) => Err(e),
    }
}
