//! What a Prepare asks of a store.

ghost use Rattle.std.specs.Prelude.{◌≡◌, None, IfOk, is_some};
ghost use Rattle.journal_words.specs.Journals.{prepared_of, ended, holder, newer};
ghost use Rattle.grid_model.specs.Rows.{prepare_outs};
ghost use Rattle.grid_store.specs.Given.{IsSame};
ghost use Rattle.prepare_vote.specs.Votes.{vote_record, refusal, refusal_of, refusal_in, is_done, again_of, again_in, judge_outs, CanJudge, IsDue, IfYes};
ghost use Rattle.grid_store.specs.Given.{participant_in};

use crate::dues::Due;
use grid_model::Prepare;
use grid_store::Store;
use score_base::{Cause, Ident, Memory, NodeId, Record, TryCopy};

/// What a participant answers to a Prepare.
pub enum Judged {
    /// Nothing: the transaction ended here.
    Done,
    /// The same yes: the transaction is pending here with this proposal.
    Again(Ident),
    /// A no, and its cause.
    No(Cause),
    /// A yes is due, behind this record.
    Yes(Due, Record),
}

/// The record of a yes with the proposal `p`.
fn record_for(from: NodeId, prepare: &Prepare, p: Ident) -> Result<Record, Memory>
    ensures { IfOk result (λ rec. rec ≡ vote_record from prepare.now p) }
{
    Ok(Record::Prepared {
        t: prepare.t,
        home: from,
        parts: prepare.parts.copy()?,
        sid: prepare.sid,
        p,
        reads: prepare.reads.copy()?,
        writes: prepare.writes.copy()?,
    })
}

/// Why a transaction is refused: the least holder of its keys, else the first newer version.
fn refusal(store: &Store, prepare: &Prepare) -> Option<Cause>
    ensures { let r = store.now.journal in let q = prepare.now in
        result ≡ refusal (holder r q.t q.reads q.writes) (newer r q.reads q.sid) }
{
    let (reads, writes) = (prepare.reads.as_slice(), prepare.writes.as_slice());
    if let Some(u) = store.holder(reads, writes, prepare.t) {
        return Some(Cause::Holder(u));
    }
    match store.newer(reads, prepare.sid) {
        Some((key, f)) => Some(Cause::Newer(key, f)),
        None => None,
    }
}

/// The yes that is due, with room for its record, on a transaction that is new here and not refused.
fn yes(store: &mut Store, from: NodeId, prepare: &Prepare) -> Result<(Due, Record), Memory>
    requires fit { CanJudge store.old prepare.now }
    requires new { prepared_of prepare.now.t store.old.journal ≡ None }
    requires free { let r = store.old.journal in let q = prepare.now in
        refusal (holder r q.t q.reads q.writes) (newer r q.reads q.sid) ≡ None }
    ensures due { IfOk result (λ x. IsDue store.new from prepare.now x.0 x.1) }
    ensures same { IsSame store.old store.new }
{
    let p = store.propose(prepare.sid);
    let rec = record_for(from, prepare, p)?;
    store.reserve(&rec)?;
    Ok((Due::made(prepare.t, from, p), rec))
}

/// What a fit Prepare from `from` asks of a store: nothing exactly where its transaction ended here, the
/// same yes exactly where it is pending, and else a no exactly where another transaction holds a key
/// against it or a key that it read has a newer version. Only the room of the store changes, also after
/// [`Memory`]; with a yes the record has its room.
pub fn judge(store: &mut Store, from: NodeId, prepare: &Prepare) -> Result<Judged, Memory>
    requires { CanJudge store.old prepare.now }
    ensures done { IfOk result (λ j. is_done j ≡ is_some (ended prepare.now.t store.old.journal)) }
    ensures again { IfOk result (λ j. again_in j ≡ again_of prepare.now.t store.old.journal) }
    ensures no { IfOk result (λ j. refusal_in j ≡ refusal_of store.old.journal prepare.now) }
    ensures yes { IfOk result (λ j. IfYes j (IsDue store.new from prepare.now)) }
    ensures same { IsSame store.old store.new }
    ensures row { IfOk result (λ j. judge_outs store.old.node from prepare.now.t j
        ≡ prepare_outs store.old.node (participant_in store.old) from prepare.now) }
{
    let t = prepare.t;
    if store.ended(t).is_some() {
        return Ok(Judged::Done);
    }
    if let Some(p) = store.pending(t) {
        return Ok(Judged::Again(p));
    }
    if let Some(why) = refusal(store, prepare) {
        return Ok(Judged::No(why));
    }
    let (due, rec) = yes(store, from, prepare)?;
    Ok(Judged::Yes(due, rec))
}
