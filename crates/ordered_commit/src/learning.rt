//! What an end that is told asks of a store.

ghost use Rattle.std.specs.Prelude.{◌≡◌, true, IfOk, is_some};
ghost use Rattle.journal_words.specs.Journals.{pending, is_commit};
ghost use Rattle.grid_model.specs.Rows.{end_outs};
ghost use Rattle.grid_store.specs.Given.{IsSame};
ghost use Rattle.ordered_commit.specs.Ends.{repeat_of, ack_of, ack_in, is_due, learn_outs, CanLearn, IsDue, IfDue};
ghost use Rattle.grid_store.specs.Given.{participant_in};

use crate::dues::EndDue;
use grid_store::Store;
use score_base::{Memory, NodeId, Outcome, Record, TxId};

/// What a participant answers where it is told how a transaction ended.
pub enum Learnt {
    /// An end is due, behind this record.
    Due(EndDue, Record),
    /// The commit is acknowledged to this home once more.
    Ack(NodeId),
    /// Nothing.
    Ignore,
}

/// Whether the outcome is a commit.
fn is_commit(outcome: &Option<Outcome>) -> bool
    ensures { result ≡ is_commit outcome.now }
{
    match outcome {
        Some(Outcome::Commit(_)) => true,
        _ => false,
    }
}

/// To whom a commit is acknowledged that is told of a transaction that ended here.
fn repeat_of(store: &Store, t: TxId, outcome: &Outcome) -> Option<NodeId>
    ensures { result ≡ repeat_of t outcome.now store.now.journal }
{
    if is_commit(&Some(*outcome)) && is_commit(&store.ended(t)) {
        store.home(t)
    } else {
        None
    }
}

/// The end that is due, with room for its record, on a transaction that is pending here.
fn due(store: &mut Store, t: TxId, outcome: &Outcome) -> Result<(EndDue, Record), Memory>
    requires fit { CanLearn store.old t outcome.now }
    requires pending { is_some (pending t store.old.journal) ≡ true }
    ensures due { IfOk result (λ x. IsDue store.new t outcome.now x.0 x.1) }
    ensures same { IsSame store.old store.new }
{
    let home = store.home(t).unwrap();
    let rec = Record::Ended {
        t,
        outcome: *outcome,
    };
    store.reserve(&rec)?;
    Ok((EndDue::made(t, outcome, home), rec))
}

/// What the end of a transaction asks of a store: an end is due exactly where it is pending here, a
/// commit is acknowledged exactly where it ended here with commit, and all else is ignored. Only the
/// room of the store changes, also after [`Memory`]; with an end that is due the record has its room.
pub fn learn(store: &mut Store, t: TxId, outcome: Outcome) -> Result<Learnt, Memory>
    requires { CanLearn store.old t outcome }
    ensures due { IfOk result (λ l. is_due l ≡ is_some (pending t store.old.journal)) }
    ensures ack { IfOk result (λ l. ack_in l ≡ ack_of t outcome store.old.journal) }
    ensures end { IfOk result (λ l. IfDue l (IsDue store.new t outcome)) }
    ensures same { IsSame store.old store.new }
    ensures row { IfOk result (λ l. learn_outs store.old.node t outcome l
        ≡ end_outs store.old.node (participant_in store.old) t outcome) }
{
    if store.pending(t).is_some() {
        let (due, rec) = due(store, t, &outcome)?;
        return Ok(Learnt::Due(due, rec));
    }
    match repeat_of(store, t, &outcome) {
        Some(home) => Ok(Learnt::Ack(home)),
        None => Ok(Learnt::Ignore),
    }
}
