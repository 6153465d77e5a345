//! The words of what acts and messages carry: outcomes, causes, ballots, dates, heads of records.
ghost use Rattle.std.specs.Prelude.{◌≡◌, ◌++◌, OnOk};
ghost use Rattle.history_print.specs.Acts.{spaced, outcome_words, cause_words, ballot_words, date_words, flag_words, record_words, head_words};

use crate::words::{put_ident, put_key, put_tx, put_word};
use grid_model::{Flag, Head};
use score_base::{Ballot, Cause, Date, Memory, Outcome};

/// Appends how a transaction ended.
#[tactic(auto, unfolding(crate::specs::Acts::outcome_words))]
pub fn put_outcome(out: &mut Vec<u8>, outcome: &Outcome) -> Result<(), Memory>
    ensures { OnOk result (out.new.items ≡ out.old.items ++ spaced (outcome_words outcome.now)) }
{
    match outcome {
        Outcome::Commit(f) => {
            put_word(out, b"commit")?;
            put_ident(out, *f)
        }
        Outcome::Abort => put_word(out, b"abort"),
    }
}

/// Appends the cause of a no.
#[tactic(auto, unfolding(crate::specs::Acts::cause_words))]
pub fn put_cause(out: &mut Vec<u8>, cause: &Cause) -> Result<(), Memory>
    ensures { OnOk result (out.new.items ≡ out.old.items ++ spaced (cause_words cause.now)) }
{
    match cause {
        Cause::Holder(u) => {
            put_word(out, b"holder")?;
            put_tx(out, *u)
        }
        Cause::Newer(key, f) => {
            put_word(out, b"newer")?;
            put_key(out, key)?;
            put_ident(out, *f)
        }
    }
}

/// Appends a vote.
#[tactic(auto, unfolding(crate::specs::Acts::ballot_words))]
pub fn put_ballot(out: &mut Vec<u8>, ballot: &Ballot) -> Result<(), Memory>
    ensures { OnOk result (out.new.items ≡ out.old.items ++ spaced (ballot_words ballot.now)) }
{
    match ballot {
        Ballot::Yes(p) => {
            put_word(out, b"yes")?;
            put_ident(out, *p)
        }
        Ballot::No(cause) => {
            put_word(out, b"no")?;
            put_cause(out, cause)
        }
    }
}

/// Appends how a read request is dated.
#[tactic(auto, unfolding(crate::specs::Acts::date_words))]
pub fn put_date(out: &mut Vec<u8>, date: &Date) -> Result<(), Memory>
    ensures { OnOk result (out.new.items ≡ out.old.items ++ spaced (date_words date.now)) }
{
    match date {
        Date::First(sid0) => {
            put_word(out, b"first")?;
            put_ident(out, *sid0)
        }
        Date::At(sid) => {
            put_word(out, b"at")?;
            put_ident(out, *sid)
        }
    }
}

/// Appends what an opening found.
#[tactic(auto, unfolding(crate::specs::Acts::flag_words))]
pub fn put_flag(out: &mut Vec<u8>, flag: Flag) -> Result<(), Memory>
    ensures { OnOk result (out.new.items ≡ out.old.items ++ spaced (flag_words flag)) }
{
    match flag {
        Flag::Untouched => put_word(out, b"none"),
        Flag::Kept => put_word(out, b"kept"),
        Flag::Gone => put_word(out, b"gone"),
    }
}

/// Appends the head of a record.
#[tactic(auto, unfolding(crate::specs::Acts::record_words))]
pub fn put_record(out: &mut Vec<u8>, head: &Head) -> Result<(), Memory>
    ensures { OnOk result (out.new.items ≡ out.old.items ++ spaced (record_words head.now)) }
{
    match head {
        Head::Prepared(t, p) => {
            put_word(out, b"prepared")?;
            put_tx(out, *t)?;
            put_ident(out, *p)
        }
        Head::Ended(t, outcome) => {
            put_word(out, b"ended")?;
            put_tx(out, *t)?;
            put_outcome(out, outcome)
        }
        Head::Ceiling(c) => {
            put_word(out, b"ceiling")?;
            put_ident(out, *c)
        }
        Head::Decided(t, f) => {
            put_word(out, b"decided")?;
            put_tx(out, *t)?;
            put_ident(out, *f)
        }
        Head::Closed(t) => {
            put_word(out, b"closed")?;
            put_tx(out, *t)
        }
        Head::Compact => put_word(out, b"compact"),
    }
}

/// Appends the head of the record that was being written, or `none`.
#[tactic(auto, unfolding(crate::specs::Acts::head_words))]
pub fn put_head(out: &mut Vec<u8>, head: &Option<Head>) -> Result<(), Memory>
    ensures { OnOk result (out.new.items ≡ out.old.items ++ spaced (head_words head.now)) }
{
    match head {
        None => put_word(out, b"none"),
        Some(head) => put_record(out, head),
    }
}
