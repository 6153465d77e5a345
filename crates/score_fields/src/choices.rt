//! Outcomes, ballots and dates: past them, out of their spelling, and into it.

ghost use Rattle.std.specs.Prelude.{◌≡◌, ◌+◌, ◌≤◌, ◌<◌, ◌++◌, length, option_map, IfSome, IfOk, OnOk, OnErr, vec_len, vec_capacity};
ghost use Rattle.score_fields.specs.Spelling.{IsSpelling, IsOutcome, outcome_bytes, IsBallot, ballot_bytes, IsDate, date_bytes};
ghost use Rattle.score_base.specs.declared.causes.Ballot.TheVariants.{No};
ghost use Rattle.score_fields.specs.Reading.{first_outcome, first_ballot, first_date};

use crate::front;
use crate::room::{make_room, put_byte, put_eight, put_key, put_two};
use score_base::{Ballot, Cause, Date, Ident, Key, Memory, Outcome, TxId};

/// What stands behind the outcome that stands first.
#[tactic(auto, unfolding(crate::specs::Reading::first_outcome))]
pub fn past_outcome(bytes: &[u8]) -> Option<&[u8]>
    ensures shorter { IfSome result (λ r. length r.now < length bytes.now) }
    ensures value { option_map (λ r. r.now) result ≡ option_map (λ x. x.1) (first_outcome bytes.now) }
{
    match bytes {
        [0, rest @ ..] => Some(rest),
        [1, rest @ ..] => {
            let (_, rest) = front::eight(rest)?;
            Some(rest)
        }
        _ => None,
    }
}

/// What stands behind the ballot that stands first.
#[tactic(auto, unfolding(crate::specs::Reading::first_ballot))]
pub fn past_ballot(bytes: &[u8]) -> Option<&[u8]>
    ensures shorter { IfSome result (λ r. length r.now < length bytes.now) }
    ensures value { option_map (λ r. r.now) result ≡ option_map (λ x. x.1) (first_ballot bytes.now) }
{
    match bytes {
        [1, rest @ ..] => {
            let (_, rest) = front::eight(rest)?;
            Some(rest)
        }
        [2, rest @ ..] => {
            let (_, rest) = front::tx(rest)?;
            Some(rest)
        }
        [3, rest @ ..] => {
            let (_, _, rest) = front::write(rest)?;
            Some(rest)
        }
        _ => None,
    }
}

/// What stands behind the date that stands first.
#[tactic(auto, unfolding(crate::specs::Reading::first_date))]
pub fn past_date(bytes: &[u8]) -> Option<&[u8]>
    ensures shorter { IfSome result (λ r. length r.now < length bytes.now) }
    ensures value { option_map (λ r. r.now) result ≡ option_map (λ x. x.1) (first_date bytes.now) }
{
    match bytes {
        [0 | 1, rest @ ..] => {
            let (_, rest) = front::eight(rest)?;
            Some(rest)
        }
        _ => None,
    }
}

#[tactic(auto, unfolding(crate::specs::Reading::first_outcome))]
fn outcome(bytes: &[u8]) -> Option<Outcome>
    ensures { result ≡ option_map (λ x. x.0) (first_outcome bytes.now) }
{
    match bytes {
        [0, ..] => Some(Outcome::Abort),
        [1, rest @ ..] => {
            let (f, _) = front::eight(rest)?;
            Some(Outcome::Commit(Ident(f)))
        }
        _ => None,
    }
}

#[tactic(auto, unfolding(crate::specs::Reading::first_ballot))]
fn ballot(bytes: &[u8]) -> Option<Ballot>
    ensures { result ≡ option_map (λ x. x.0) (first_ballot bytes.now) }
{
    match bytes {
        [1, rest @ ..] => {
            let (p, _) = front::eight(rest)?;
            Some(Ballot::Yes(Ident(p)))
        }
        [2, rest @ ..] => {
            let (t, _) = front::tx(rest)?;
            Some(Ballot::No(Cause::Holder(TxId { number: t })))
        }
        [3, rest @ ..] => {
            let (key, f, _) = front::write(rest)?;
            Some(Ballot::No(Cause::Newer(Key::new(key)?, Ident(f))))
        }
        _ => None,
    }
}

#[tactic(auto, unfolding(crate::specs::Reading::first_date))]
fn date(bytes: &[u8]) -> Option<Date>
    ensures { result ≡ option_map (λ x. x.0) (first_date bytes.now) }
{
    match bytes {
        [0, rest @ ..] => {
            let (sid, _) = front::eight(rest)?;
            Some(Date::First(Ident(sid)))
        }
        [1, rest @ ..] => {
            let (sid, _) = front::eight(rest)?;
            Some(Date::At(Ident(sid)))
        }
        _ => None,
    }
}

/// The outcome that the bytes spell.
pub fn read_outcome(bytes: &[u8]) -> Outcome
    requires { IsSpelling IsOutcome outcome_bytes bytes.now }
    ensures fits { IsOutcome result }
    ensures value { bytes.now ≡ outcome_bytes result }
{
    match outcome(bytes) {
        Some(outcome) => outcome,
        None => unreachable!(),
    }
}

/// The ballot that the bytes spell.
pub fn read_ballot(bytes: &[u8]) -> Ballot
    requires { IsSpelling IsBallot ballot_bytes bytes.now }
    ensures fits { IsBallot result }
    ensures value { bytes.now ≡ ballot_bytes result }
{
    match ballot(bytes) {
        Some(ballot) => ballot,
        None => unreachable!(),
    }
}

/// The date that the bytes spell.
pub fn read_date(bytes: &[u8]) -> Date
    requires { IsSpelling IsDate date_bytes bytes.now }
    ensures fits { IsDate result }
    ensures value { bytes.now ≡ date_bytes result }
{
    match date(bytes) {
        Some(date) => date,
        None => unreachable!(),
    }
}

/// Appends the spelling of an outcome. After [`Memory`] `out` is as before, and it had no room for it.
#[tactic(auto, using(crate::proofs::Lengths::lengths))]
pub fn put_outcome(out: &mut Vec<u8>, outcome: Outcome) -> Result<(), Memory>
    ensures fits { OnOk result (IsOutcome outcome) }
    ensures ok { OnOk result (out.new.items ≡ out.old.items ++ outcome_bytes outcome) }
    ensures err { OnErr result (out.new.items ≡ out.old.items) }
    ensures capacity { vec_capacity out.old ≤ vec_capacity out.new }
    ensures full { OnErr result (vec_capacity out.old < vec_len out.old + length (outcome_bytes outcome)) }
{
    match outcome {
        Outcome::Abort => {
            make_room(out, 1)?;
            put_byte(out, 0);
        }
        Outcome::Commit(f) => {
            make_room(out, 9)?;
            put_byte(out, 1);
            put_eight(out, f.0);
        }
    }
    Ok(())
}

#[tactic(auto, using(crate::proofs::Lengths::lengths))]
fn put_no(out: &mut Vec<u8>, cause: Cause) -> Result<(), Memory>
    ensures fits { OnOk result (IsBallot (No cause)) }
    ensures ok { OnOk result (out.new.items ≡ out.old.items ++ ballot_bytes (No cause)) }
    ensures err { OnErr result (out.new.items ≡ out.old.items) }
    ensures capacity { vec_capacity out.old ≤ vec_capacity out.new }
    ensures full { OnErr result (vec_capacity out.old < vec_len out.old + length (ballot_bytes (No cause))) }
{
    match cause {
        Cause::Holder(t) => {
            make_room(out, 3)?;
            put_byte(out, 2);
            put_two(out, t.get());
        }
        Cause::Newer(key, f) => {
            make_room(out, 10 + key.bytes().len())?;
            put_byte(out, 3);
            put_key(out, &key);
            put_eight(out, f.0);
        }
    }
    Ok(())
}

/// Appends the spelling of a ballot. After [`Memory`] `out` is as before, and it had no room for it.
#[tactic(auto, using(crate::proofs::Lengths::lengths))]
pub fn put_ballot(out: &mut Vec<u8>, ballot: Ballot) -> Result<(), Memory>
    ensures fits { OnOk result (IsBallot ballot) }
    ensures ok { OnOk result (out.new.items ≡ out.old.items ++ ballot_bytes ballot) }
    ensures err { OnErr result (out.new.items ≡ out.old.items) }
    ensures capacity { vec_capacity out.old ≤ vec_capacity out.new }
    ensures full { OnErr result (vec_capacity out.old < vec_len out.old + length (ballot_bytes ballot)) }
{
    match ballot {
        Ballot::Yes(p) => {
            make_room(out, 9)?;
            put_byte(out, 1);
            put_eight(out, p.0);
        }
        Ballot::No(cause) => put_no(out, cause)?,
    }
    Ok(())
}

/// Appends the spelling of a date. After [`Memory`] `out` is as before, and it had no room for it.
#[tactic(auto, using(crate::proofs::Lengths::lengths))]
pub fn put_date(out: &mut Vec<u8>, date: Date) -> Result<(), Memory>
    ensures fits { OnOk result (IsDate date) }
    ensures ok { OnOk result (out.new.items ≡ out.old.items ++ date_bytes date) }
    ensures err { OnErr result (out.new.items ≡ out.old.items) }
    ensures capacity { vec_capacity out.old ≤ vec_capacity out.new }
    ensures full { OnErr result (vec_capacity out.old < vec_len out.old + length (date_bytes date)) }
{
    make_room(out, 9)?;
    match date {
        Date::First(sid) => {
            put_byte(out, 0);
            put_eight(out, sid.0);
        }
        Date::At(sid) => {
            put_byte(out, 1);
            put_eight(out, sid.0);
        }
    }
    Ok(())
}
