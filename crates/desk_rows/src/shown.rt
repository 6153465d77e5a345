//! Whether an out is the one that is wanted.

use grid_model::{Act, Message, Out};
use score_base::{Date, Ident, Outcome, Value};

pub fn is_began(out: &Out, t: u16, home: u8, sid0: u64) -> bool {
    match out {
        Out::Act(Act::Began(u, n, sid)) => {
            u.number == t && n.number == home && *sid == Ident(sid0)
        }
        _ => false,
    }
}

pub fn is_request(out: &Out, to: u8, op: u8, key: &[u8], date: Date) -> bool {
    match out {
        Out::Send(n, Message::ReadReq(q)) => {
            n.number == to && q.op == op && q.key.bytes() == key && q.date == date
        }
        _ => false,
    }
}

pub fn is_taken(out: &Out, op: u8, value: u64) -> bool {
    match out {
        Out::Act(Act::Taken(t, j, sid, v)) => {
            t.number == 1 && *j == op && *sid == Ident(0) && *v == Value(value)
        }
        _ => false,
    }
}

/// A Prepare with so many parts and read keys, and with these writes at most.
pub fn is_prepare(out: &Out, to: u8, parts: usize, reads: usize, writes: &[(&[u8], u64)]) -> bool {
    match out {
        Out::Send(n, Message::Prepare(q)) => {
            n.number == to
                && q.parts.len() == parts
                && q.reads.len() == reads
                && q.writes.len() == writes.len()
                && are_written(q.writes.as_slice(), writes)
        }
        _ => false,
    }
}

fn are_written(found: &[(score_base::Key, Value)], wanted: &[(&[u8], u64)]) -> bool {
    match (found, wanted) {
        ([], []) => true,
        ([(key, value)], [(k, v)]) => key.bytes() == *k && *value == Value(*v),
        ([a, b], [c, d]) => is_written(a, c) && is_written(b, d),
        _ => false,
    }
}

fn is_written(found: &(score_base::Key, Value), wanted: &(&[u8], u64)) -> bool {
    found.0.bytes() == wanted.0 && found.1 == Value(wanted.1)
}

pub fn is_decided(out: &Out, f: u64) -> bool {
    match out {
        Out::Act(Act::Decided(t, g)) => t.number == 1 && *g == Ident(f),
        _ => false,
    }
}

pub fn is_finished(out: &Out) -> bool {
    match out {
        Out::Act(Act::Finished(t)) => t.number == 1,
        _ => false,
    }
}

pub fn is_closed(out: &Out) -> bool {
    match out {
        Out::Act(Act::Closed(t)) => t.number == 1,
        _ => false,
    }
}

pub fn is_aborted(out: &Out, t: u16, by: u8) -> bool {
    match out {
        Out::Act(Act::Aborted(u, n, _)) => u.number == t && n.number == by,
        _ => false,
    }
}

pub fn is_told(out: &Out, to: u8, outcome: Outcome) -> bool {
    match out {
        Out::Send(n, Message::Tell { t, outcome: o }) => {
            n.number == to && t.number == 1 && *o == outcome
        }
        _ => false,
    }
}

/// The commit at 1: decided, finished, and told to both nodes.
pub fn is_commit(outs: &[Out]) -> bool {
    match outs {
        [decided, finished, first, second] => {
            is_decided(decided, 1)
                && is_finished(finished)
                && is_told(first, 1, Outcome::Commit(Ident(1)))
                && is_told(second, 2, Outcome::Commit(Ident(1)))
        }
        _ => false,
    }
}
