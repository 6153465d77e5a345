//! Where a transaction stands: the first remote read whose value it has not.
ghost use Rattle.std.specs.Prelude.{◌≡◌, ◌≤◌, is_some, length, IfSome};
ghost use Rattle.script_runs.specs.Waits.{value_taken, waiting};
ghost use Rattle.script_runs.specs.Waits.{is_waiting};
ghost use Rattle.script_runs.specs.Walks.{op_at};
ghost use Rattle.std.specs.Option.{option_copied};

use score_base::Value;
use script_lang::{Op, is_named};

/// Operation `j` of these, numbered from 1.
pub fn op_at(ops: &[Op], j: u8) -> Option<&Op>
    ensures { option_copied result ≡ op_at ops.now j }
{
    match j.checked_sub(1) {
        None => None,
        Some(i) => ops.get(i as usize),
    }
}

/// The value that was taken for an operation.
pub fn value_taken(values: &[(u8, Value)], op: u8) -> Option<Value>
    ensures { result ≡ value_taken op values.now }
{
    for pair in values {
        if pair.0 == op {
            return Some(pair.1);
        }
    }
    None
}

/// Whether a value was taken for the operation.
fn is_value_taken(op: usize, values: &[(u8, Value)]) -> bool
    ensures { result ≡ is_some (value_taken op values.now) }
{
    for pair in values {
        if pair.0 as usize == op {
            return true;
        }
    }
    false
}

/// Whether an operation waits for a reply, by the operations before it.
fn waits(values: &[(u8, Value)], j: usize, before: &[Op], op: &Op) -> bool
    ensures { result ≡ is_waiting values.now j before.now op.now }
{
    match op {
        Op::Read(key) => !is_named(*key, before) && !is_value_taken(j, values),
        Op::Write(_, _) => false,
    }
}

/// The first remote read without a taken value, by its number.
pub fn first_waiting(ops: &[Op], values: &[(u8, Value)]) -> Option<usize>
    ensures value { result ≡ waiting ops.now values.now }
    ensures inside { IfSome result (λ j. j ≤ length ops.now) }
{
    for i in 0..ops.len() {
        if waits(values, i + 1, &ops[..i], &ops[i]) {
            return Some(i + 1);
        }
    }
    None
}
