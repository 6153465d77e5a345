//! The values that a transaction has read, and the value of an expression over them.
ghost use Rattle.std.specs.Prelude.{◌≡◌, IsTrue, OnOk, OnErr};
ghost use Rattle.std.specs.FinMap as map;
ghost use Rattle.script_lang.specs.Exprs.{atom_value, step_value, expr_value, all_in_atom, all_in_step, all_in_steps};
ghost use Rattle.script_lang.specs.Values.{value_in, has_each_key};

use crate::exprs::{Atom, Expr, Step};
use score_base::{Key, Memory, TryCopy, Value};
use std::alloc::Global;
use std::collections::BTreeMap;
use std::marker::Model;

/// The values that a transaction has read. Contracts see the finite map from keys to values.
#[derive(Drop)]
pub struct Reads {
    values: BTreeMap<Key, Value>,
}

impl Model for Reads {
    ghost use Rattle.std.specs.Coded.{coded_ℕ, coded_list};
    ghost use Rattle.std.specs.FinMap as map;
    ghost use Rattle.script_lang.specs.Values.{ReadValues};

    ghost Value = { ReadValues };

    ghost coded = { map.code (coded_list coded_ℕ) coded_ℕ };

    ghost view = { λ r. map.from_entries r.values.entries };
}

impl Reads {
    /// No key has a value.
    pub fn new(alloc: Global) -> Reads
        ensures { result ≡ map.empty }
    {
        Reads {
            values: BTreeMap::new(alloc),
        }
    }

    /// The key has this value from now on, and all others stay. After [`Memory`] all is as before.
    pub fn set(&mut self, key: Key, value: Value) -> Result<(), Memory>
        ensures ok { OnOk result (self.new ≡ map.insert self.old key value) }
        ensures err { OnErr result (self.new ≡ self.old) }
    {
        self.values.insert(key, value)?;
        Ok(())
    }

    /// The value of the key, where it has one.
    pub fn get(&self, key: &Key) -> Option<Value>
        ensures { result ≡ map.get self.now key.now }
    {
        self.values.get(key).copied()
    }

    fn value_of(&self, key: &Key) -> Value
        requires { IsTrue (map.contains_key self.now key.now) }
        ensures { result ≡ value_in self.now key.now }
    {
        self.get(key).unwrap()
    }
}

fn atom_value(atom: &Atom, reads: &Reads) -> Value
    requires { IsTrue (all_in_atom (map.contains_key reads.now) atom.now) }
    ensures { result ≡ atom_value (value_in reads.now) atom.now }
{
    match atom {
        Atom::Number(value) => *value,
        Atom::Key(key) => reads.value_of(key),
    }
}

fn step_value(value: Value, step: &Step, reads: &Reads) -> Value
    requires { IsTrue (all_in_step (map.contains_key reads.now) step.now) }
    ensures { result ≡ step_value (value_in reads.now) value step.now }
{
    match step {
        Step::Add(a) => Value(value.0.wrapping_add(atom_value(a, reads).0)),
        Step::Sub(a) => Value(value.0.wrapping_sub(atom_value(a, reads).0)),
        Step::Mul(a) => Value(value.0.wrapping_mul(atom_value(a, reads).0)),
        Step::Min(a) => value.min(atom_value(a, reads)),
        Step::Max(a) => value.max(atom_value(a, reads)),
        Step::Pick(a, b) => {
            if value.0 == 0 {
                atom_value(b, reads)
            } else {
                atom_value(a, reads)
            }
        }
    }
}

fn has_atom(atom: &Atom, reads: &Reads) -> bool
    ensures { result ≡ all_in_atom (map.contains_key reads.now) atom.now }
{
    match atom {
        Atom::Number(_) => true,
        Atom::Key(key) => reads.get(key).is_some(),
    }
}

fn has_step(step: &Step, reads: &Reads) -> bool
    ensures { result ≡ all_in_step (map.contains_key reads.now) step.now }
{
    match step {
        Step::Add(a) => has_atom(a, reads),
        Step::Sub(a) => has_atom(a, reads),
        Step::Mul(a) => has_atom(a, reads),
        Step::Min(a) => has_atom(a, reads),
        Step::Max(a) => has_atom(a, reads),
        Step::Pick(a, b) => has_atom(a, reads) && has_atom(b, reads),
    }
}

fn has_steps(steps: &[Step], reads: &Reads) -> bool
    ensures { result ≡ all_in_steps (map.contains_key reads.now) steps.now }
{
    for step in steps {
        if !has_step(step, reads) {
            return false;
        }
    }
    true
}

/// Whether each key of an expression has a value.
pub fn has_each_key(expr: &Expr, reads: &Reads) -> bool
    ensures { result ≡ has_each_key reads.now expr.now }
{
    has_atom(&expr.first, reads) && has_steps(expr.steps.as_slice(), reads)
}

/// The value of an expression: its first atom, then its steps from left to right, modulo 2^64.
pub fn eval(expr: &Expr, reads: &Reads) -> Value
    requires { IsTrue (has_each_key reads.now expr.now) }
    ensures { result ≡ expr_value (value_in reads.now) expr.now }
{
    let mut value = atom_value(&expr.first, reads);
    for step in expr.steps.as_slice() {
        value = step_value(value, step, reads);
    }
    value
}
