//! An expression, read from the words of a line.
ghost use Rattle.std.specs.Prelude.{◌≡◌, [], map, drop, IfOk, IsTrue};
ghost use Rattle.script_lang.specs.Exprs.{is_expr_among};
ghost use Rattle.script_lang.specs.Reading.{Gives};
ghost use Rattle.script_lang.specs.Reads.{known_keys};
ghost use Rattle.script_lang.specs.ExprWords.{number_atom, known_atom, key_atom, atom_of, operator_of, atoms_behind, first_atom, two_atoms, step_of, steps_of, expr_of};

use crate::exprs::{Atom, Expr, Step, StepList};
use crate::limits::MAX_STEPS;
use crate::reads::is_known;
use crate::scripts::Op;
use crate::whys::{LineEnd, Why};
use crate::words::{begins_with_digit, is_word, key_of, word_at};
use score_base::{Key, Value, number};
use std::alloc::Global;

/// What stands between the atoms of an expression.
#[derive(Clone, Copy, Debug, PartialEq, Eq)]
pub enum Operator {
    Add,
    Sub,
    Mul,
    Min,
    Max,
    Pick,
}

#[tactic(auto, unfolding(crate::specs::ExprWords::number_atom))]
fn number_atom(word: &[u8]) -> Result<Atom, LineEnd>
    ensures { Gives (λ a. a) result (number_atom word.now) }
{
    match number(word) {
        Some(n) => Ok(Atom::Number(Value(n))),
        None => Err(LineEnd::Why(Why::Number)),
    }
}

fn known_atom(before: &[Op], key: Key) -> Result<Atom, LineEnd>
    ensures { Gives (λ a. a) result (known_atom (known_keys before.now) key) }
{
    if is_known(key, before) {
        Ok(Atom::Key(key))
    } else {
        Err(LineEnd::Why(Why::Unread))
    }
}

#[tactic(auto, unfolding(crate::specs::ExprWords::key_atom))]
fn key_atom(before: &[Op], word: &[u8]) -> Result<Atom, LineEnd>
    ensures { Gives (λ a. a) result (key_atom (known_keys before.now) word.now) }
{
    let key = key_of(word)?;
    known_atom(before, key)
}

#[tactic(auto, unfolding(crate::specs::ExprWords::atom_of))]
fn atom_of(before: &[Op], word: &[u8]) -> Result<Atom, LineEnd>
    ensures { Gives (λ a. a) result (atom_of (known_keys before.now) word.now) }
{
    if begins_with_digit(word) {
        number_atom(word)
    } else {
        key_atom(before, word)
    }
}

#[tactic(auto, unfolding(crate::specs::ExprWords::operator_of))]
fn operator_of(word: &[u8]) -> Result<Operator, LineEnd>
    ensures { Gives (λ o. o) result (operator_of word.now) }
{
    if is_word(word, b"+") {
        Ok(Operator::Add)
    } else if is_word(word, b"-") {
        Ok(Operator::Sub)
    } else if is_word(word, b"*") {
        Ok(Operator::Mul)
    } else if is_word(word, b"min") {
        Ok(Operator::Min)
    } else if is_word(word, b"max") {
        Ok(Operator::Max)
    } else if is_word(word, b"pick") {
        Ok(Operator::Pick)
    } else {
        Err(LineEnd::Why(Why::Word))
    }
}

#[tactic(auto, unfolding(crate::specs::ExprWords::first_atom))]
fn first_atom(before: &[Op], words: &[&[u8]]) -> Result<Atom, LineEnd>
    ensures { Gives (λ a. a) result (first_atom (known_keys before.now) (map (λ w. w.now) words.now)) }
{
    let (word, _) = word_at(words)?;
    atom_of(before, word)
}

#[tactic(auto, unfolding(crate::specs::ExprWords::two_atoms))]
fn two_atoms(before: &[Op], words: &[&[u8]]) -> Result<Step, LineEnd>
    ensures { Gives (λ s. s) result (two_atoms (known_keys before.now) (map (λ w. w.now) words.now)) }
{
    let (word, rest) = word_at(words)?;
    let first = atom_of(before, word)?;
    let second = first_atom(before, rest)?;
    Ok(Step::Pick(first, second))
}

#[tactic(auto, unfolding(crate::specs::ExprWords::step_of, crate::specs::ExprWords::one_atom))]
fn step_of(before: &[Op], operator: Operator, words: &[&[u8]]) -> Result<Step, LineEnd>
    ensures { Gives (λ s. s) result (step_of (known_keys before.now) operator (map (λ w. w.now) words.now)) }
{
    match operator {
        Operator::Add => Ok(Step::Add(first_atom(before, words)?)),
        Operator::Sub => Ok(Step::Sub(first_atom(before, words)?)),
        Operator::Mul => Ok(Step::Mul(first_atom(before, words)?)),
        Operator::Min => Ok(Step::Min(first_atom(before, words)?)),
        Operator::Max => Ok(Step::Max(first_atom(before, words)?)),
        Operator::Pick => two_atoms(before, words),
    }
}

/// The words behind the atoms of an operator.
fn behind_atoms<'a, 'b>(operator: Operator, words: &'a [&'b [u8]]) -> &'a [&'b [u8]]
    ensures { map (λ w. w.now) result.now ≡ drop (atoms_behind operator) (map (λ w. w.now) words.now) }
{
    match (operator, words) {
        (Operator::Pick, [_, _, rest @ ..]) => rest,
        (Operator::Pick, _) => &[],
        (_, [_, rest @ ..]) => rest,
        (_, []) => &[],
    }
}

#[tactic(auto, unfolding(crate::specs::ExprWords::steps_of))]
fn read_steps(alloc: Global, before: &[Op], words: &[&[u8]]) -> Result<StepList, LineEnd>
    ensures { Gives (λ ss. ss) result (steps_of (known_keys before.now) MAX_STEPS (map (λ w. w.now) words.now)) }
{
    let mut steps = StepList::new(alloc);
    let mut room = MAX_STEPS;
    let mut words = words;
    while let [word, rest @ ..] = words {
        let operator = operator_of(word)?;
        if room == 0 {
            return Err(LineEnd::Why(Why::Limit));
        }
        let step = step_of(before, operator, rest)?;
        steps.push(step)?;
        room -= 1;
        words = behind_atoms(operator, rest);
    }
    Ok(steps)
}

/// The expression that these words spell, over the keys that the operations before it have read.
#[tactic(auto, unfolding(crate::specs::ExprWords::expr_of))]
pub fn read_expr(alloc: Global, before: &[Op], words: &[&[u8]]) -> Result<Expr, LineEnd>
    ensures known { IfOk result (λ e. IsTrue (is_expr_among (known_keys before.now) e)) }
    ensures value { Gives (λ e. e) result (expr_of (known_keys before.now) (map (λ w. w.now) words.now)) }
{
    let (word, rest) = word_at(words)?;
    let first = atom_of(before, word)?;
    let steps = read_steps(alloc, before, rest)?;
    Ok(Expr { first, steps })
}
