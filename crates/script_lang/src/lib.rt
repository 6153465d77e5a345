//! Scripts: what a transaction reads and writes, and what its expressions mean.
//!
//! A script has a number, a home node and 1 to 32 operations. In contracts a [`Script`] is the record
//! `ScriptData` of its parts; that it is well formed is the invariant of the type. The words for the
//! value of an expression, for the keys of a script and for its remote reads stand in `specs/`.
//!
//! [`read_script`] reads a script by the grammar of `specs/ScriptLines.antt`, and [`expr_words`] an
//! expression by that of `specs/ExprWords.antt`; how they are written stands in `specs/Spelling.antt`.
//! The readers of words in [`words`] serve every format whose lines are words between single spaces, and
//! those of a script's lines in [`script_lines`] every text in which scripts stand: they go over the keys
//! that were named so far ([`names`]) and how many may be. What may stand at most is in [`limits`].
#![tactic(auto)]

pub mod expr_words;
mod exprs;
mod laws;
pub mod limits;
pub mod names;
mod reads;
pub mod script_lines;
mod script_texts;
mod scripts;
#[cfg(test)]
mod tests;
mod values;
mod whys;
pub mod words;

pub use exprs::{Atom, Expr, Step, StepList};
pub use laws::{law_expr_spelling, law_key_limit, law_known_keys, law_script_spelling};
pub use reads::{is_known, is_named, is_update, key_of, keys, read_keys, write_keys};
pub use script_texts::read_script;
pub use scripts::{Op, OpList, Script, ScriptDraft};
pub use values::{Reads, eval, has_each_key};
pub use whys::{At, LineEnd, ScriptEnd, Why};
