//! The document format: the document that some bytes spell, or the first line at fault and why.
//!
//! A document is lines of words: `nodes N`, `partition i n..`, `init k v`, scripts from `tx t n` or
//! `tx t n session s` to `end`, `schedule`, and items. `doc` in `specs/` is the format: it reads a text
//! line by line and each line word by word, and [`read_document`] is proved equal to it. `spelling`
//! there writes the words of a document; [`law_one_spelling`] says that `doc` finds a document in its
//! spelling and in no other bytes.
#![tactic(auto)]

mod documents;
mod drafts;
mod items;
mod laws;
mod limits;
mod lines;
#[cfg(test)]
mod tests;
mod whys;

pub use documents::read_document;
pub use laws::{law_limits, law_one_spelling};
pub use whys::{DocEnd, Refusal};
