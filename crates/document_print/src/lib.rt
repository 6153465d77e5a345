//! The one spelling of a document, and of each of its scripts, printed.
//!
//! [`print_document`] appends `spelling` of a document, as `cluster_file` defines it, and [`print_script`]
//! `script_text` of one script, as `script_lang` does; after want of memory `out` is as before. What is
//! printed is read back: `law_one_spelling` of `cluster_file` says that `doc` finds a document in its
//! spelling, where its keys and numbers are in the ranges of their types (`IsInRange`).
//! `law_script_spelling` of `script_lang` says that a script that was read is printed as the text that it
//! was read from.
#![tactic(auto)]

mod clusters;
mod documents;
mod items;
mod scripts;
#[cfg(test)]
mod tests;

pub use documents::print_document;
pub use scripts::print_script;
