//! The text of a run: one line for each act, and the summary behind them.
//!
//! `specs/Acts.antt` says which words an act's line has, one case for each kind of act and message.
//! `specs/Text.antt` says what the summary tells, of each transaction and of each key at each of its
//! holders, and what the whole text is. Each call here appends exactly these bytes, and after want of
//! memory what was there before stands alone. The calls take any list of acts, lawful or not.
#![tactic(auto)]

mod acts;
mod history;
mod messages;
mod parts;
mod summary;
#[cfg(test)]
mod tests;
mod words;

pub use acts::write_act;
pub use history::write_history;
pub use summary::{
    add_numbers, key_set, put_final, put_undecided, put_version_line, write_summary,
};
pub use words::{put_count, put_key, put_node, put_tx, put_value, put_word};
