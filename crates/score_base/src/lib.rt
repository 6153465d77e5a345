//! Plain types of the grid, and the one spelling of numbers, keys, lines and words.
//!
//! Every other crate stands on this one. In contracts a [`NodeId`], a [`TxId`], an [`Ident`] and a
//! [`Value`] are numbers, a [`Key`] is its bytes, and a [`Members`] is the list of its members.
//! Want of memory is the answer [`Memory`] and comes for no other reason.
#![tactic(auto)]

mod causes;
mod ids;
mod keys;
mod lists;
mod memory;
mod numbers;
mod ordered;
mod records;
mod spans;
mod steps;

pub use causes::{Ballot, Cause, Date, Outcome};
pub use ids::{Ident, NodeId, TxId, Value};
pub use keys::Key;
pub use lists::{ByteList, KeyList, Members, NodeList, WriteList};
pub use memory::{Failed, Memory, TryCopy, append, push};
pub use numbers::{law_number_spelling, number, put_bytes, put_number};
pub use ordered::Ordered;
pub use records::Record;
pub use spans::{Span, lines, words};
pub use steps::Steps;

#[cfg(test)]
mod tests;
