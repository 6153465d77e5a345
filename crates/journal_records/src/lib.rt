//! Journal records: the bodies that a node's journal holds, both ways.
//!
//! `Record` is the type of `score_base`. In contracts `record_bytes` is the one spelling of a record:
//! its tag, 1 to 5, and the fields of its table, one behind the other. `IsRecord` says that numbers
//! are in their ranges and lists within their bounds, and `decode_of` is the record that a body is
//! the spelling of, whole. The tables are rows of field layouts, a row a tag, which the bodies of
//! [`encode`] and [`decode`] expand.
//!
//! The layer above may rely on this. [`encode`] appends the spelling, of at most 2,407 bytes, and
//! cannot fail where both its vectors have room for 4,096 bytes. [`decode`] gives the record that a
//! body spells and answers `None` exactly where it spells none; only bodies of tag 1 and 4, whose
//! records hold lists, take memory. No two records share a spelling ([`law_record_spelling`]).
#![tactic(auto)]

mod decoding;
mod encoding;
mod laws;
mod parts;
mod tables;

pub use decoding::decode;
pub use encoding::encode;
pub use laws::law_record_spelling;

#[cfg(test)]
mod tests;
