//! The limit of a drill.

/// The greatest size of a drill: with this many transactions its events stay within those of a document.
pub const MAX_SIZE: u64 = 1_000;
