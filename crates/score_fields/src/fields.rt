//! The kinds of field, the data that stand for them, and tables of them.

use score_base::Key;

/// A kind of field.
#[derive(Clone, Copy, Debug, PartialEq, Eq)]
pub enum Field {
    /// A number of one byte.
    U8,
    /// A number of eight bytes, the highest first.
    U64,
    /// The number of an operation: one byte, from 1 to 32.
    Op,
    /// The number of a transaction: two bytes, the high one first, not 0.
    Tx,
    /// The number of a node: one byte, from 1 to 16.
    Node,
    /// A length byte from 1 to 32, and that many bytes, which are a key.
    Key,
    /// A count byte from 1 to 16, and that many nodes, rising.
    Nodes,
    /// A count byte from 0 to 32, and that many keys, each behind its length.
    Keys,
    /// A count byte from 0 to 32, and that many keys, each with a number of eight bytes behind it.
    Writes,
    /// Byte 0 for abort, or byte 1 and the final identifier in eight bytes for commit.
    Outcome,
    /// Byte 1 and a proposal in eight bytes; byte 2 and a transaction; or byte 3, a key and an
    /// identifier in eight bytes.
    Ballot,
    /// Byte 0 for a first read or 1 for a later one, and an identifier in eight bytes.
    Date,
}

/// What a field holds. Lists, outcomes, ballots and dates are told by where their bytes stand.
#[derive(Clone, Copy, Debug, PartialEq, Eq)]
pub enum Datum {
    /// A number of a field of kind `U8`, `U64`, `Op`, `Tx` or `Node`.
    Number(u64),
    /// A key.
    Key(Key),
    /// From where up to where the spelling of another kind of field stands in the bytes.
    Span(usize, usize),
}

/// A layout of records or messages: a tag and a table of fields.
#[derive(Clone, Copy, Debug)]
pub struct Layout<const N: usize> {
    pub tag: u8,
    pub fields: [Field; N],
}

/// What was taken from the front of some bytes: a datum for each field, and how many bytes it was.
#[derive(Clone, Copy, Debug)]
pub struct Taken<const N: usize> {
    pub values: [Datum; N],
    pub used: usize,
}
