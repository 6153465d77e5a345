//! The limits of scripts and of what they name.

/// The nodes that there can be: a record lists them, and a list of all of them stays short.
pub const MAX_NODES: u8 = 16;

/// The greatest number of a transaction: it has 16 bits, and 0 is none.
pub const MAX_TX: u16 = 65_535;

/// The greatest number of a session: it has 16 bits, and 0 is none.
pub const MAX_SESSION: u16 = 65_535;

/// The operations of a script: few enough that what it reads and writes fits into one record.
pub const MAX_OPS: usize = 32;

/// The steps of an expression: one fits into a line, and its value takes few operations.
pub const MAX_STEPS: usize = 16;
