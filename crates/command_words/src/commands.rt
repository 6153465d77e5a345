//! What the words of the command line ask for.

/// A command.
#[derive(Clone, Copy, Debug, PartialEq, Eq)]
pub enum Command {
    /// The document on the input is run.
    Run,
    /// A document is made of a seed and a size, and run. The size is from 1 to [`MAX_SIZE`](crate::MAX_SIZE).
    Drill { seed: u64, size: u64 },
}

/// Why there is no command.
#[derive(Clone, Copy, Debug, PartialEq, Eq)]
pub enum NoCommand {
    /// The words ask for none.
    Usage,
    /// Want of memory.
    Memory,
}
