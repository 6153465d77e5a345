/// The first line at fault, counted from 1, and why.
#[derive(Clone, Copy, Debug, PartialEq, Eq)]
pub struct Refusal {
    pub line: usize,
    pub why: u8,
}

/// Why no document was read.
#[derive(Clone, Copy, Debug, PartialEq, Eq)]
pub enum DocEnd {
    /// The text is no document.
    Refused(Refusal),
    /// No memory was found.
    Memory,
}
