use score_base::{Ident, Value};

/// A version of a key at a node.
#[derive(Clone, Copy, Debug, PartialEq, Eq)]
pub struct Version {
    /// The final identifier of its writer; 0 for the initial version.
    pub ident: Ident,
    /// The number of its writer; 0 for the initial version.
    pub of: u16,
    pub value: Value,
}
