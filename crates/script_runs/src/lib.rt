//! What a script does alone, and by the values that were taken for its remote reads.
//!
//! A script names neither node nor message: run alone it reads and writes one map (`specs/Serials`). Run
//! by a transaction, each remote read waits for a value ([`first_waiting`]), and [`walk`] goes over the
//! operations as far as values were taken: the own reads on the way and the transaction's own map.
#![tactic(auto)]

mod trails;
mod waits;

pub use trails::{Trail, walk};
pub use waits::{first_waiting, op_at, value_taken};
