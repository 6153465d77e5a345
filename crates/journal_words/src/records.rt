//! The words over one journal, as plain functions over its records in the order of time.
//!
//! Each contract is a definition of `specs/Journals`, which reads the newest record first: hence the
//! `reverse`. The functions walk the list and keep no table, queue or index; they say what every
//! faster keeper of a journal has to answer.

mod commits;
mod conflicts;
mod decisions;
mod endings;
mod fitting;
mod pairs;
mod proposals;
mod smaller;
mod values;

pub use commits::{commit_id, is_clear};
pub use conflicts::{holder, is_key_among, keys_in, newer};
pub use decisions::{
    Decided, decision, is_closed, later_decision, later_final, times_over, undone,
};
pub use endings::{ended, floor, names_part, pending};
pub use fitting::{are_own_keys, fits, is_among};
pub use pairs::PairList;
pub use proposals::{Prepared, home_of, prepared_of};
pub use smaller::small;
pub use values::{later, newest, newest_version, version_at, written_value};
