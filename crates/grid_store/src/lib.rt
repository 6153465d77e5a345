//! A node's store: what its records say, answered from keepers.
//!
//! A store is given the records of one node, one after the other, each of which fits those before
//! it. In contracts it shows its node and its cluster, these records, the newest first, the `next` of
//! its clock, and its room: how many records may be admitted, how many keys they may lock, and of
//! which keys how many versions they may write. It shows nothing of its keepers. Each reader's
//! contract is a word of `journal_words` over these records, so that whatever is proved of these words
//! holds of its answer.
//!
//! The pending queue has the proposals, the clock the floor, the queue of commits those that are not
//! applied yet, and the lock table the keys of who is pending or waits there. Two ordered tables have
//! the place of each Prepared record and how each transaction ended. A commit is applied, in order,
//! at the record that ends the last transaction pending at or below it, and its keys are free then.
//!
//! Each key has a chain of its versions. A commit puts what it wrote when it is applied: in the order of
//! the final identifiers, as its key was locked until then. A read looks up the key and then the
//! version, each by halving, and [`Store::at_counted`] counts these comparisons.
//!
//! `reserve` makes the room for a record, and then `admit` takes it in without memory. No reader takes
//! memory, and none walks the records.
#![tactic(auto)]

mod chained;
mod clocks;
mod fitness;
mod laws;
mod locks;
mod numbers;
mod opens;
mod outcomes;
mod pends;
mod places;
mod replays;
mod store;
mod tables;

pub use laws::law_home_room;
pub use replays::ReplayEnd;
pub use store::Store;

#[cfg(test)]
mod tests;
