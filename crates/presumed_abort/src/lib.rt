//! The home's side of a commit: the transactions that are open or decided here.
//!
//! A [`Desk`] keeps each transaction of its home that is reading, collecting or decided, in the order of
//! beginning. A transaction is one of the typed states, each consumed by its change. A change that rests
//! on a record is handed out with that record as a [`DeskDue`], and is made, and its outs are given, only
//! by the record's receipt; meanwhile its transaction is away from the desk.
#![tactic(auto)]

mod acks;
mod advances;
mod counts;
mod desks;
mod dues;
mod laws;
mod opens;
mod parts;
mod prepares;
mod readers;
mod replays;
mod replies;
mod requests;
mod retries;
mod stands;
mod states;
mod tallies;
mod turns;
mod votes;

pub use desks::Desk;
pub use dues::{DeskDue, DeskTurn, Due};
pub use laws::{
    law_ack_row, law_apart, law_ask_row, law_begin_row, law_fit, law_kept, law_opened,
    law_other_row, law_own_numbers, law_release, law_replay, law_reply_row, law_retry_row,
    law_unfit_row, law_vote_row,
};
pub use opens::Open;
pub use parts::Parts;
pub use stands::Stand;
pub use states::{Aborted, Closing, Collecting, Committed, Reading, Ready};
pub use tallies::{AckTally, Tally};
pub use turns::{Acked, Then, Turn, Voted};
