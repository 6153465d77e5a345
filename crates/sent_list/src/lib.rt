//! The messages of a run: a network without time, whose messages arrive in any order, once, again or never.
//!
//! A [`SentList`] has every message that was sent, by its number from 1 on, and which of them are gone: got,
//! missed or dropped. It is the link of a run's nodes. `specs/SentLists.antt` says what each call makes of it;
//! [`law_sent`] says that the list is what the acts of a run tell: the messages sent, the messages gone, and
//! the next one that is left.
//!
//! A message is copied once when it is sent (the act that sends it is the other owner), and lent from the list.
//! The next message that is left is found without a search: a cursor stands behind the messages that are gone
//! from the first on, and moves over each once.
#![tactic(auto)]

mod laws;
mod lists;
mod marks;
mod posting;
#[cfg(test)]
mod tests;

pub use laws::law_sent;
pub use lists::SentList;
