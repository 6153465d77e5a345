//! The law of counts: how many messages the events of a run send, and how many reads its nodes hold.
//!
//! The law is a public function without parameters and with an empty body, whose contract is the law. It
//! speaks of every run of a document that is cut behind one of its events, whatever its disks choose, and of
//! what a node gives behind any list of acts of which the counts hold. A program that numbers messages in 32
//! bits and holds reads in a list rests on it.
#![tactic(auto)]

mod laws;

pub use laws::law_few;
