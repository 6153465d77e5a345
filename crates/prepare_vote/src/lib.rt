//! A participant that is asked to vote.
//!
//! [`judge`] says what a Prepare asks of a store: nothing, where the transaction ended here; the same
//! yes once more, where it is pending; a no, where another transaction holds one of its keys against
//! it or a key that it read has a newer version; else a yes. Then the record of the yes is handed out
//! with a [`Due`], which can be neither copied nor dropped. [`Due::vote`] turns it into the vote, against
//! the journal's receipt of that record, and so no yes leaves a node that did not keep its record.
//!
//! In contracts the answers are said by the words of `journal_words` over the store's records, and
//! `judge_outs` is what they make of the row of the rule table.
#![tactic(auto)]

mod dues;
mod judges;
mod laws;

pub use dues::Due;
pub use judges::{Judged, judge};
pub use laws::law_prepare;
