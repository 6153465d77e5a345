//! The text of a run, part by part: the lines of its start row, those of each event, and the summary.
//!
//! [`write_acts`] and [`write_tally`] build a part whole and append it by one whole write. `specs/Parts.antt`
//! says what the parts of a text are (`text_parts`, `IsPart`), `specs/Streams.antt` what a sink got where one was
//! not written whole (`AppendsBehind`), and `specs/Answers.antt` what the two ends of the writing of a run mean,
//! over what is claimed of its acts (`BrokenPart`, `SomeParts`). The layer above plays one event after the other
//! and writes each part before the next event is played; [`law_parts`] and [`law_appends_behind`] give what
//! stands behind each of its turns, and [`law_text_parts`] the text behind all.
#![tactic(auto)]

mod laws;
mod lines;
mod parts;
mod summary;

pub use laws::{law_appends_behind, law_parts, law_text_parts};
pub use lines::write_acts;
pub use parts::PartEnd;
pub use summary::write_tally;

#[cfg(test)]
mod tests;
