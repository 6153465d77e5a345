//! A document is played over disks, and the text of its run is written part by part.
//!
//! [`write_run`] writes the lines of the start row, then those of each event before the next event is played, then the
//! summary by the tally. No act is kept. `specs/Writing.antt` says what each of its ends leaves.
#![tactic(auto)]

mod events;
mod runs;

pub use runs::{RunEnd, write_run};
