//! Laws of the nodes of a run: what each call of a host leaves is what the acts say.
//!
//! A node of a run *stands* behind acts where it is up and shows the view behind them, or is down and can be opened
//! again, and its disks hold its list (`specs/Standing.antt`). The laws say that each call of a host keeps this, by the
//! acts of the row that the call is; that the outs of a step are the row's; and that the disks did what they promise
//! (`specs/Turns.antt`). Behind the start each node stands that was opened from two new disks (`specs/Starts.antt`). The
//! laws speak of every document and of every history.
#![tactic(auto)]

mod events;
mod openings;
mod others;
mod starts;
mod stops;

pub use events::law_host_events;
pub use openings::law_host_openings;
pub use others::law_host_others;
pub use starts::law_host_start;
pub use stops::law_host_stops;
