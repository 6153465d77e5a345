//! Laws of the views that real nodes show: which of them stand for the view behind a run, and how an event moves them.
//!
//! The model says the rows of a run by the view of each node behind its acts. The live file of a node may hold
//! less than the journal: a compaction made it small. The two lists are alike, so a node shows the view behind the
//! run with its own list as the journal. The laws here say that such a view has the same rows, that its next view
//! is again one, which record an event writes, and what its acts leave of the other nodes and of the disks of its
//! own. Like the laws of `grid_laws`, each is a public function without parameters and with an empty body.
#![tactic(auto)]

mod alike;
mod behind;
mod opened;
mod others;
mod records;
mod rows;
mod turns;

pub use alike::law_alike_views;
pub use behind::law_behind_rows;
pub use opened::law_opened_view;
pub use others::law_other_views;
pub use records::law_same_records;
pub use rows::law_row_equations;
pub use turns::law_row_turns;
