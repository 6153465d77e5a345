//! A node: its two disks with the journal on the live one, the store of its records, the reads that it
//! holds, and the desk of its home. One event is one step, and one step is one row of the rule table.
//!
//! [`Node::step`] gives exactly the outs that the model's row has on each view that the node shows, and
//! then shows the next view; `Shows` says when a node shows a view, and a node shows its own
//! ([`Node::law_shown`]). What a step writes is one record, or a compaction; a step that is stopped there
//! gives the two disks back, and each crash image of them has the list before it, or the list behind it.
//! A step takes its memory before it writes: behind a receipt nothing wants memory.
#![tactic(auto)]

mod answers;
mod compacting;
mod ends;
mod fitness;
mod heads;
mod homes;
mod links;
mod nodes;
mod opening;
mod plays;
mod prepares;
mod reads;
mod steps;
mod tells;

pub use ends::{Opened, Stepped};
pub use heads::head_of;
pub use links::{Link, LinkEnd, post_all};
pub use nodes::Node;
