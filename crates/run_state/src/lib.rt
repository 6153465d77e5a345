//! What a run has told so far: its messages, its nodes, its transactions, kept act by act.
//!
//! A [`RunState`] is the run of a document so far: contracts see its document and its acts alone, and
//! each reader answers what the model's words say behind those acts. Nodes are plain: a
//! [`PlainNode`] has its records in a list.
#![tactic(auto)]

mod changes;
mod marks;
mod plain_nodes;
mod scripts;
mod states;
mod stories;

pub use plain_nodes::PlainNode;
pub use scripts::{parts_at, script_of};
pub use states::RunState;
pub use stories::{begun, has_voted, is_small, is_small_node, with_value};
