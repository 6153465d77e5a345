use grid_model::{ItemList, ScriptList};
use score_base::{Key, Members, NodeList, TxId, WriteList};
use script_lang::ScriptDraft;
use script_lang::words::NodeCount;
use std::collections::BTreeSet;

/// How far a document was read: which lines may come next.
#[derive(Clone, Copy, Debug, PartialEq, Eq)]
pub enum Part {
    /// Nothing was read.
    Start,
    /// The number of nodes.
    Nodes,
    /// At least one partition.
    Partitions,
    /// At least one initial value.
    Inits,
    /// At least the first line of a script.
    Scripts,
    /// The line that begins the schedule.
    Items,
}

/// What was read of a document. Beside its parts stand, for quick look-up, the keys that were named
/// and the numbers of the scripts.
#[derive(Drop)]
pub struct Draft {
    pub part: Part,
    pub nodes: NodeCount,
    pub places: Members<NodeList>,
    pub inits: WriteList,
    pub scripts: ScriptList,
    /// The script whose lines are being read.
    pub script: Option<ScriptDraft>,
    pub items: ItemList,
    pub events: u64,
    pub known: BTreeSet<Key>,
    pub numbers: BTreeSet<TxId>,
}
