//! The model of the grid: documents, messages, acts, and what a lawful run is.
//!
//! The types are what a run reads (a [`Document`] with its [`Item`]s), what nodes say to one another
//! ([`Message`]), what is shown of a run ([`Act`]) and what a node is given and gives ([`Event`],
//! [`Out`]). The definitions stand in `specs/`: they speak of one list of acts, newest first inside,
//! and know no queue, table, clock field or byte. Laws over them are public functions without
//! parameters, whose contract is the law.
#![tactic(auto)]

mod acts;
mod documents;
mod events;
mod items;
mod laws;
mod messages;
mod stories;
mod voids;

pub use acts::{Act, Flag, Head};
pub use documents::{Document, ScriptList};
pub use events::{Event, Out};
pub use items::{Item, ItemList};
pub use laws::{law_disklog, law_next_view, law_state};
pub use messages::{Envelope, Message, Prepare, ReadRep, ReadReq};
pub use stories::{HeldRead, Progress, Story, Voted};
pub use voids::Void;
