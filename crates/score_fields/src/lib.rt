//! Field layouts: one codec for any table of fields, both ways.
//!
//! What a grid stores or sends is a [`Layout`]: a tag byte and a table of [`Field`]s. A [`Datum`]
//! stands for a field's value: a number, a key, or a span, that is where the spelling of a list, an
//! outcome, a ballot or a date stands in some bytes. In contracts the *meaning* of a datum at some
//! bytes is its number, its key, or the bytes of its span; `layout_bytes` is the spelling of a table
//! of meanings, and `data_at` gives the data of meanings that stand one behind the other.
//!
//! The layer above may rely on this. [`Layout::put`] appends the spelling of what the values mean.
//! [`Layout::take`] takes the spelling that stands first, whatever follows, with each span where its
//! bytes stand, and answers `None` exactly where nothing that stands first is spelled so. No spelling
//! of a table begins another ([`law_field_spelling`]), so what was put is what is taken. `take` and the
//! calls that read a choice take no memory. A call that appends fails only where the buffer has no
//! room for the spelling, and leaves the buffer as before.
#![tactic(auto)]

mod choices;
mod fields;
mod front;
mod laws;
mod layout;
mod lists;
mod room;

pub use choices::{put_ballot, put_date, put_outcome, read_ballot, read_date, read_outcome};
pub use fields::{Datum, Field, Layout, Taken};
pub use laws::law_field_spelling;
pub use lists::{list_keys, list_nodes, list_writes, put_keys, put_nodes, put_writes};

#[cfg(test)]
mod tests;
