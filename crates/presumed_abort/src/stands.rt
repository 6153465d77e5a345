//! Where a transaction stands at a desk.

use crate::states::{Collecting, Committed, Reading};

/// Where a transaction of the desk stands.
#[derive(Drop)]
pub enum Stand {
    Reading(Reading),
    Collecting(Collecting),
    Committed(Committed),
    /// What is due on it is out; this is its place in the order.
    Away,
}
