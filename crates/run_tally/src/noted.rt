//! What a tally notes of a Prepare.

use score_base::WriteList;

/// What a Prepare that was sent to a node writes there.
#[derive(Drop, Debug)]
pub struct Noted {
    pub writes: WriteList,
}
