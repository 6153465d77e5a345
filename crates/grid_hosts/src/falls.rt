//! What is known of a node that is down, and what its opening tells.
ghost use Rattle.std.specs.Prelude.{◌≡◌, None};
ghost use Rattle.grid_hosts.specs.Hosts.{flag_told, found};

use grid_model::{Flag, Head};

/// What was known when a node went down.
#[derive(Clone, Copy, Debug, PartialEq, Eq)]
pub struct Fall {
    /// What was being written, where a device call failed then.
    pub head: Option<Head>,
    /// The number of records of the live file.
    pub count: u64,
    /// The generation of the live file.
    pub generation: u64,
}

impl Fall {
    /// The fall of a node that was never up.
    pub const fn first() -> Fall
        ensures { result ≡ record { head = None; count = 0; generation = 0 } }
    {
        Fall {
            head: None,
            count: 0,
            generation: 0,
        }
    }

    /// The fall of a node that goes down with so many records and this generation, at this head where a call failed.
    pub(crate) fn at(head: Option<Head>, count: u64, generation: u64) -> Fall
        ensures { result ≡ record { head = head; count = count; generation = generation } }
    {
        Fall {
            head,
            count,
            generation,
        }
    }

    /// What an opening with so many records and this generation tells: what was in doubt was found, or it
    /// is gone, or nothing was.
    pub fn told(self, count: u64, generation: u64) -> Flag
        ensures { result ≡ flag_told self count generation }
    {
        match self.head {
            None => Flag::Untouched,
            Some(Head::Compact) => found(self.generation < generation),
            Some(_) => found(self.count < count),
        }
    }
}

/// The flag where something was in doubt.
fn found(is_found: bool) -> Flag
    ensures { result ≡ found is_found }
{
    if is_found { Flag::Kept } else { Flag::Gone }
}
