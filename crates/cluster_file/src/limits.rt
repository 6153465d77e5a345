//! The limits of a document: each keeps what a run of it takes in time and memory within bounds.

/// The partitions of a cluster: each costs a list of its nodes.
pub const MAX_PARTITIONS: usize = 64;

/// The keys that a document names: each of its nodes may hold all of them.
pub const MAX_KEYS: usize = 4_096;

/// The scripts of a document: each may be at its home at the same time.
pub const MAX_SCRIPTS: usize = 4_096;

/// The events of a schedule: each may add a record to a journal.
pub const MAX_EVENTS: u64 = 50_000;

/// The greatest number of a message, of events that one item takes, and of an image of a disk: each has
/// 32 bits.
pub const MAX_COUNT: u64 = 4_294_967_295;

/// The greatest number of the call at which a fuse stops a disk: a commit takes few calls.
pub const MAX_CALL: u64 = 1_000;
