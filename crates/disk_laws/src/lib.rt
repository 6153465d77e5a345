//! Laws of runs over disks: what the two disks of a node promise, call by call, keeps a run lawful, and at its end
//! the disks hold what was acknowledged.
//!
//! Each law is a public function without parameters and with an empty body, whose contract is the law. They speak
//! of what the disks show (`Shown` and `Seats` of `specs/Shown.antt`): their files, what is left of their fuses,
//! and their own counts of faults. [`law_lawful`] goes from event to event, by what the disks with a part in an act
//! promise of it. What stands of the two disks of a node between events is `StandsUp` and `StandsDown` of
//! `specs/Seats.antt`; each call of `specs/Calls.antt` goes from one to the other and promises its act
//! ([`law_seats_up`], [`law_seats_down`], [`law_seats_new`]), and all other acts leave it ([`law_seats_event`]).
//! [`law_rises`] adds up what the counts rose by. Behind a run the disks hold the logs of their nodes, and in these
//! each finished update ([`law_holds`]).
#![tactic(auto)]

mod events;
mod holds;
mod lawful;
mod rises;
mod seats_down;
mod seats_new;
mod seats_up;

pub use events::law_seats_event;
pub use holds::law_holds;
pub use lawful::law_lawful;
pub use rises::law_rises;
pub use seats_down::law_seats_down;
pub use seats_new::law_seats_new;
pub use seats_up::law_seats_up;
