//! Why an event changes nothing.
ghost use Rattle.std.specs.Prelude.{◌≡◌};
ghost use Rattle.grid_model.specs.Voids.{void_code};

/// Why an event changes nothing.
#[derive(Clone, Copy, Debug, PartialEq, Eq)]
pub enum Void {
    /// The transaction was begun before.
    Begun,
    /// The home of the transaction is down.
    HomeDown,
    /// No message of this number was sent yet.
    NotSent,
    /// No message is left to be delivered.
    NoneLeft,
    /// The transaction waits for nothing.
    NothingOwed,
    /// The node is down, or the transaction is not pending there.
    NotPending,
    /// The node is down already.
    IsDown,
    /// The node is up already.
    IsUp,
    /// A transaction of the same session is reading or collecting.
    SessionBusy,
    /// The node that is asked is no part of the transaction.
    NotPart,
    /// The node is down, so its journal is not made small.
    NotUp,
}

impl Void {
    /// Its number in [`Act::Void`](crate::Act::Void).
    pub fn code(self) -> u8
        ensures { result ≡ void_code self }
    {
        match self {
            Void::Begun => 1,
            Void::HomeDown => 2,
            Void::NotSent => 3,
            Void::NoneLeft => 4,
            Void::NothingOwed => 5,
            Void::NotPending => 6,
            Void::IsDown => 7,
            Void::IsUp => 8,
            Void::SessionBusy => 9,
            Void::NotPart => 10,
            Void::NotUp => 11,
        }
    }
}
