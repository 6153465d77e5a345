//! The clock of a node: two numbers, the floor and `next`.
//!
//! The floor bounds what the node has promised and what its journal holds: a read at or below the
//! floor needs no further promise. Every proposal is above `next`, and `next` is at least every
//! identifier that the clock has learnt or was raised to. The two are independent: a promise raises
//! the floor alone, a read raises `next` alone.
//!
//! In contracts a clock is the record of its `floor` and its `next`, and a ceiling is the least
//! multiple of `STEP` at or above an identifier. No call takes memory. `needs` and `propose` make a
//! greater number out of those that they are given, so these are below 2^22 there; every other call
//! takes any identifier.
#![tactic(auto)]

ghost use Rattle.std.specs.Prelude.{◌≡◌, ◌+◌, ◌^◌, ◌<◌, ◌≤◌, ◌↔◌, IsTrue, IsNone, IfSome, max};
ghost use Rattle.node_clock.specs.Clock.{IsCeiling};

use score_base::Ident;
use std::marker::Model;

/// A node's floor and its `next`. Ceilings are multiples of `STEP`.
#[derive(Drop, Debug)]
pub struct NodeClock<const STEP: u64> {
    floor: Ident,
    next: Ident,
}

impl<const STEP: u64> Model for NodeClock<STEP> {
    ghost use Rattle.node_clock.specs.Clock.{Clock};

    ghost Value = { Clock };

    ghost view = { λ c. record { floor = c.floor; next = c.next } };
}

impl<const STEP: u64> NodeClock<STEP> {
    /// The clock of a new node: both numbers are 0.
    pub fn new() -> NodeClock<STEP>
        ensures floor { result.floor ≡ 0 }
        ensures next { result.next ≡ 0 }
    {
        NodeClock {
            floor: Ident(0),
            next: Ident(0),
        }
    }

    /// The floor.
    pub fn floor(&self) -> Ident
        ensures { result ≡ self.now.floor }
    {
        self.floor
    }

    /// The number above which the next proposal is.
    pub fn next(&self) -> Ident
        ensures { result ≡ self.now.next }
    {
        self.next
    }

    /// The ceiling that has to be promised before a read at `sid` may be answered; `None` exactly
    /// where `sid` is at most the floor.
    pub fn needs(&self, sid: Ident) -> Option<Ident>
        requires step { 1 ≤ STEP }
        requires sid { sid < 2 ^ 22 }
        requires next { self.now.next < 2 ^ 22 }
        ensures none { IsNone result ↔ (sid ≤ self.now.floor) }
        ensures ceiling { IfSome result (IsCeiling STEP sid) }
    {
        if sid <= self.floor {
            return None;
        }
        Some(Ident(ceiling(sid.0, STEP)))
    }

    /// Promises reads up to `c`: the floor becomes the greater of itself and `c`.
    pub fn promise(&mut self, c: Ident)
        ensures floor { self.new.floor ≡ max self.old.floor c }
        ensures next { self.new.next ≡ self.old.next }
    {
        self.floor = self.floor.max(c);
    }

    /// Raises `next` to `sid`, where it is below; tells whether it rose.
    pub fn raise(&mut self, sid: Ident) -> bool
        ensures rose { IsTrue result ↔ (self.old.next < self.new.next) }
        ensures next { self.new.next ≡ max self.old.next sid }
        ensures floor { self.new.floor ≡ self.old.floor }
    {
        let rises = self.next < sid;
        self.next = self.next.max(sid);
        rises
    }

    /// The proposal for a transaction with the snapshot identifier `sid`: above `sid` and above
    /// `next`, and no greater than that asks.
    pub fn propose(&self, sid: Ident) -> Ident
        requires sid { sid < 2 ^ 22 }
        requires next { self.now.next < 2 ^ 22 }
        ensures { result ≡ 1 + max self.now.next sid }
    {
        Ident(1 + self.next.max(sid).0)
    }

    /// Learns a proposal or a final identifier: floor and `next` become at least `x`.
    pub fn learn(&mut self, x: Ident)
        ensures floor { self.new.floor ≡ max self.old.floor x }
        ensures next { self.new.next ≡ max self.old.next x }
    {
        self.floor = self.floor.max(x);
        self.next = self.next.max(x);
    }

    /// What a restart does: `next` becomes the greater of itself and the floor.
    pub fn restart(&mut self)
        ensures next { self.new.next ≡ max self.old.next self.old.floor }
        ensures floor { self.new.floor ≡ self.old.floor }
    {
        self.next = self.next.max(self.floor);
    }
}

/// The least multiple of `step` that is at least `n`.
fn ceiling(n: u64, step: u64) -> u64
    requires step { 1 ≤ step }
    requires small { n < 2 ^ 22 }
    ensures { IsCeiling step n result }
{
    let over = n % step;
    if over == 0 { n } else { n - over + step }
}

#[cfg(test)]
mod tests {
    use super::*;

    // A read at 1 promises 64, and so a proposal after a restart is 65.
    #[test]
    fn promise_then_restart(rt: HostRuntime) {
        let mut clock = NodeClock::<64>::new();
        assert_eq!(rt; clock.needs(Ident(0)), None);
        assert_eq!(rt; clock.needs(Ident(1)), Some(Ident(64)));
        clock.promise(Ident(64));
        assert_eq!(rt; clock.floor(), Ident(64));
        assert_eq!(rt; clock.next(), Ident(0));
        assert!(rt; clock.raise(Ident(1)));
        assert!(rt; !clock.raise(Ident(1)));
        assert_eq!(rt; clock.propose(Ident(1)), Ident(2));
        clock.restart();
        assert_eq!(rt; clock.propose(Ident(1)), Ident(65));
        clock.learn(Ident(65));
        assert_eq!(rt; clock.floor(), Ident(65));
        assert_eq!(rt; clock.next(), Ident(65));
        assert_eq!(rt; clock.needs(Ident(65)), None);
        assert_eq!(rt; clock.needs(Ident(128)), Some(Ident(128)));
    }
}
