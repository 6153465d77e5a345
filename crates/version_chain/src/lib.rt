//! The versions of one key at one node, and of all its keys.
//!
//! A version has an identifier and a value. Version 0 is the initial value, so every version that is
//! put has an identifier above 0, and above all that were put before it. In contracts a chain is the
//! record of its initial value, its versions in rising order, and `spare`, the number of versions
//! for which there is room. A read at an identifier sees the greatest version at or below it.
//!
//! A read halves what is left: in a chain of n versions it compares p identifiers, where 2^p is at
//! most 2n + 1. A put goes at the end and moves no version.
//!
//! [`Chains`] keeps a chain for each key that began to have one, and finds it by the key. Room for more
//! keys is blank chains that no look-up passes.
//!
//! Only `reserve` and `widen` take memory.
#![tactic(auto)]

ghost use Rattle.std.specs.Prelude.{◌≡◌, ℕ, ◌+◌, ◌-◌, ◌*◌, ◌<◌, ◌≤◌, ◌^◌, ◌++◌, ◌∷◌, [], length, slice_index_or, OnOk, IfOk, IfErr};
ghost use Rattle.std.specs.Ordering.{nat_cmp};
ghost use Rattle.score_base.specs.Tables.{IsGap};
ghost use Rattle.version_chain.specs.Versions.{newest_in_chain, version_in_chain, RisesFrom};

use score_base::{Ident, Memory, Ordered, Steps, Value};
use std::alloc::Global;
use std::cmp::Ordering;
use std::marker::Model;
use std::sync::ledger::Ledger;

mod chains;

pub use chains::Chains;

/// The versions of one key, the newest last.
#[derive(Drop, Debug)]
pub struct Chain {
    initial: Value,
    versions: Ordered<Ident, Value>,
}

impl Model for Chain {
    ghost use Rattle.version_chain.specs.Versions.{Versions, RisesFrom};

    ghost Value = { Versions };

    ghost view = { λ c. record { initial = c.initial; versions = c.versions.pairs; spare = c.versions.spare } };

    ghost invariant = { λ c. RisesFrom 0 c.versions.pairs };
}

impl Chain {
    /// The chain of a key that has its initial value alone.
    pub fn new(alloc: Global, initial: Value) -> Chain
        ensures initial { result.initial ≡ initial }
        ensures versions { result.versions ≡ [] }
    {
        Chain {
            initial,
            versions: Ordered::new(alloc),
        }
    }

    /// Gives another initial value.
    pub fn start(&mut self, initial: Value)
        ensures { self.new ≡ record self.old { initial = initial } }
    {
        self.initial = initial;
    }

    /// Makes room for `n` more versions. After [`Memory`] there is at least the room that was there
    /// before, and in either case all else is as before.
    pub fn reserve(&mut self, n: usize) -> Result<(), Memory>
        ensures room { OnOk result (n ≤ self.new.spare) }
        ensures kept { self.old.spare ≤ self.new.spare }
        ensures initial { self.new.initial ≡ self.old.initial }
        ensures versions { self.new.versions ≡ self.old.versions }
    {
        self.versions.reserve(n)
    }

    /// Puts a version that is newer than all others.
    pub fn put(&mut self, vn: Ident, value: Value)
        requires room { 1 ≤ self.old.spare }
        requires above { newest_in_chain self.old.versions < vn }
        ensures versions { self.new.versions ≡ self.old.versions ++ (vn, value) ∷ [] }
        ensures initial { self.new.initial ≡ self.old.initial }
        ensures spare { self.old.spare ≤ self.new.spare + 1 }
    {
        self.versions.insert(self.versions.len(), vn, value);
    }

    /// The version that a read at `sid` sees: the greatest at or below it.
    pub fn at(&self, sid: Ident) -> (Ident, Value)
        ensures version { result ≡ version_in_chain self.now.initial self.now.versions sid }
        ensures rising { RisesFrom 0 self.now.versions }
    {
        self.seen(self.versions.place(&sid), sid)
    }

    /// As [`Chain::at`], and counts its comparisons.
    pub fn at_counted<L: Ledger>(&self, sid: Ident, steps: &mut Steps<L>) -> (Ident, Value)
        requires { steps.old < 2 ^ 62 }
        ensures version { result ≡ version_in_chain self.now.initial self.now.versions sid }
        ensures rising { RisesFrom 0 self.now.versions }
        ensures count { steps.old ≤ steps.new }
        ensures cost { 2 ^ (steps.new - steps.old) ≤ 2 * length self.now.versions + 1 }
    {
        self.seen(self.versions.find(&sid, steps), sid)
    }

    /// The identifier of the newest version, or 0 where there is none but the initial value.
    pub fn newest(&self) -> Ident
        ensures newest { result ≡ newest_in_chain self.now.versions }
        ensures rising { RisesFrom 0 self.now.versions }
    {
        match self.versions.len() {
            0 => Ident(0),
            n => self.versions.pair(n - 1).0,
        }
    }

    /// The version that a read at `sid` sees, whose look-up gave this place.
    fn seen(&self, place: Result<usize, usize>, sid: Ident) -> (Ident, Value)
        requires found { IfOk place (λ i. (i < length self.now.versions)
            × ((d : ℕ × ℕ) → nat_cmp (slice_index_or self.now.versions i d).0 sid ≡ Ordering.Equal)) }
        requires absent { IfErr place (λ i. IsGap nat_cmp self.now.versions sid i) }
        ensures { result ≡ version_in_chain self.now.initial self.now.versions sid }
    {
        match place {
            Ok(i) => self.versions.pair(i),
            Err(0) => (Ident(0), self.initial),
            Err(i) => self.versions.pair(i - 1),
        }
    }
}

#[cfg(test)]
mod tests;
