//! The chains of a node's keys, each found by its key.

ghost use Rattle.std.specs.Prelude.{◌≡◌, ℕ, ◌+◌, ◌-◌, ◌*◌, ◌^◌, ◌<◌, ◌≤◌, ◌++◌, ◌∷◌, ◌||◌, [], length, None, Some, is_some, true, false, OnOk, IfSome, if◌then◌else◌};
ghost use Rattle.std.specs.Ordering.{nat_cmp};
ghost use Rattle.std.specs.Cmp.Lexicographic.{slice_cmp};
ghost use Rattle.score_base.specs.declared.keys.Key.{Key};
ghost use Rattle.score_base.specs.declared.ids.Value.{Value};
ghost use Rattle.score_base.specs.Keys.{same_key};
ghost use Rattle.score_base.specs.Tables.{IsRising};
ghost use Rattle.version_chain.specs.Versions.{newest_in_chain, version_in_chain, RisesFrom};
ghost use Rattle.version_chain.specs.Kept.{AreTwoLookups, place_of, chain_of, versions_in, versions_of, spare_of, initial_in, StartsBy, IsLonger};

use crate::Chain;
use score_base::{Ident, Key, Memory, Ordered, Steps, Value};
use std::alloc::Global;
use std::marker::Model;
use std::sync::ledger::Ledger;

/// A chain for each key that began to have one, and blank chains for keys to come. Contracts see the
/// places of the keys, the chains, and how many keys more may get a chain.
#[derive(Drop)]
pub struct Chains {
    places: Ordered<Key, usize>,
    chains: Vec<Chain>,
}

impl Model for Chains {
    ghost use Rattle.std.specs.Prelude.{◌-◌, min, length};
    ghost use Rattle.version_chain.specs.Kept.{Kept, ArePlaces};

    ghost Value = { Kept };

    ghost view = { λ c. record {
      places = c.places.pairs;
      chains = c.chains.items;
      fresh = min c.places.spare (length c.chains.items - length c.places.pairs);
    } };

    ghost invariant = { λ c. ArePlaces c.places.pairs c.chains.items };
}

impl Chains {
    /// No key has a chain.
    pub fn new(alloc: Global) -> Chains
        ensures { result.places ≡ [] }
    {
        Chains {
            places: Ordered::new(alloc),
            chains: Vec::new(alloc),
        }
    }

    /// Makes room for a version of a key, where it has a chain. Also after [`Memory`] each key has the
    /// versions that it had, and at least the room.
    pub fn reserve(&mut self, key: &Key) -> Result<(), Memory>
        ensures room { OnOk result (is_some (place_of key.now self.new.places) ≡ true → 1 ≤ spare_of key.now self.new) }
        ensures kept { (k : Key) → spare_of k self.old ≤ spare_of k self.new }
        ensures versions { (k : Key) → versions_of k self.new ≡ versions_of k self.old }
        ensures places { self.new.places ≡ self.old.places }
        ensures fresh { self.new.fresh ≡ self.old.fresh }
        ensures initial { (init : Key → Value) → StartsBy init self.old → StartsBy init self.new }
    {
        match self.place(key) {
            Some(i) => {
                let chain = &mut self.chains[i];
                chain.reserve(1)
            }
            None => Ok(()),
        }
    }

    /// Makes room for the chains of `n` keys more. Also after [`Memory`] each key has the chain that it had.
    pub fn widen(&mut self, n: usize) -> Result<(), Memory>
        ensures room { OnOk result (n ≤ self.new.fresh) }
        ensures kept { self.old.fresh ≤ self.new.fresh }
        ensures places { self.new.places ≡ self.old.places }
        ensures chains { (k : Key) → chain_of k self.new ≡ chain_of k self.old }
    {
        self.places.reserve(n)?;
        match self.places.len().checked_add(n) {
            Some(total) => lengthen(&mut self.chains, total),
            None => Err(Memory),
        }
    }

    /// A key that has no chain gets one, with this initial value and room for a version.
    pub fn begin(&mut self, key: &Key, initial: Value)
        requires { place_of key.now self.old.places ≡ None → 1 ≤ self.old.fresh }
        ensures room { place_of key.now self.old.places ≡ None → 1 ≤ spare_of key.now self.new }
        ensures kept { (k : Key) → spare_of k self.old ≤ spare_of k self.new }
        ensures versions { (k : Key) → versions_of k self.new ≡ versions_of k self.old }
        ensures keys { (k : Key) → is_some (place_of k self.new.places)
            ≡ (same_key k key.now || is_some (place_of k self.old.places)) }
        ensures fresh { is_some (place_of key.now self.old.places) ≡ true → self.new.fresh ≡ self.old.fresh }
        ensures used { self.old.fresh ≤ self.new.fresh + 1 }
        ensures initial { (init : Key → Value) →
            init key.now ≡ initial → StartsBy init self.old → StartsBy init self.new }
    {
        if let Err(i) = self.places.place(key) {
            let n = self.places.len();
            let chain = &mut self.chains[n];
            chain.start(initial);
            self.places.insert(i, *key, n);
        }
    }

    /// Where the chain of a key is.
    fn place(&self, key: &Key) -> Option<usize>
        ensures place { result ≡ place_of key.now self.now.places }
        ensures inside { IfSome result (λ i. i < length self.now.chains) }
    {
        match self.places.place(key) {
            Ok(i) => Some(self.places.pair(i).1),
            Err(_) => None,
        }
    }

    /// Puts a version of a key that is newer than its others.
    pub fn put(&mut self, key: &Key, vn: Ident, value: Value)
        requires room { 1 ≤ spare_of key.now self.old }
        requires above { newest_in_chain (versions_of key.now self.old) < vn }
        ensures versions { (k : Key) → versions_of k self.new ≡ (if same_key k key.now
            then versions_of k self.old ++ (vn, value) ∷ [] else versions_of k self.old) }
        ensures room { (k : Key) → same_key k key.now ≡ false → spare_of k self.old ≤ spare_of k self.new }
        ensures places { self.new.places ≡ self.old.places }
        ensures fresh { self.new.fresh ≡ self.old.fresh }
        ensures initial { (init : Key → Value) → StartsBy init self.old → StartsBy init self.new }
    {
        if let Some(i) = self.place(key) {
            let chain = &mut self.chains[i];
            chain.put(vn, value);
        }
    }

    /// The version of a key that a read at `sid` sees: the greatest at or below it, or the initial one,
    /// whose value this is where the key has no chain. Counts its comparisons: those of keys, and those
    /// of identifiers.
    pub fn at_counted<L: Ledger>(
        &self,
        key: &Key,
        initial: Value,
        sid: Ident,
        steps: &mut Steps<L>,
    ) -> (Ident, Value)
        requires { steps.old < 2 ^ 61 }
        ensures version { let chain = chain_of key.now self.now in
            result ≡ version_in_chain (initial_in initial chain) (versions_in chain) sid }
        ensures rising { RisesFrom 0 (versions_of key.now self.now) }
        ensures keys { IsRising (slice_cmp nat_cmp) self.now.places }
        ensures count { steps.old ≤ steps.new }
        ensures cost { AreTwoLookups (length self.now.places) (length (versions_of key.now self.now))
            (steps.new - steps.old) }
    {
        match self.find(key, steps) {
            Some(i) => self.chains[i].at_counted(sid, steps),
            None => (Ident(0), initial),
        }
    }

    /// As [`Chains::place`], and counts its comparisons of keys.
    fn find<L: Ledger>(&self, key: &Key, steps: &mut Steps<L>) -> Option<usize>
        requires { steps.old < 2 ^ 61 }
        ensures place { result ≡ place_of key.now self.now.places }
        ensures inside { IfSome result (λ i. i < length self.now.chains) }
        ensures keys { IsRising (slice_cmp nat_cmp) self.now.places }
        ensures count { steps.old ≤ steps.new }
        ensures cost { 2 ^ (steps.new - steps.old) ≤ 2 * length self.now.places + 1 }
        ensures small { steps.new < 2 ^ 62 }
    {
        if self.places.len() == 0 {
            return None;
        }
        match self.places.find(key, steps) {
            Ok(i) => Some(self.places.pair(i).1),
            Err(_) => None,
        }
    }

    /// The identifier of the newest version of a key, or 0.
    pub fn newest(&self, key: &Key) -> Ident
        ensures newest { result ≡ newest_in_chain (versions_of key.now self.now) }
        ensures rising { RisesFrom 0 (versions_of key.now self.now) }
    {
        match self.place(key) {
            Some(i) => self.chains[i].newest(),
            None => Ident(0),
        }
    }
}

/// A blank chain more.
fn add(chains: &mut Vec<Chain>) -> Result<(), Memory>
    ensures len { OnOk result (length chains.new.items ≡ length chains.old.items + 1) }
    ensures longer { IsLonger chains.old.items chains.new.items }
{
    let mut chain = Chain::new(*chains.allocator(), Value(0));
    chain.reserve(1)?;
    chains.reserve(1)?;
    chains.push_reserved(chain);
    Ok(())
}

/// Blank chains behind these, up to `n` in all.
fn lengthen(chains: &mut Vec<Chain>, n: usize) -> Result<(), Memory>
    ensures len { OnOk result (n ≤ length chains.new.items) }
    ensures longer { IsLonger chains.old.items chains.new.items }
{
    for _ in chains.len()..n {
        add(chains)?;
    }
    Ok(())
}
