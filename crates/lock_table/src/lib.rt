//! The keys that transactions hold at one node.
//!
//! A transaction takes its keys with its yes vote. It holds them until it is aborted or until what it
//! committed is applied. Two transactions conflict where they share a key that at least one of the
//! two writes. In contracts a table is the record of the keys that each transaction holds, of those
//! among them that it writes (two sets of pairs of a transaction and a key), and of `spare`, the
//! number of keys for which there is room.
//!
//! The locks stand in a table in the order of their keys, those on one key in the order of their
//! transactions. `holder` finds the locks on a key by halving and goes over these alone. `take` puts the
//! keys of its transaction in order and merges them into the table in one pass from its end, which moves
//! each lock behind the least of them once; `free` goes over the table once. The contracts say what is
//! answered, not what it costs.
//!
//! Only `reserve` takes memory.
#![tactic(auto)]

ghost use Rattle.std.specs.Prelude.{◌≡◌, ◌≢◌, ℕ, ◌+◌, ◌≤◌, ◌↔◌, ◌==◌, ◌&&◌, ◌||◌, not, nat_eq, List, length, min, IsTrue, IsNone, Some, IfSome, MatchOption, OnOk};
ghost use Rattle.std.specs.List.{list_any};
ghost use Rattle.std.specs.FinSet as set;
ghost use Rattle.lock_table.specs.Keys.{is_read, is_written, holds_lock, writes_key, Conflicts, IsHolder};
ghost use Rattle.std.specs.Cmp.Lexicographic.{pointwise};
ghost use Rattle.score_base.specs.Tables.{IsRising};
ghost use Rattle.lock_table.specs.Table.{locks_of, holds_in, writes_in, blocks_in, by_key, AreNumbered, IsStart, IsLeastOther};

use score_base::{Key, Memory, Ordered, TxId, Value};
use std::alloc::Global;
use std::marker::Model;

/// The keys that transactions hold.
#[derive(Drop, Debug)]
pub struct Locks {
    locks: Ordered<(Key, TxId), bool>,
    // The keys that are being taken, and else none.
    taken: Ordered<(Key, TxId), bool>,
}

impl Model for Locks {
    ghost use Rattle.std.specs.Prelude.{◌≡◌, [], min};
    ghost use Rattle.std.specs.FinSet as set;
    ghost use Rattle.lock_table.specs.Keys.{Held, held_code};
    ghost use Rattle.lock_table.specs.Table.{locks_of, places, written_places, AreNumbered};

    ghost Value = { Held };

    ghost coded = { held_code };

    ghost view = { λ h. record {
      keys = set.from_list (places (locks_of h.locks.pairs));
      written = set.from_list (written_places (locks_of h.locks.pairs));
      spare = min h.locks.spare h.taken.spare;
    } };

    ghost invariant = { λ h. (AreNumbered h.locks.pairs) × (h.taken.pairs ≡ []) };
}

impl Locks {
    /// No transaction holds a key.
    pub fn new(alloc: Global) -> Locks
        ensures keys { result.keys ≡ set.empty }
        ensures written { result.written ≡ set.empty }
    {
        Locks {
            locks: Ordered::new(alloc),
            taken: Ordered::new(alloc),
        }
    }

    /// Makes room for `n` more keys. After [`Memory`] there is at least the room that was there
    /// before, and in either case all else is as before.
    pub fn reserve(&mut self, n: usize) -> Result<(), Memory>
        ensures room { OnOk result (n ≤ self.new.spare) }
        ensures kept { self.old.spare ≤ self.new.spare }
        ensures keys { self.new.keys ≡ self.old.keys }
        ensures written { self.new.written ≡ self.old.written }
    {
        self.locks.reserve(n)?;
        self.taken.reserve(n)
    }

    /// The least transaction other than `t` that holds a key of these lists, where it writes the key
    /// or they do; `None` exactly where there is no such transaction.
    pub fn holder(&self, reads: &[Key], writes: &[(Key, Value)], t: TxId) -> Option<TxId>
        ensures none { IsNone result ↔ ((u : ℕ) → u ≢ t → ¬ Conflicts self.now reads.now writes.now u) }
        ensures holder { IfSome result (IsHolder self.now reads.now writes.now t) }
    {
        lesser(
            least_on_writes(&self.locks, writes, t),
            least_on_reads(&self.locks, reads, t),
        )
    }

    /// `t` takes the keys of these lists, in one pass from the end of the table.
    pub fn take(&mut self, reads: &[Key], writes: &[(Key, Value)], t: TxId)
        requires free { (u : ℕ) → u ≢ t → ¬ Conflicts self.old reads.now writes.now u }
        requires idle { (k : List ℕ) → ¬ IsTrue (holds_lock self.old t k) }
        requires room { length reads.now + length writes.now ≤ self.old.spare }
        ensures keys { (u : ℕ) (k : List ℕ) → holds_lock self.new u k
            ≡ (holds_lock self.old u k || (u == t && (is_read reads.now k || is_written writes.now k))) }
        ensures written { (u : ℕ) (k : List ℕ)
            → writes_key self.new u k ≡ (writes_key self.old u k || (u == t && is_written writes.now k)) }
        ensures spare { self.old.spare ≤ self.new.spare + length reads.now + length writes.now }
    {
        take_writes(&mut self.taken, writes, t);
        take_reads(&mut self.taken, reads, t);
        self.locks.merge(&self.taken);
        self.taken.clear();
    }

    /// `t` holds no key any more, and all others hold what they held. One pass over the table.
    pub fn free(&mut self, t: TxId)
        ensures keys { (u : ℕ) (k : List ℕ) → holds_lock self.new u k ≡ (not (u == t) && holds_lock self.old u k) }
        ensures written { (u : ℕ) (k : List ℕ) → writes_key self.new u k ≡ (not (u == t) && writes_key self.old u k) }
        ensures spare { self.old.spare ≤ self.new.spare }
    {
        self.locks.retain(|lock| (lock.0).1 != t);
    }
}

/// The least transaction other than `t` that holds a key which this list writes.
fn least_on_writes(
    locks: &Ordered<(Key, TxId), bool>,
    writes: &[(Key, Value)],
    t: TxId,
) -> Option<TxId>
    requires { AreNumbered locks.now.pairs }
    ensures { IsLeastOther (λ u. list_any (λ w. holds_in (locks_of locks.now.pairs) u w.0) writes.now) t result }
{
    let mut least = None;
    for write in writes {
        least = lesser(least, least_on_key(locks, &write.0, true, t));
    }
    least
}

/// The least transaction other than `t` that writes a key which this list reads.
fn least_on_reads(locks: &Ordered<(Key, TxId), bool>, reads: &[Key], t: TxId) -> Option<TxId>
    requires { AreNumbered locks.now.pairs }
    ensures { IsLeastOther (λ u. list_any (λ k. writes_in (locks_of locks.now.pairs) u k) reads.now) t result }
{
    let mut least = None;
    for key in reads {
        least = lesser(least, least_on_key(locks, key, false, t));
    }
    least
}

/// The least transaction other than `t` whose lock on a key blocks who reads it, or who writes it. The
/// locks on a key stand side by side, in the order of their transactions.
fn least_on_key(
    locks: &Ordered<(Key, TxId), bool>,
    key: &Key,
    writes: bool,
    t: TxId,
) -> Option<TxId>
    requires { AreNumbered locks.now.pairs }
    ensures { IsLeastOther (λ u. blocks_in writes (locks_of locks.now.pairs) u key.now) t result }
{
    for i in first_on_key(locks, key)..locks.len() {
        let lock = locks.pair(i);
        if (lock.0).0 != *key {
            return None;
        }
        if (lock.0).1 != t && (writes || lock.1) {
            return Some((lock.0).1);
        }
    }
    None
}

/// The place of the first lock on a key, or on a greater one.
fn first_on_key(locks: &Ordered<(Key, TxId), bool>, key: &Key) -> usize
    requires { AreNumbered locks.now.pairs }
    ensures start { IsStart locks.now.pairs key.now result }
    ensures rising { IsRising by_key locks.now.pairs }
{
    match locks.place(&(*key, TxId { number: 1 })) {
        Ok(i) => i,
        Err(i) => i,
    }
}

/// The lesser of two transactions, each of which may be missing.
fn lesser(first: Option<TxId>, second: Option<TxId>) -> Option<TxId>
    ensures { MatchOption first (result ≡ second) (λ u.
        MatchOption second (result ≡ first) (λ v. result ≡ Some (min u v))) }
{
    match first {
        None => second,
        Some(u) => match second {
            Some(v) if v < u => second,
            _ => first,
        },
    }
}

/// `t` takes these keys as keys that it reads.
fn take_reads(locks: &mut Ordered<(Key, TxId), bool>, reads: &[Key], t: TxId)
    requires { length reads.now ≤ locks.old.spare }
    ensures keys { (u : ℕ) (k : List ℕ) → holds_in (locks_of locks.new.pairs) u k
        ≡ (holds_in (locks_of locks.old.pairs) u k || (u == t && is_read reads.now k)) }
    ensures written { (u : ℕ) (k : List ℕ) → writes_in (locks_of locks.new.pairs) u k ≡ writes_in (locks_of locks.old.pairs) u k }
    ensures spare { locks.old.spare ≤ locks.new.spare + length reads.now }
    ensures count { length locks.new.pairs ≤ length locks.old.pairs + length reads.now }
    ensures numbered { AreNumbered locks.old.pairs → AreNumbered locks.new.pairs }
{
    for key in reads {
        take_key(locks, key, t, false);
    }
}

/// `t`, which holds no key, takes these keys as keys that it writes.
fn take_writes(locks: &mut Ordered<(Key, TxId), bool>, writes: &[(Key, Value)], t: TxId)
    requires room { length writes.now ≤ locks.old.spare }
    requires idle { (k : List ℕ) → holds_in (locks_of locks.old.pairs) t k ≡ writes_in (locks_of locks.old.pairs) t k }
    ensures keys { (u : ℕ) (k : List ℕ) → holds_in (locks_of locks.new.pairs) u k
        ≡ (holds_in (locks_of locks.old.pairs) u k || (u == t && is_written writes.now k)) }
    ensures written { (u : ℕ) (k : List ℕ) → writes_in (locks_of locks.new.pairs) u k
        ≡ (writes_in (locks_of locks.old.pairs) u k || (u == t && is_written writes.now k)) }
    ensures spare { locks.old.spare ≤ locks.new.spare + length writes.now }
    ensures count { length locks.new.pairs ≤ length locks.old.pairs + length writes.now }
    ensures numbered { AreNumbered locks.old.pairs → AreNumbered locks.new.pairs }
{
    for write in writes {
        take_key(locks, &write.0, t, true);
    }
}

/// `t` takes this key, if it does not hold it.
fn take_key(locks: &mut Ordered<(Key, TxId), bool>, key: &Key, t: TxId, writes: bool)
    requires { 1 ≤ locks.old.spare }
    ensures keys { (u : ℕ) (k : List ℕ) → holds_in (locks_of locks.new.pairs) u k
        ≡ (holds_in (locks_of locks.old.pairs) u k || (u == t && pointwise nat_eq key.now k)) }
    ensures written { (u : ℕ) (k : List ℕ) → writes_in (locks_of locks.new.pairs) u k
        ≡ (writes_in (locks_of locks.old.pairs) u k || ((writes && not (holds_in (locks_of locks.old.pairs) t key.now))
        && (u == t && pointwise nat_eq key.now k))) }
    ensures spare { locks.old.spare ≤ locks.new.spare + 1 }
    ensures count { length locks.new.pairs ≤ length locks.old.pairs + 1 }
    ensures numbered { AreNumbered locks.old.pairs → AreNumbered locks.new.pairs }
{
    if let Err(i) = locks.place(&(*key, t)) {
        locks.insert(i, (*key, t), writes);
    }
}

#[cfg(test)]
mod tests;
