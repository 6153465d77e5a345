//! A table of pairs in rising order of distinct keys, whose look-ups count their comparisons.
//!
//! A look-up halves what is left, so with n pairs it compares p keys, where 2^p is at most 2n + 1. An
//! insert moves the pairs behind its place by one: at the end, where the new key is the greatest, none;
//! a removal moves the pairs behind it. A merge looks each new key up by halving
//! and moves each pair behind the least of them once; `retain` goes over the table once.
//!
//! Only `reserve` takes memory.
ghost use Rattle.std.specs.Prelude.{◌≡◌, ◌+◌, ◌-◌, ◌*◌, ◌<◌, ◌≤◌, ◌^◌, ◌++◌, ◌∷◌, ℕ, [], length, take, drop, OnOk, OnErr, IfOk, IfErr, insert, remove, slice_index_or};
ghost use Rattle.std.specs.List.Retain.{IsFiltered};
ghost use Rattle.std.specs.Fn.{CalledAt};
ghost use Rattle.score_base.specs.Tables.{IsGap, IsRising, merged};

use crate::memory::Memory;
use crate::steps::Steps;
use std::alloc::Global;
use std::cmp::Ordering;
use std::marker::{Brand, Model};
use std::sync::ledger::{Blank, Ledger};

/// Pairs of a key and a value, in rising order of distinct keys. Contracts see the list of the pairs
/// and `spare`, the number of pairs for which there is room.
#[derive(Drop, Debug)]
pub struct Ordered<K: Copy + Ord, V: Copy> {
    items: Vec<(K, V)>,
}

impl<K: Copy + Ord, V: Copy> Model for Ordered<K, V> {
    ghost use Rattle.std.specs.Prelude.{◌-◌, ℕ, List, vec_len, vec_capacity, refl};
    ghost use Rattle.std.specs.Coded.{coded_list, coded×, coded_ℕ, code_by};
    ghost use Rattle.score_base.specs.Tables.{Table, IsRising};

    ghost Value = { Table K V };

    ghost coded = { code_by (List (K × V) × ℕ) (coded× (coded_list (coded× K.code V.code)) coded_ℕ)
        (λ t. (t.pairs, t.spare))
        (λ p. record { pairs = p.0; spare = p.1 }) (λ _. refl) };

    ghost view = { λ t. record { pairs = t.items.items; spare = vec_capacity t.items - vec_len t.items } };

    ghost invariant = { λ t. IsRising K.cmp t.items.items };
}

impl<K: Copy + Ord, V: Copy> Ordered<K, V> {
    /// The empty table.
    pub fn new(alloc: Global) -> Ordered<K, V>
        ensures pairs { result.pairs ≡ [] }
    {
        Ordered {
            items: Vec::new(alloc),
        }
    }

    /// Makes room for `n` more pairs. After [`Memory`] all is as before.
    pub fn reserve(&mut self, n: usize) -> Result<(), Memory>
        ensures room { OnOk result (n ≤ self.new.spare) }
        ensures kept { self.old.spare ≤ self.new.spare }
        ensures pairs { self.new.pairs ≡ self.old.pairs }
        ensures err { OnErr result (self.new ≡ self.old) }
    {
        self.items.reserve(n)?;
        Ok(())
    }

    /// How many pairs there are.
    pub fn len(&self) -> usize
        ensures value { result ≡ length self.now.pairs }
        ensures rising { IsRising K.cmp self.now.pairs }
    {
        self.items.len()
    }

    /// Orders the key at place `i` against `key`, and counts one step. No other call compares keys.
    pub fn compare<L: Ledger>(&self, i: usize, key: &K, steps: &mut Steps<L>) -> Ordering
        requires within { i < length self.now.pairs }
        requires small { steps.old < 2 ^ 63 }
        ensures order { (d : K × V) → result ≡ K.cmp (slice_index_or self.now.pairs i d).0 key.now }
        ensures step { steps.new ≡ steps.old + 1 }
    {
        steps.tick();
        self.items[i].0.cmp(key)
    }

    /// The place of `key`, exactly where it is there; else the number of keys below it.
    pub fn find<L: Ledger>(&self, key: &K, steps: &mut Steps<L>) -> Result<usize, usize>
        requires { steps.old < 2 ^ 62 }
        ensures found { IfOk result (λ i. (i < length self.now.pairs)
            × ((d : K × V) → K.cmp (slice_index_or self.now.pairs i d).0 key.now ≡ Ordering.Equal)) }
        ensures absent { IfErr result (λ i. IsGap K.cmp self.now.pairs key.now i) }
        ensures rising { IsRising K.cmp self.now.pairs }
        ensures count { steps.old ≤ steps.new }
        ensures cost { 2 ^ (steps.new - steps.old) ≤ 2 * length self.now.pairs + 1 }
    {
        let mut low = 0;
        let mut high = self.len();
        while low < high {
            let mid = low + (high - low) / 2;
            match self.compare(mid, key, steps) {
                Ordering::Less => low = mid + 1,
                Ordering::Equal => return Ok(mid),
                Ordering::Greater => high = mid,
            }
        }
        Err(low)
    }

    /// As [`Ordered::find`], by a counter of its own.
    pub fn place(&self, key: &K) -> Result<usize, usize>
        ensures found { IfOk result (λ i. (i < length self.now.pairs)
            × ((d : K × V) → K.cmp (slice_index_or self.now.pairs i d).0 key.now ≡ Ordering.Equal)) }
        ensures absent { IfErr result (λ i. IsGap K.cmp self.now.pairs key.now i) }
        ensures rising { IsRising K.cmp self.now.pairs }
    {
        found_by::<Brand, K, V>(self, key, Blank::new(1))
    }

    /// The pair at place `i`.
    pub fn pair(&self, i: usize) -> (K, V)
        requires { i < length self.now.pairs }
        ensures { result ≡ slice_index_or self.now.pairs i result }
    {
        self.items[i]
    }

    /// Puts a new key at its place, and moves the pairs behind it by one.
    pub fn insert(&mut self, i: usize, key: K, value: V)
        requires room { 1 ≤ self.old.spare }
        requires place { IsGap K.cmp self.old.pairs key i }
        ensures pairs { self.new.pairs ≡ insert self.old.pairs i (key, value) }
        ensures spare { self.new.spare + 1 ≡ self.old.spare }
    {
        self.items.insert(i, (key, value)).unwrap();
    }

    /// Puts each pair of another table at its place, where it takes that of a pair with an equal key. One
    /// pass from the end: each pair behind the least new key is moved once.
    pub fn merge(&mut self, more: &Ordered<K, V>)
        requires room { length more.now.pairs ≤ self.old.spare }
        ensures pairs { self.new.pairs ≡ merged K.cmp self.old.pairs more.now.pairs }
        ensures rising { IsRising K.cmp more.now.pairs }
        ensures spare { self.old.spare ≤ self.new.spare + length more.now.pairs }
    {
        let count = self.items.len();
        self.items.extend_from_slice(&more.items).unwrap();
        let (low, high) = merge_from_end(&mut self.items, count, &more.items);
        self.items.drain(low..high);
    }

    /// Takes out the pair at place `i`, and moves the pairs behind it by one.
    pub fn remove(&mut self, i: usize) -> (K, V)
        requires { i < length self.old.pairs }
        ensures pair { result ≡ slice_index_or self.old.pairs i result }
        ensures pairs { self.new.pairs ≡ remove self.old.pairs i }
        ensures spare { self.new.spare ≡ self.old.spare + 1 }
    {
        self.items.remove(i)
    }

    /// Drops each pair for which the test is false, in one pass.
    pub fn retain<F: FnMut(&(K, V)) -> bool>(&mut self, f: F)
        requires { F.IsAlwaysCallable f }
        ensures filtered { IsFiltered (CalledAt F.FnMut) f self.old.pairs self.new.pairs }
        ensures spare { self.old.spare ≤ self.new.spare }
    {
        self.items.retain(f);
    }

    /// Drops all pairs, and keeps their room.
    pub fn clear(&mut self)
        ensures pairs { self.new.pairs ≡ [] }
        ensures spare { self.new.spare ≡ self.old.spare + length self.old.pairs }
    {
        self.items.clear();
    }
}

/// Merges these pairs into the first `count` of a list that has room for both, from its end. What is then
/// merged are the pairs before the first place of the answer and those from the second on.
fn merge_from_end<K: Copy + Ord, V: Copy>(
    items: &mut [(K, V)],
    count: usize,
    more: &[(K, V)],
) -> (usize, usize)
    requires room { count + length more.now ≡ length items.old }
    requires rising { IsRising K.cmp (take count items.old) }
    requires more { IsRising K.cmp more.now }
    ensures len { length items.new ≡ length items.old }
    ensures order { result.0 ≤ result.1 }
    ensures within { result.1 ≤ length items.new }
    ensures merged { take result.0 items.new ++ drop result.1 items.new
        ≡ merged K.cmp (take count items.old) more.now }
{
    let mut low = count;
    let mut left = more.len();
    let mut high = items.len();
    while left > 0 {
        left -= 1;
        let next = more[left];
        match place_among(items, low, &next.0) {
            Ok(i) => {
                high = put_behind(items, i + 1, low, high, next);
                low = i;
            }
            Err(i) => {
                high = put_behind(items, i, low, high, next);
                low = i;
            }
        }
    }
    (low, high)
}

/// The place of `key` among the first `low` pairs, exactly where it is there; else the number of keys below it.
fn place_among<K: Copy + Ord, V: Copy>(
    items: &[(K, V)],
    low: usize,
    key: &K,
) -> Result<usize, usize>
    requires within { low ≤ length items.now }
    requires rising { IsRising K.cmp (take low items.now) }
    ensures found { IfOk result (λ i. (i < low)
        × ((d : K × V) → K.cmp (slice_index_or items.now i d).0 key.now ≡ Ordering.Equal)) }
    ensures absent { IfErr result (λ i. IsGap K.cmp (take low items.now) key.now i) }
{
    let mut first = 0;
    let mut last = low;
    while first < last {
        let mid = first + (last - first) / 2;
        match items[mid].0.cmp(key) {
            Ordering::Less => first = mid + 1,
            Ordering::Equal => return Ok(mid),
            Ordering::Greater => last = mid,
        }
    }
    Err(first)
}

/// Moves the pairs from `from` up to `low` to before `high`, and puts `next` before them: the place of `next`.
fn put_behind<K: Copy, V: Copy>(
    items: &mut [(K, V)],
    from: usize,
    low: usize,
    high: usize,
    next: (K, V),
) -> usize
    requires order { from ≤ low }
    requires room { low < high }
    requires within { high ≤ length items.old }
    ensures place { result + 1 ≡ high - (low - from) }
    ensures len { length items.new ≡ length items.old }
    ensures front { (n : ℕ) → n ≤ from → take n items.new ≡ take n items.old }
    ensures behind { drop result items.new
        ≡ next ∷ (take (low - from) (drop from items.old) ++ drop high items.old) }
{
    let place = high - (low - from);
    items.copy_within(from..low, place);
    items[place - 1] = next;
    place - 1
}

/// The place of a key, by a counter that is opened here.
fn found_by<L: Ledger, K: Copy + Ord, V: Copy>(
    table: &Ordered<K, V>,
    key: &K,
    blank: Blank,
) -> Result<usize, usize>
    requires { (blank.name ≡ L.name) × (blank.parts ≡ L.parts) × (0 < L.parts) }
    ensures found { IfOk result (λ i. (i < length table.now.pairs)
        × ((d : K × V) → K.cmp (slice_index_or table.now.pairs i d).0 key.now ≡ Ordering.Equal)) }
    ensures absent { IfErr result (λ i. IsGap K.cmp table.now.pairs key.now i) }
    ensures rising { IsRising K.cmp table.now.pairs }
{
    let (book, share) = blank.open::<L>();
    let mut steps = Steps::new(book, share);
    table.find(key, &mut steps)
}
