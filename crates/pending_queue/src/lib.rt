//! The transactions that are pending at one node, with their proposals.
//!
//! A transaction is pending from its yes vote until it ends. In contracts a queue is the record of a
//! finite map from transactions to proposals and of `spare`, the number of transactions for which
//! there is room. A read at or above the least proposal has to wait, and what was committed at or
//! above it cannot be applied yet.
//!
//! The transactions stand in two tables: in order, each with its proposal, and by proposal. An `add`
//! and an `end` look a place up in each table by halving, and move what stands behind it by one. The
//! least proposal is the first of the second table. The contracts say what is answered, not what it
//! costs: only the look-up of a table has a bound that is proved.
//!
//! Only `reserve` takes memory.
#![tactic(auto)]

ghost use Rattle.std.specs.Prelude.{◌≡◌, ℕ, ◌+◌, ◌≤◌, ◌↔◌, ◌==◌, ◌&&◌, not, IsNone, IfSome, OnOk};
ghost use Rattle.std.specs.Ordering.{nat_cmp};
ghost use Rattle.std.specs.FinMap as map;
ghost use Rattle.pending_queue.specs.Proposals.{IsLeast, has};
ghost use Rattle.score_base.specs.Tables.{IsGap};

use score_base::{Ident, Memory, Ordered, TxId};
use std::alloc::Global;
use std::marker::Model;

/// Pending transactions with their proposals.
#[derive(Drop, Debug)]
pub struct Pending {
    proposals: Ordered<TxId, Ident>,
    order: Ordered<(Ident, TxId), ()>,
}

impl Model for Pending {
    ghost use Rattle.std.specs.Prelude.{min};
    ghost use Rattle.std.specs.FinMap as map;
    ghost use Rattle.pending_queue.specs.Proposals.{Queue, queue_code, AreAlike};

    ghost Value = { Queue };

    ghost coded = { queue_code };

    ghost view = { λ q. record { proposals = map.from_entries q.proposals.pairs; spare = min q.proposals.spare q.order.spare } };

    ghost invariant = { λ q. AreAlike q.proposals.pairs q.order.pairs };
}

impl Pending {
    /// Nothing is pending.
    pub fn new(alloc: Global) -> Pending
        ensures { result.proposals ≡ map.empty }
    {
        Pending {
            proposals: Ordered::new(alloc),
            order: Ordered::new(alloc),
        }
    }

    /// Makes room for `n` more transactions. After [`Memory`] there is at least the room that was
    /// there before, and in either case all else is as before.
    pub fn reserve(&mut self, n: usize) -> Result<(), Memory>
        ensures room { OnOk result (n ≤ self.new.spare) }
        ensures kept { self.old.spare ≤ self.new.spare }
        ensures proposals { self.new.proposals ≡ self.old.proposals }
    {
        self.proposals.reserve(n)?;
        self.order.reserve(n)
    }

    /// `t` is pending from now on, with the proposal `p`.
    pub fn add(&mut self, t: TxId, p: Ident)
        requires absent { map.get self.old.proposals t ≡ None }
        requires room { 1 ≤ self.old.spare }
        ensures added { self.new.proposals ≡ map.insert self.old.proposals t p }
        ensures spare { self.old.spare ≤ self.new.spare + 1 }
    {
        let i = place_of_new(&self.proposals, &t);
        let j = place_of_new(&self.order, &(p, t));
        self.proposals.insert(i, t, p);
        self.order.insert(j, (p, t), ());
    }

    /// `t` is not pending any more. Gives its proposal; `None` exactly where it was not pending.
    pub fn end(&mut self, t: TxId) -> Option<Ident>
        ensures was { result ≡ map.get self.old.proposals t }
        ensures ended { self.new.proposals ≡ map.remove self.old.proposals t }
        ensures spare { self.old.spare ≤ self.new.spare }
    {
        match self.proposals.place(&t) {
            Ok(i) => {
                let p = self.proposals.remove(i).1;
                drop_proposal(&mut self.order, (p, t));
                Some(p)
            }
            Err(_) => None,
        }
    }

    /// The proposal of `t`; `None` exactly where it is not pending.
    pub fn proposal(&self, t: TxId) -> Option<Ident>
        ensures { result ≡ map.get self.now.proposals t }
    {
        match self.proposals.place(&t) {
            Ok(i) => Some(self.proposals.pair(i).1),
            Err(_) => None,
        }
    }

    /// The least proposal; `None` exactly where nothing is pending.
    pub fn least(&self) -> Option<Ident>
        ensures none { IsNone result ↔ (self.now.proposals ≡ map.empty) }
        ensures least { IfSome result (IsLeast self.now.proposals) }
    {
        match self.order.len() {
            0 => None,
            _ => Some((self.order.pair(0).0).0),
        }
    }
}

/// Where a key that is not there has its place.
fn place_of_new<K: Copy + Ord, V: Copy>(table: &Ordered<K, V>, key: &K) -> usize
    requires { map.find K.cmp key.now table.now.pairs ≡ None }
    ensures { IsGap K.cmp table.now.pairs key.now result }
{
    match table.place(key) {
        Ok(i) => i,
        Err(i) => i,
    }
}

/// Takes out this proposal, if it is there.
fn drop_proposal(order: &mut Ordered<(Ident, TxId), ()>, proposal: (Ident, TxId))
    ensures dropped { (q : ℕ × ℕ) → has order.new.pairs q ≡ (not (q.0 == proposal.0 && q.1 == proposal.1) && has order.old.pairs q) }
    ensures spare { order.old.spare ≤ order.new.spare }
{
    if let Ok(i) = order.place(&proposal) {
        order.remove(i);
    }
}

#[cfg(test)]
mod tests {
    use super::*;

    // Three transactions, of which that with the least proposal is neither the first nor the last.
    #[test]
    fn least_of_three(rt: HostRuntime) {
        let mut pending = Pending::new(rt.alloc());
        let first = TxId { number: 7 };
        let second = TxId { number: 3 };
        let third = TxId { number: 5 };
        assert_eq!(rt; pending.least(), None);
        assert!(rt; pending.reserve(3).is_ok());
        pending.add(first, Ident(9));
        pending.add(second, Ident(4));
        pending.add(third, Ident(6));
        assert_eq!(rt; pending.least(), Some(Ident(4)));
        assert_eq!(rt; pending.proposal(third), Some(Ident(6)));
        assert_eq!(rt; pending.end(second), Some(Ident(4)));
        assert_eq!(rt; pending.end(second), None);
        assert_eq!(rt; pending.proposal(second), None);
        assert_eq!(rt; pending.least(), Some(Ident(6)));
    }
}
