//! The commits that wait at one node to be applied.
//!
//! A transaction that ended with commit waits until every pending proposal is above its final
//! identifier. Commits are applied by final identifier, and those with the same one by transaction.
//! In contracts a queue is the record of a set of pairs of a final identifier and a transaction, and
//! of `spare`, the number of pairs for which there is room.
//!
//! The commits stand in a table in order. An `add` looks its place up by halving and moves the commits
//! behind it by one: none, where its final identifier is the greatest. The least commit is the first,
//! and taking it out moves all others by one, in one pass. The contracts say what is answered, not what
//! it costs: only the look-up of the table has a bound that is proved.
//!
//! Only `reserve` takes memory.
#![tactic(auto)]

ghost use Rattle.std.specs.Prelude.{◌≡◌, ℕ, ◌+◌, ◌≤◌, ◌↔◌, IsTrue, IsNone, IfSome, MatchOption, OnOk};
ghost use Rattle.std.specs.FinSet as set;
ghost use Rattle.stable_queue.specs.Commits.{is_below, IsLeastBelow};

use score_base::{Ident, Memory, Ordered, TxId};
use std::alloc::Global;
use std::marker::Model;

/// Commits that wait to be applied.
#[derive(Drop, Debug)]
pub struct Stable {
    commits: Ordered<(Ident, TxId), ()>,
}

impl Model for Stable {
    ghost use Rattle.stable_queue.specs.Commits.{Queue, queue_code, commits_of};

    ghost Value = { Queue };

    ghost coded = { queue_code };

    ghost view = { λ q. record { commits = commits_of q.commits.pairs; spare = q.commits.spare } };
}

impl Stable {
    /// Nothing waits.
    pub fn new(alloc: Global) -> Stable
        ensures { result.commits ≡ set.empty }
    {
        Stable {
            commits: Ordered::new(alloc),
        }
    }

    /// Makes room for `n` more commits. After [`Memory`] there is at least the room that was there
    /// before, and in either case all else is as before.
    pub fn reserve(&mut self, n: usize) -> Result<(), Memory>
        ensures room { OnOk result (n ≤ self.new.spare) }
        ensures kept { self.old.spare ≤ self.new.spare }
        ensures commits { self.new.commits ≡ self.old.commits }
    {
        self.commits.reserve(n)
    }

    /// `t`, committed with the final identifier `f`, waits from now on.
    pub fn add(&mut self, f: Ident, t: TxId)
        requires absent { ¬ IsTrue (set.contains self.old.commits (f, t)) }
        requires room { 1 ≤ self.old.spare }
        ensures added { self.new.commits ≡ set.insert self.old.commits (f, t) }
        ensures spare { self.old.spare ≤ self.new.spare + 1 }
    {
        if let Err(i) = self.commits.place(&(f, t)) {
            self.commits.insert(i, (f, t), ());
        }
    }

    /// Takes out the least commit whose final identifier is below the limit, or the least of all
    /// where there is no limit; `None` exactly where no commit is below it.
    pub fn pop_below(&mut self, limit: Option<Ident>) -> Option<(Ident, TxId)>
        ensures none { IsNone result ↔ ((m : ℕ × ℕ) → IsTrue (set.contains self.old.commits m) → ¬ IsTrue (is_below limit m.0)) }
        ensures least { IfSome result (IsLeastBelow self.old.commits limit) }
        ensures rest { MatchOption result (self.new.commits ≡ self.old.commits)
            (λ m. self.new.commits ≡ set.remove self.old.commits m) }
        ensures spare { self.old.spare ≤ self.new.spare }
    {
        if self.commits.len() == 0 {
            return None;
        }
        let least = self.commits.pair(0).0;
        if !is_below(limit, least.0) {
            return None;
        }
        self.commits.remove(0);
        Some(least)
    }
}

fn is_below(limit: Option<Ident>, f: Ident) -> bool
    ensures { result ≡ is_below limit f }
{
    match limit {
        Some(limit) => f < limit,
        None => true,
    }
}

#[cfg(test)]
mod tests {
    use super::*;

    // Two commits with the same final identifier, of which the lesser transaction came last.
    #[test]
    fn order_of_three(rt: HostRuntime) {
        let mut stable = Stable::new(rt.alloc());
        let second = TxId { number: 2 };
        let eighth = TxId { number: 8 };
        let ninth = TxId { number: 9 };
        assert!(rt; stable.reserve(3).is_ok());
        stable.add(Ident(5), ninth);
        stable.add(Ident(3), eighth);
        stable.add(Ident(3), second);
        assert_eq!(rt; stable.pop_below(Some(Ident(3))), None);
        assert_eq!(rt; stable.pop_below(Some(Ident(4))), Some((Ident(3), second)));
        assert_eq!(rt; stable.pop_below(None), Some((Ident(3), eighth)));
        assert_eq!(rt; stable.pop_below(Some(Ident(5))), None);
        assert_eq!(rt; stable.pop_below(None), Some((Ident(5), ninth)));
        assert_eq!(rt; stable.pop_below(None), None);
    }
}
