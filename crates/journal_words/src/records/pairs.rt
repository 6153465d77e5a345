//! Transactions with an identifier each.
ghost use Rattle.std.specs.Prelude.{◌≡◌, ◌∷◌, [], reverse, IfOk, OnOk, OnErr};
ghost use Rattle.journal_words.specs.Journals.{without, all_above, greatest, up_to};

use score_base::{Ident, Memory, TxId, push};
use std::alloc::Global;
use std::marker::Model;

/// Transactions, each with its proposal or its final identifier. Contracts see the newest first.
#[derive(Drop, Debug)]
pub struct PairList {
    items: Vec<(TxId, Ident)>,
}

impl Model for PairList {
    ghost use Rattle.std.specs.Prelude.{ℕ, List, reverse};

    ghost Value = { List (ℕ × ℕ) };

    ghost view = { λ l. reverse l.items.items };
}

impl PairList {
    /// The empty list.
    pub fn new(alloc: Global) -> PairList
        ensures { result ≡ [] }
    {
        PairList {
            items: Vec::new(alloc),
        }
    }

    /// The pairs, the oldest first.
    pub fn oldest_first(&self) -> &[(TxId, Ident)]
        ensures { reverse result.now ≡ self.now }
    {
        self.items.as_slice()
    }

    /// Puts a pair in front, as the newest. After [`Memory`] the list is as before.
    pub fn push(&mut self, t: TxId, ident: Ident) -> Result<(), Memory>
        ensures ok { OnOk result (self.new ≡ (t, ident) ∷ self.old) }
        ensures err { OnErr result (self.new ≡ self.old) }
    {
        push(&mut self.items, (t, ident))
    }

    /// Takes out the pairs of t.
    pub fn take_out(&mut self, t: TxId)
        ensures { self.new ≡ without t self.old }
    {
        self.items.retain(|pair| pair.0 != t);
    }

    /// Whether each identifier is above this one.
    #[tactic(auto, using(crate::proofs::Newest::newest_more))]
    pub fn all_above(&self, ident: Ident) -> bool
        ensures { result ≡ all_above ident self.now }
    {
        let mut all = true;
        for pair in &self.items {
            all = ident < pair.1 && all;
        }
        all
    }

    /// Those whose identifier is at most this one.
    #[tactic(auto, using(crate::proofs::Newest::newest_more))]
    pub fn up_to(&self, alloc: Global, ident: Ident) -> Result<PairList, Memory>
        ensures { IfOk result (λ pairs. pairs ≡ up_to ident self.now) }
    {
        let mut pairs = PairList::new(alloc);
        for pair in &self.items {
            if pair.1 <= ident {
                pairs.push(pair.0, pair.1)?;
            }
        }
        Ok(pairs)
    }

    /// The greatest identifier; 0 where there is none.
    #[tactic(auto, using(crate::proofs::Newest::newest_more))]
    pub fn greatest(&self) -> Ident
        ensures { result ≡ greatest self.now }
    {
        let mut most = Ident(0);
        for pair in &self.items {
            most = most.max(pair.1);
        }
        most
    }
}
