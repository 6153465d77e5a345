//! A node that is up.

ghost use Rattle.std.specs.Prelude.{◌≡◌, ◌≤◌, Ok, Some, None, is_some, length};
ghost use Rattle.journal_words.specs.Journals.{pending};
ghost use Rattle.score_disk.specs.Files.{Settled};
ghost use Rattle.node_journal.specs.Pairs.{in_order, pair_log};
ghost use Rattle.node_journal.specs.PairDisks.{TellsBoth, list_of};
ghost use Rattle.node_core.specs.Shows.{Shows, own_view};
ghost use Rattle.node_core.specs.Owning.{IsOwn, IsOwn-prop};

use grid_store::Store;
use node_journal::Pair;
use presumed_abort::Desk;
use score_base::{NodeId, TxId};
use score_disk::{CrashDisk, Disk, Fused};
use snapshot_read::Waiting;

/// A node that is up: its two disks with the journal on the live one, the store of its records, the
/// reads that it holds, and the desk of its home.
#[derive(Drop)]
pub struct Node<D: Disk> {
    pub(crate) store: Store,
    pub(crate) waiting: Waiting,
    pub(crate) desk: Desk,
    pub(crate) pair: Pair<D>,
    ghost own: { IsOwn store waiting.reads desk } by { IsOwn-prop store waiting.reads desk },
}

impl<D: Disk> Node<D> {
    /// The node of these parts.
    pub(crate) fn joined(store: Store, waiting: Waiting, desk: Desk, pair: Pair<D>) -> Node<D>
        requires { IsOwn store waiting.reads desk }
        ensures store { result.store ≡ store }
        ensures waiting { result.waiting ≡ waiting }
        ensures desk { result.desk ≡ desk }
        ensures pair { result.pair ≡ pair }
    {
        Node {
            store,
            waiting,
            desk,
            pair,
        }
    }

    /// The node's number.
    pub fn id(&self) -> NodeId
        ensures { result ≡ self.now.store.node }
    {
        self.store.node()
    }

    /// The number of records of the live file.
    pub fn count(&self) -> u64
        ensures { result ≡ length (list_of self.now.pair) }
    {
        self.pair.count()
    }

    /// The generation of the live file; 0 where it is of version 1.
    pub fn generation(&self) -> u64
        ensures { result ≡ self.now.pair.number }
    {
        self.pair.generation()
    }

    /// Whether the transaction is pending here.
    pub fn is_pending(&self, t: TxId) -> bool
        ensures { result ≡ is_some (pending t self.now.store.journal) }
    {
        self.store.pending(t).is_some()
    }

    /// A node shows its own view.
    pub fn law_shown(&self)
        ensures { Shows self.now.store self.now.waiting.reads self.now.desk
            (own_view self.now.store self.now.waiting.reads self.now.desk) }
    {}

    /// Gives up the node for its two disks, which are settled. What it holds and what is open at its desk
    /// goes with it.
    pub fn stop(self) -> (D, D)
        ensures settled_first { Settled (D.tells result.0) (D.file result.0) }
        ensures settled_last { Settled (D.tells result.1) (D.file result.1) }
        ensures log { TellsBoth self.pair →
            pair_log (D.file result.0).seen (D.file result.1).seen ≡ Ok (list_of self.pair) }
        ensures first { result.0 ≡ in_order self.pair.second (λ first _. first) self.pair.live.disk self.pair.other }
        ensures last { result.1 ≡ in_order self.pair.second (λ _ last. last) self.pair.live.disk self.pair.other }
    {
        let Node {
            store: _,
            waiting: _,
            desk: _,
            pair,
        } = self;
        pair.stop()
    }
}

impl<D: CrashDisk> Node<Fused<D>> {
    /// Arms the fuses of both disks with `k`, at least 1. All else is as before.
    pub fn arm(&mut self, k: u64)
        requires { 1 ≤ k }
        ensures store { self.new.store ≡ self.old.store }
        ensures waiting { self.new.waiting ≡ self.old.waiting }
        ensures desk { self.new.desk ≡ self.old.desk }
        ensures live { self.new.pair.live.disk ≡ record self.old.pair.live.disk { left = Some k } }
        ensures other { self.new.pair.other ≡ record self.old.pair.other { left = Some k } }
        ensures second { self.new.pair.second ≡ self.old.pair.second }
        ensures number { self.new.pair.number ≡ self.old.pair.number }
        ensures list { list_of self.new.pair ≡ list_of self.old.pair }
    {
        self.pair.arm(k);
    }

    /// Disarms the fuses of both disks. All else is as before.
    pub fn disarm(&mut self)
        ensures store { self.new.store ≡ self.old.store }
        ensures waiting { self.new.waiting ≡ self.old.waiting }
        ensures desk { self.new.desk ≡ self.old.desk }
        ensures live { self.new.pair.live.disk ≡ record self.old.pair.live.disk { left = None } }
        ensures other { self.new.pair.other ≡ record self.old.pair.other { left = None } }
        ensures second { self.new.pair.second ≡ self.old.pair.second }
        ensures number { self.new.pair.number ≡ self.old.pair.number }
        ensures list { list_of self.new.pair ≡ list_of self.old.pair }
    {
        self.pair.disarm();
    }
}
