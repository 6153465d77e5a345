//! A store: its fields, what it answers, and how it takes in a record.

ghost use Rattle.std.specs.Prelude.{◌≡◌, ◌+◌, ◌-◌, ◌≤◌, ◌<◌, ◌↔◌, ◌∷◌, ◌^◌, ◌&&◌, [], true, max, is_some, length, Some, IsTrue, IsNone, IfSome, IfOk, OnOk};
ghost use Rattle.score_base.specs.declared.ids.Ident.{Ident};
ghost use Rattle.score_base.specs.declared.ids.TxId.{TxId};
ghost use Rattle.placement.specs.Clusters.{init};
ghost use Rattle.node_clock.specs.Clock.{IsCeiling};
ghost use Rattle.stable_queue.specs.Commits.{is_below};
ghost use Rattle.version_chain.specs.Kept.{AreTwoLookups};
ghost use Rattle.journal_words.specs.Journals.{home_in, home_of, pending, names_part, is_clear, ended, commit_id, version_at, newest, holder, newer, floor, learnt, is_above, fits, all_fit};
ghost use Rattle.grid_store.specs.Given.{HasRoom, IsSame, IsLeastPending, times_written, keys_written};
ghost use Rattle.grid_store.specs.Keeping.{said_by, has_part};

use crate::chained::{begin, widen};
use crate::clocks::learn;
use crate::fitness::fits_outcome;
use crate::locks::{make_room, settle, take};
use crate::numbers::rise;
use crate::opens::mark;
use crate::outcomes::end;
use crate::pends::pend;
use crate::places::place;
use crate::tables::had;
use journal_words::records::is_among;
use lock_table::Locks;
use node_clock::NodeClock;
use pending_queue::Pending;
use placement::Cluster;
use score_base::{Ident, Key, Memory, NodeId, Ordered, Outcome, Record, Steps, TxId, Value};
use stable_queue::Stable;
use std::alloc::Global;
use std::marker::{Brand, Model};
use std::sync::ledger::{Blank, Ledger};
use version_chain::Chains;

/// What a node knows by its records.
#[derive(Drop)]
pub struct Store {
    pub(crate) node: NodeId,
    pub(crate) cluster: Cluster,
    records: Vec<Record>,
    pub(crate) places: Ordered<TxId, usize>,
    outcomes: Ordered<TxId, Outcome>,
    pub(crate) opened: Ordered<TxId, ()>,
    pending: Pending,
    clock: NodeClock<64>,
    pub(crate) highest: Ident,
    stable: Stable,
    applied: Ident,
    locks: Locks,
    chains: Chains,
}

impl Model for Store {
    ghost use Rattle.std.specs.Prelude.{◌-◌, min, reverse, vec_len, vec_capacity};
    ghost use Rattle.grid_store.specs.Given.{Given};
    ghost use Rattle.grid_store.specs.Chained.{Keeps, versions_room};

    ghost Value = { Given };

    ghost view = { λ s. record {
      node = s.node;
      cluster = s.cluster;
      journal = reverse s.records.items;
      next = s.clock.next;
      room = record {
        records = min (vec_capacity s.records - vec_len s.records)
            (min s.places.spare (min s.outcomes.spare (min s.opened.spare (min s.pending.spare s.stable.spare))));
        keys = s.locks.spare;
        fresh = s.chains.fresh;
        versions = versions_room s.chains;
      };
    } };

    ghost invariant = { λ s. Keeps s.cluster s.node s.records.items s.places.pairs s.outcomes.pairs
        s.opened.pairs s.pending.proposals s.clock s.highest s.stable.commits s.applied s.locks s.chains };
}

impl Store {
    /// The store of a node without records.
    pub fn new(alloc: Global, cluster: Cluster, node: NodeId) -> Store
        ensures node { result.node ≡ node }
        ensures cluster { result.cluster ≡ cluster }
        ensures journal { result.journal ≡ [] }
        ensures next { result.next ≡ 0 }
    {
        Store {
            node,
            cluster,
            records: Vec::new(alloc),
            places: Ordered::new(alloc),
            outcomes: Ordered::new(alloc),
            opened: Ordered::new(alloc),
            pending: Pending::new(alloc),
            clock: NodeClock::new(),
            highest: Ident(0),
            stable: Stable::new(alloc),
            applied: Ident(0),
            locks: Locks::new(alloc),
            chains: Chains::new(alloc),
        }
    }

    /// The node.
    pub fn node(&self) -> NodeId
        ensures { result ≡ self.now.node }
    {
        self.node
    }

    /// The cluster.
    pub fn cluster(&self) -> &Cluster
        ensures { result.now ≡ self.now.cluster }
    {
        &self.cluster
    }

    /// How many records it was given.
    pub fn len(&self) -> usize
        ensures { result ≡ length self.now.journal }
    {
        self.records.len()
    }

    /// The proposal of t where it is pending.
    pub fn pending(&self, t: TxId) -> Option<Ident>
        ensures { result ≡ pending t self.now.journal }
    {
        self.pending.proposal(t)
    }

    /// How t ended, where it ended.
    pub fn ended(&self, t: TxId) -> Option<Outcome>
        ensures { result ≡ ended t self.now.journal }
    {
        had(&self.outcomes, t)
    }

    /// The home of t, where t has a Prepared record.
    pub fn home(&self, t: TxId) -> Option<NodeId>
        ensures { result ≡ home_of t self.now.journal }
    {
        match had(&self.places, t) {
            Some(i) => home_in(&self.records[i]),
            None => None,
        }
    }

    /// Whether t is pending and m is among the parts that its Prepared names.
    pub fn part(&self, t: TxId, m: NodeId) -> bool
        ensures { result ≡ (is_some (pending t self.now.journal) && names_part t m self.now.journal) }
    {
        match had(&self.places, t) {
            Some(i) => self.pending(t).is_some() && has_part(&self.records[i], m),
            None => false,
        }
    }

    /// The least pending proposal; `None` exactly where nothing is pending.
    pub fn least(&self) -> Option<Ident>
        ensures none { IsNone result ↔ ((t : TxId) → IsNone (pending t self.now.journal)) }
        ensures least { IfSome result (IsLeastPending self.now.journal) }
        ensures clear { (f : Ident) → is_below result f ≡ is_clear f self.now.journal }
    {
        self.pending.least()
    }

    /// The commit identifier: the greatest final identifier that is applied; 0 where there is none.
    pub fn commit_id(&self) -> Ident
        ensures { result ≡ commit_id self.now.journal }
    {
        self.applied
    }

    /// The floor: the greatest proposal, final identifier and ceiling.
    pub fn floor(&self) -> Ident
        ensures { result ≡ floor self.now.journal }
    {
        self.clock.floor()
    }

    /// The number above which the next proposal is.
    pub fn next(&self) -> Ident
        ensures { result ≡ self.now.next }
    {
        self.clock.next()
    }

    /// The ceiling that has to be promised before a read at `sid` may be answered; `None` exactly
    /// where `sid` is at most the floor.
    pub fn needs(&self, sid: Ident) -> Option<Ident>
        requires sid { sid < 2 ^ 22 }
        requires next { self.now.next < 2 ^ 22 }
        ensures none { IsNone result ↔ (sid ≤ floor self.now.journal) }
        ensures ceiling { IfSome result (IsCeiling 64 sid) }
    {
        self.clock.needs(sid)
    }

    /// The proposal for a transaction with the snapshot identifier `sid`: above it, above `next`, and
    /// so above every proposal and every final identifier.
    pub fn propose(&self, sid: Ident) -> Ident
        requires sid { sid < 2 ^ 22 }
        requires next { self.now.next < 2 ^ 22 }
        ensures value { result ≡ 1 + max self.now.next sid }
        ensures above { is_above result self.now.journal ≡ true }
    {
        self.clock.propose(sid)
    }

    /// The least transaction other than t that holds a key of these lists against it.
    pub fn holder(&self, reads: &[Key], writes: &[(Key, Value)], t: TxId) -> Option<TxId>
        ensures { result ≡ holder self.now.journal t reads.now writes.now }
    {
        self.locks.holder(reads, writes, t)
    }

    /// The applied version of the key with the greatest identifier at most `sid`, or the initial one:
    /// its identifier and its value.
    pub fn at(&self, key: &Key, sid: Ident) -> (Ident, Value)
        ensures { let seen = version_at self.now.journal key.now (init self.now.cluster key.now) sid in
            result ≡ (seen.ident, seen.value) }
    {
        at_alone::<Brand>(self, key, sid, Blank::new(1))
    }

    /// As [`Store::at`], and counts its comparisons: a look-up by halving among the distinct keys that the
    /// records write, and one among the applied versions of this key.
    pub fn at_counted<L: Ledger>(
        &self,
        key: &Key,
        sid: Ident,
        steps: &mut Steps<L>,
    ) -> (Ident, Value)
        requires { steps.old < 2 ^ 61 }
        ensures version { let seen = version_at self.now.journal key.now (init self.now.cluster key.now) sid in
            result ≡ (seen.ident, seen.value) }
        ensures count { steps.old ≤ steps.new }
        ensures cost { AreTwoLookups (length (keys_written self.now.journal))
            (times_written self.now.journal key.now) (steps.new - steps.old) }
    {
        self.chains
            .at_counted(key, self.cluster.init(key), sid, steps)
    }

    /// The identifier of the newest applied version of the key, or 0.
    fn newest(&self, key: &Key) -> Ident
        ensures { result ≡ newest self.now.journal key.now }
    {
        self.chains.newest(key)
    }

    /// The first of these keys that has an applied version above `sid`, and its identifier.
    pub fn newer(&self, reads: &[Key], sid: Ident) -> Option<(Key, Ident)>
        ensures { result ≡ newer self.now.journal reads.now sid }
    {
        for key in reads {
            let ident = self.newest(key);
            if sid < ident {
                return Some((*key, ident));
            }
        }
        None
    }

    /// Whether a record fits those that the store has.
    pub fn fits(&self, rec: &Record) -> bool
        ensures { result ≡ fits self.now.cluster self.now.node self.now.journal rec.now }
    {
        match rec {
            Record::Prepared {
                t,
                parts,
                sid,
                p,
                reads,
                writes,
                ..
            } => self.is_new(*t, *sid, *p)
                && self.are_sound(parts.as_slice(), reads.as_slice(), writes.as_slice())
                && self.are_free(*t, *sid, reads.as_slice(), writes.as_slice()),
            Record::Ended { t, outcome } => fits_outcome(self.pending(*t), outcome),
            Record::Ceiling { c } => c.0 % 64 == 0 && self.floor() < *c,
            Record::Decided { t, f, .. } => !self.is_open(*t) && f.0 >= 1,
            Record::Closed { t } => self.is_open(*t),
        }
    }

    /// Makes room for a record. All else is as before, also after [`Memory`].
    pub fn reserve(&mut self, rec: &Record) -> Result<(), Memory>
        ensures room { OnOk result (HasRoom rec.now self.new.room) }
        ensures same { IsSame self.old self.new }
    {
        self.records.reserve(1)?;
        self.places.reserve(1)?;
        self.outcomes.reserve(1)?;
        self.opened.reserve(1)?;
        self.pending.reserve(1)?;
        self.stable.reserve(1)?;
        widen(&mut self.chains, rec)?;
        make_room(&mut self.locks, rec)
    }

    /// Takes in a record that fits those before it, for which room was made.
    pub fn admit(&mut self, rec: Record)
        requires fits { fits self.old.cluster self.old.node self.old.journal rec ≡ true }
        requires room { HasRoom rec self.old.room }
        ensures journal { self.new.journal ≡ rec ∷ self.old.journal }
        ensures next { self.new.next ≡ learnt (Some rec) self.old.next }
        ensures node { self.new.node ≡ self.old.node }
        ensures cluster { self.new.cluster ≡ self.old.cluster }
    {
        place(&mut self.places, self.records.len(), &rec);
        end(&mut self.outcomes, &rec);
        mark(&mut self.opened, &rec);
        pend(&mut self.pending, &rec);
        learn(&mut self.clock, &rec);
        rise(&mut self.highest, &rec);
        take(&mut self.stable, &mut self.locks, &rec);
        begin(&mut self.chains, &self.cluster, &rec);
        self.records.push_reserved(rec);
        settle(
            &mut self.stable,
            &mut self.locks,
            &mut self.applied,
            &mut self.chains,
            &self.pending,
            &self.places,
            self.records.as_slice(),
        );
    }

    /// Raises `next` to `sid`, where it is below; tells whether it rose. All else is as before.
    pub fn raise(&mut self, sid: Ident) -> bool
        ensures rose { IsTrue result ↔ (self.old.next < self.new.next) }
        ensures new { self.new ≡ record self.old { next = max self.old.next sid } }
    {
        self.clock.raise(sid)
    }
}

/// What a store answers at, by a counter that is opened here.
fn at_alone<L: Ledger>(store: &Store, key: &Key, sid: Ident, blank: Blank) -> (Ident, Value)
    requires { (blank.name ≡ L.name) × (blank.parts ≡ L.parts) × (0 < L.parts) }
    ensures { let seen = version_at store.now.journal key.now (init store.now.cluster key.now) sid in
        result ≡ (seen.ident, seen.value) }
{
    let (book, share) = blank.open::<L>();
    let mut steps = Steps::new(book, share);
    store.at_counted(key, sid, &mut steps)
}

/// The home that a Prepared record names.
fn home_in(rec: &Record) -> Option<NodeId>
    ensures { result ≡ home_in (said_by rec.now) }
{
    match rec {
        Record::Prepared { home, .. } => Some(*home),
        _ => None,
    }
}

/// Whether m is among the parts of a Prepared record.
fn has_part(rec: &Record, m: NodeId) -> bool
    ensures { result ≡ has_part m rec.now }
{
    match rec {
        Record::Prepared { parts, .. } => is_among(m, parts.as_slice()),
        _ => false,
    }
}
