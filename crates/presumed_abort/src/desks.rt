//! The desk: the transactions of a home, each with where it stands.

ghost use Rattle.std.specs.Prelude.{◌≡◌, nat_eq, [], Some, is_some, true};
ghost use Rattle.std.specs.Option.{option_copied};
ghost use Rattle.indexmap.specs.IndexMap.{insert_entry, shift_remove_entry};
ghost use Rattle.presumed_abort.specs.Stands.{standing, is_here};
ghost use Rattle.presumed_abort.specs.declared.stands.Stand.TheVariants as stand;

use crate::stands::Stand;
use indexmap::IndexMap;
use score_base::TxId;
use std::alloc::Global;
use std::marker::Model;

/// The transactions of a home that are reading, collecting or decided, in the order of beginning.
#[derive(Drop)]
pub struct Desk {
    pub(crate) stands: IndexMap<TxId, Stand>,
}

impl Model for Desk {
    ghost use Rattle.std.specs.Prelude.{ℕ, List};
    ghost use Rattle.presumed_abort.specs.declared.stands.Stand.{Stand};

    ghost Value = { List (ℕ × Stand) };

    ghost view = { λ d. d.stands.entries };
}

impl Desk {
    /// A desk without a transaction.
    pub fn new(alloc: Global) -> Desk
        ensures { result ≡ [] }
    {
        Desk {
            stands: IndexMap::new(alloc),
        }
    }

    /// Whether the transaction is reading, collecting or decided here.
    pub fn has(&self, t: TxId) -> bool
        ensures { result ≡ is_here (standing self.now t) }
    {
        match self.get(t) {
            None => false,
            Some(Stand::Away) => false,
            Some(_) => true,
        }
    }

    /// Where the transaction stands, if it is at the desk.
    pub(crate) fn get(&self, t: TxId) -> Option<&Stand>
        ensures { option_copied result ≡ standing self.now t }
    {
        self.stands.get(&t)
    }

    /// The transaction stands so, in its place of the order. It is there, so no memory is taken.
    pub(crate) fn put(&mut self, t: TxId, stand: Stand)
        requires { is_some (standing self.old t) ≡ true }
        ensures { self.new ≡ insert_entry nat_eq self.old t stand }
    {
        let _ = self.stands.insert(t, stand);
    }

    /// Takes the transaction away. Its place in the order stays.
    pub(crate) fn take(&mut self, t: TxId) -> Option<Stand>
        requires { is_some (standing self.old t) ≡ true }
        ensures stood { result ≡ standing self.old t }
        ensures away { self.new ≡ insert_entry nat_eq self.old t stand.Away }
        ensures place { standing self.new t ≡ Some stand.Away }
    {
        match self.stands.insert(t, Stand::Away) {
            Ok(stood) => stood,
            Err(_) => None,
        }
    }

    /// Takes the transaction out.
    pub(crate) fn remove(&mut self, t: TxId)
        ensures { self.new ≡ shift_remove_entry (nat_eq t) self.old }
    {
        let _ = self.stands.shift_remove(&t);
    }
}
