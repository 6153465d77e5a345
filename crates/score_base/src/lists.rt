//! A list that is seen as its members.
ghost use Rattle.std.specs.Prelude.{◌≡◌, ◌++◌, ◌∷◌, ◌==◌, [], length, OnOk, OnErr};

use crate::ids::{NodeId, Value};
use crate::keys::Key;
use crate::memory::{Memory, TryCopy};
use std::alloc::Global;
use std::marker::Model;

/// A list that grows at its end. Contracts see it as the list of its members.
#[derive(Drop, Debug)]
pub struct Members<T> {
    items: Vec<T>,
}

impl<T> Model for Members<T> {
    ghost use Rattle.std.specs.Prelude.{List};
    ghost use Rattle.std.specs.Coded.{coded_list};

    ghost Value = { List T };

    ghost coded = { coded_list T.code };

    ghost view = { λ l. l.items.items };
}

impl<T> Members<T> {
    /// The empty list.
    pub fn new(alloc: Global) -> Members<T>
        ensures { result ≡ [] }
    {
        Members {
            items: Vec::new(alloc),
        }
    }

    /// The members, in order.
    pub fn as_slice(&self) -> &[T]
        ensures { result.now ≡ self.now }
    {
        self.items.as_slice()
    }

    /// How many members there are.
    pub fn len(&self) -> usize
        ensures { result ≡ length self.now }
    {
        self.items.len()
    }

    /// Whether there is no member.
    pub fn is_empty(&self) -> bool
        ensures { result ≡ (length self.now == 0) }
    {
        self.items.is_empty()
    }

    /// The list of these members.
    pub fn from_vec(items: Vec<T>) -> Members<T>
        ensures { result ≡ items.items }
    {
        Members { items }
    }

    /// The members, given up.
    pub fn into_vec(self) -> Vec<T>
        ensures { result.items ≡ self }
    {
        let Members { items } = self;
        items
    }
}

impl<T: Drop> Members<T> {
    /// Puts a member last. After [`Memory`] the list is as before.
    pub fn push(&mut self, member: T) -> Result<(), Memory>
        ensures ok { OnOk result (self.new ≡ self.old ++ member ∷ []) }
        ensures err { OnErr result (self.new ≡ self.old) }
    {
        self.items.push(member)?;
        Ok(())
    }
}

impl<T: TryCopy> TryCopy for Members<T> {
    fn copy(&self) -> Result<Members<T>, Memory> {
        let source = self.as_slice();
        let mut copies = Members::new(*self.items.allocator());
        for member in source {
            copies.push(member.copy()?)?;
        }
        Ok(copies)
    }
}

/// Nodes: those of a partition, or the parts of a transaction.
pub type NodeList = Members<NodeId>;

/// Keys.
pub type KeyList = Members<Key>;

/// Keys with their values.
pub type WriteList = Members<(Key, Value)>;

/// Bytes.
pub type ByteList = Members<u8>;

impl TryCopy for NodeId {
    fn copy(&self) -> Result<NodeId, Memory> {
        Ok(*self)
    }
}

impl TryCopy for Key {
    fn copy(&self) -> Result<Key, Memory> {
        Ok(*self)
    }
}

impl TryCopy for (Key, Value) {
    fn copy(&self) -> Result<(Key, Value), Memory> {
        Ok((self.0, self.1))
    }
}

impl TryCopy for (u8, Value) {
    fn copy(&self) -> Result<(u8, Value), Memory> {
        Ok((self.0, self.1))
    }
}
