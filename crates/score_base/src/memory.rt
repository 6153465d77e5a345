//! How want of memory is told, and what copies itself where there is room.
ghost use Rattle.std.specs.Prelude.{◌≡◌, ◌++◌, ◌∷◌, [], IfOk, OnOk, OnErr};

use std::alloc::{AllocError, AllocFailed};

/// Want of memory. It is never answered for another reason.
#[derive(Clone, Copy, Debug, PartialEq, Eq)]
pub struct Memory;

/// A call to the outside failed. It is answered only where the object's count of faults rose.
#[derive(Clone, Copy, Debug, PartialEq, Eq)]
pub struct Failed;

impl From<AllocError> for Memory {
    fn from(_e: AllocError) -> Memory {
        Memory
    }
}

impl<T: Drop> From<AllocFailed<T>> for Memory {
    fn from(_e: AllocFailed<T>) -> Memory {
        Memory
    }
}

/// A value of which a second one can be made, where memory is found.
pub trait TryCopy: Drop {
    /// An equal value.
    fn copy(&self) -> Result<Self, Memory>
        ensures { IfOk result (λ other. other ≡ self.now) };
}

impl TryCopy for u8 {
    fn copy(&self) -> Result<u8, Memory> {
        Ok(*self)
    }
}

/// Puts a member last. After [`Memory`] the items are as before.
pub fn push<T: Drop>(items: &mut Vec<T>, member: T) -> Result<(), Memory>
    ensures ok { OnOk result (items.new.items ≡ items.old.items ++ member ∷ []) }
    ensures err { OnErr result (items.new.items ≡ items.old.items) }
{
    items.push(member)?;
    Ok(())
}

/// Puts all of these last, in order. After [`Memory`] the items are as before.
pub fn append<T: Drop>(items: &mut Vec<T>, more: Vec<T>) -> Result<(), Memory>
    ensures ok { OnOk result (items.new.items ≡ items.old.items ++ more.items) }
    ensures err { OnErr result (items.new.items ≡ items.old.items) }
{
    let mut more = more;
    items.append(&mut more)?;
    Ok(())
}
