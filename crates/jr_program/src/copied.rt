//! Copies with memory of their own, of types that hold memory.

ghost use Rattle.std.specs.Prelude.{◌≡◌, IfOk};

use jr_base::Memory;
use sqlite_items::Items;
use std::alloc::Global;

/// What can be copied, where `Clone` can't: the copy takes memory.
pub trait Copied: Drop {
    /// An equal value, with memory of its own.
    fn copied(&self, alloc: Global) -> Result<Self, Memory>
        ensures { IfOk result (λ copy. copy ≡ self.now) };
}

/// Equal items, in order.
pub fn copy_all<T: Copied>(all: &[T], alloc: Global) -> Result<Items<T>, Memory>
    ensures { IfOk result (λ copies. copies ≡ all.now) }
{
    let mut copies = Items::new(alloc);
    for item in all {
        copies.push(item.copied(alloc)?)?;
    }
    Ok(copies)
}

impl Copied for Items<u8> {
    fn copied(&self, alloc: Global) -> Result<Items<u8>, Memory> {
        Ok(Items::from_slice(alloc, self.as_slice())?)
    }
}
