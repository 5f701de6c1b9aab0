//! Copies of what a grammar is made of.
ghost use Rattle.std.specs.Prelude.{◌≡◌, IfOk, take};

use gft_core::{Name, NoMemory, Shared, Tree};
use sqlite_items::Items;
use std::alloc::Global;

/// A value that can be copied.
pub trait Copied: Drop + Sized {
    /// An equal value, in memory of its own.
    fn copied(&self, alloc: Global) -> Result<Self, NoMemory>
        ensures { IfOk result (λ copy. copy ≡ self.now) };
}

impl Copied for Name {
    fn copied(&self, alloc: Global) -> Result<Name, NoMemory> {
        self.copy(alloc)
    }
}

impl Copied for Tree {
    fn copied(&self, alloc: Global) -> Result<Tree, NoMemory> {
        self.copy(alloc)
    }
}

impl Copied for u32 {
    fn copied(&self, _alloc: Global) -> Result<u32, NoMemory> {
        Ok(*self)
    }
}

impl<T: Drop> Copied for Shared<T> {
    fn copied(&self, _alloc: Global) -> Result<Shared<T>, NoMemory> {
        self.share()
    }
}

/// Copies of the values, in their order.
fn copies<T: Copied>(alloc: Global, values: &[T]) -> Result<Items<T>, NoMemory>
    ensures { IfOk result (λ copies. copies ≡ values.now) }
{
    let mut copies = Items::new(alloc);
    for value in values {
        copies.push(value.copied(alloc)?)?;
    }
    Ok(copies)
}

impl<T: Copied> Copied for Items<T> {
    fn copied(&self, alloc: Global) -> Result<Items<T>, NoMemory> {
        copies(alloc, self.as_slice())
    }
}
