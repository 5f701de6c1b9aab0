//! Abstract syntax: categories and functions with their types.
use crate::copied::Copied;
use gft_core::{Name, NoMemory, Tree};
use sqlite_items::Items;
use std::alloc::Global;

/// A category, by its number, applied to indices. In an index `Hole(k)` is the variable of the k-th
/// argument, from 1.
#[derive(Drop)]
pub struct AType {
    pub cat: u32,
    pub args: Items<Tree>,
}

/// A category with the types of its indices, each over the indices before it.
#[derive(Drop)]
pub struct Cat {
    pub name: Name,
    pub context: Items<AType>,
}

/// A function: the type of each argument, over the arguments before it, and the type of its result,
/// over all of them.
#[derive(Drop)]
pub struct Fun {
    pub name: Name,
    pub args: Items<AType>,
    pub result: AType,
}

/// An abstract syntax. Category 0 is `Int` and category 1 is `String`; the others follow by name,
/// and so do the functions from 0. `start` is the start category.
#[derive(Drop)]
pub struct Abstract {
    pub name: Name,
    pub start: u32,
    pub cats: Items<Cat>,
    pub funs: Items<Fun>,
}

impl Copied for AType {
    fn copied(&self, alloc: Global) -> Result<AType, NoMemory> {
        Ok(AType {
            cat: self.cat,
            args: self.args.copied(alloc)?,
        })
    }
}

impl Copied for Cat {
    fn copied(&self, alloc: Global) -> Result<Cat, NoMemory> {
        Ok(Cat {
            name: self.name.copied(alloc)?,
            context: self.context.copied(alloc)?,
        })
    }
}

impl Copied for Fun {
    fn copied(&self, alloc: Global) -> Result<Fun, NoMemory> {
        Ok(Fun {
            name: self.name.copied(alloc)?,
            args: self.args.copied(alloc)?,
            result: self.result.copied(alloc)?,
        })
    }
}

impl Copied for Abstract {
    fn copied(&self, alloc: Global) -> Result<Abstract, NoMemory> {
        Ok(Abstract {
            name: self.name.copied(alloc)?,
            start: self.start,
            cats: self.cats.copied(alloc)?,
            funs: self.funs.copied(alloc)?,
        })
    }
}
