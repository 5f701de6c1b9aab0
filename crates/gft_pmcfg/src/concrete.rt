//! Concrete syntax: nonterminals, productions, defs and refs.
use crate::copied::Copied;
use gft_core::{Name, NoMemory, Shared, Sym};
use sqlite_items::Items;
use std::alloc::Global;

/// What a concrete syntax makes of a category: its first nonterminal, the number of its cases, each
/// of which is a nonterminal, and the number of string cells of each.
#[derive(Clone, Copy, Debug, PartialEq, Eq)]
pub struct Info {
    pub first: u32,
    pub count: u32,
    pub dim: u32,
}

/// A production: a function, the nonterminal of each argument, the nonterminal of the result, and
/// for each component of the result its sequence.
#[derive(Drop)]
pub struct Prod {
    pub fun: u32,
    pub args: Items<u32>,
    pub result: u32,
    pub seqs: Items<Shared<Items<Sym>>>,
}

/// A result of `lindef`: what a hole gives. `Arg(0, 0)` is the hole's token.
#[derive(Drop)]
pub struct Def {
    pub result: u32,
    pub seqs: Items<Shared<Items<Sym>>>,
}

/// A result of `linref`: how the components of a nonterminal make one string. The argument is 0.
#[derive(Drop)]
pub struct Ref {
    pub arg: u32,
    pub seq: Shared<Items<Sym>>,
}

/// A concrete syntax. `infos` has an entry for each category by its number. Nonterminal 0 is that
/// of `Int` and 1 that of `String`; neither has a def or a ref of its own here.
#[derive(Drop)]
pub struct Concrete {
    pub name: Name,
    pub infos: Items<Info>,
    pub prods: Items<Prod>,
    pub defs: Items<Def>,
    pub refs: Items<Ref>,
}

impl Copied for Info {
    fn copied(&self, _alloc: Global) -> Result<Info, NoMemory> {
        Ok(*self)
    }
}

impl Copied for Prod {
    fn copied(&self, alloc: Global) -> Result<Prod, NoMemory> {
        Ok(Prod {
            fun: self.fun,
            args: self.args.copied(alloc)?,
            result: self.result,
            seqs: self.seqs.copied(alloc)?,
        })
    }
}

impl Copied for Def {
    fn copied(&self, alloc: Global) -> Result<Def, NoMemory> {
        Ok(Def {
            result: self.result,
            seqs: self.seqs.copied(alloc)?,
        })
    }
}

impl Copied for Ref {
    fn copied(&self, alloc: Global) -> Result<Ref, NoMemory> {
        Ok(Ref {
            arg: self.arg,
            seq: self.seq.copied(alloc)?,
        })
    }
}

impl Copied for Concrete {
    fn copied(&self, alloc: Global) -> Result<Concrete, NoMemory> {
        Ok(Concrete {
            name: self.name.copied(alloc)?,
            infos: self.infos.copied(alloc)?,
            prods: self.prods.copied(alloc)?,
            defs: self.defs.copied(alloc)?,
            refs: self.refs.copied(alloc)?,
        })
    }
}
