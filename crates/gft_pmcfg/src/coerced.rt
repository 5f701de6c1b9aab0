//! Productions that share the arguments whose parameters they do not consult.
use crate::concrete::{Def, Info, Ref};
use gft_core::{Name, Shared, Sym};
use sqlite_items::Items;

/// An argument of a shared production: one nonterminal, or the group of that number, from 0, any
/// member of which may stand there.
#[derive(Clone, Copy, Debug, PartialEq, Eq)]
pub enum CArg {
    One(u32),
    Group(u64),
}

/// A production that stands for one production for each choice of a member of each of its groups.
#[derive(Drop)]
pub struct CProd {
    pub fun: u32,
    pub args: Items<CArg>,
    pub result: u32,
    pub seqs: Items<Shared<Items<Sym>>>,
}

/// A concrete syntax whose productions are shared. A group is a list of two or more nonterminals of
/// one category, the least first.
#[derive(Drop)]
pub struct Coerced {
    pub name: Name,
    pub infos: Items<Info>,
    pub groups: Items<Items<u32>>,
    pub prods: Items<CProd>,
    pub defs: Items<Def>,
    pub refs: Items<Ref>,
}
