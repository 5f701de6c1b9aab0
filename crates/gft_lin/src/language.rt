//! What a concrete syntax has for a function, a category and a nonterminal, found by halving its
//! lists.
use crate::members::matching;
use gft_core::{Name, NoMemory, Shared, Sym};
use gft_pmcfg::{Abstract, CProd, Coerced, Concrete, Def, Fun, Info, Prod, Ref};
use sqlite_items::Items;
use std::alloc::Global;

/// A result of a function: its nonterminal, and a sequence for each of its components.
#[derive(Clone, Copy)]
pub struct Found<'a> {
    pub result: u32,
    pub seqs: &'a [Shared<Items<Sym>>],
}

/// An abstract syntax with the lists of one of its concrete syntaxes. Its productions are in one of
/// two lists, as they are or shared, and the other list is empty.
#[derive(Clone, Copy)]
pub struct Language<'a> {
    abs: &'a Abstract,
    infos: &'a [Info],
    prods: &'a [Prod],
    shared: &'a [CProd],
    groups: &'a [Items<u32>],
    defs: &'a [Def],
    refs: &'a [Ref],
    /// Whether each part of a tree stands in brackets of its own.
    pub is_bracketed: bool,
}

/// Whether the first list of numbers comes before the second in the order of files.
fn is_less(a: &[u32], b: &[u32]) -> bool {
    for (x, y) in a.iter().zip(b) {
        if *x != *y {
            return *x < *y;
        }
    }
    a.len() < b.len()
}

fn is_before(prod: &Prod, fun: u32, args: &[u32]) -> bool {
    if prod.fun != fun {
        return prod.fun < fun;
    }
    is_less(prod.args.as_slice(), args)
}

/// The first production that is not before those of the function with these arguments.
fn first_of(prods: &[Prod], fun: u32, args: &[u32]) -> usize {
    prods.partition_point(|prod| is_before(prod, fun, args))
}

fn is_headed(prod: &Prod, fun: u32, args: &[u32]) -> bool {
    prod.fun == fun && !is_less(args, prod.args.as_slice())
}

/// The function of this name, with its number. Functions stand in byte order of their names.
pub fn function_of<'a>(abs: &'a Abstract, name: &Name) -> Option<(u32, &'a Fun)> {
    let funs = abs.funs.as_slice();
    let text = name.as_str();
    let at = funs.partition_point(|fun| fun.name.as_str() < text);
    match funs.get(at) {
        None => None,
        Some(fun) => match u32::try_from(at) {
            Ok(number) if fun.name.as_str() == text => Some((number, fun)),
            _ => None,
        },
    }
}

impl<'a> Language<'a> {
    /// The language of a grammar whose productions stand singly.
    pub fn plain(abs: &'a Abstract, c: &'a Concrete) -> Language<'a> {
        Language {
            abs,
            infos: c.infos.as_slice(),
            prods: c.prods.as_slice(),
            shared: &[],
            groups: &[],
            defs: c.defs.as_slice(),
            refs: c.refs.as_slice(),
            is_bracketed: false,
        }
    }

    /// The language of a grammar whose productions share their arguments.
    pub fn shared(abs: &'a Abstract, c: &'a Coerced) -> Language<'a> {
        Language {
            abs,
            infos: c.infos.as_slice(),
            prods: &[],
            shared: c.prods.as_slice(),
            groups: c.groups.as_slice(),
            defs: c.defs.as_slice(),
            refs: c.refs.as_slice(),
            is_bracketed: false,
        }
    }

    /// The same language, whose values show in brackets which words are of which part of the tree.
    pub fn bracketed(self) -> Language<'a> {
        Language {
            is_bracketed: true,
            ..self
        }
    }

    /// The function of that name, with its number from 0.
    pub fn function(&self, name: &Name) -> Option<(u32, &'a Fun)> {
        function_of(self.abs, name)
    }

    /// The results of the function where its arguments have these nonterminals.
    pub fn results(
        &self,
        alloc: Global,
        fun: u32,
        args: &[u32],
    ) -> Result<Vec<Found<'a>>, NoMemory> {
        let mut found = Vec::new(alloc);
        let prods = self.prods;
        for at in first_of(prods, fun, args)..prods.len() {
            match prods.get(at) {
                Some(prod) if is_headed(prod, fun, args) => {
                    found.push(Found {
                        result: prod.result,
                        seqs: prod.seqs.as_slice(),
                    })?;
                }
                _ => break,
            }
        }
        let shared = self.shared;
        for at in matching(alloc, shared, self.groups, fun, args)?.as_slice() {
            if let Some(prod) = shared.get(*at) {
                found.push(Found {
                    result: prod.result,
                    seqs: prod.seqs.as_slice(),
                })?;
            }
        }
        Ok(found)
    }

    /// What a hole of the category gives: the results of its `lindef`.
    pub fn defs(&self, alloc: Global, cat: u32) -> Result<Vec<Found<'a>>, NoMemory> {
        let mut found = Vec::new(alloc);
        let info = match self.infos.get(cat as usize) {
            None => return Ok(found), // a category is in range
            Some(info) => *info,
        };
        let first = info.first;
        let after = first.saturating_add(info.count);
        let defs = self.defs;
        for at in defs.partition_point(|def| def.result < first)..defs.len() {
            match defs.get(at) {
                Some(def) if def.result < after => {
                    found.push(Found {
                        result: def.result,
                        seqs: def.seqs.as_slice(),
                    })?;
                }
                _ => break,
            }
        }
        Ok(found)
    }

    /// The sequences by which the components of the nonterminal make a string.
    pub fn refs(&self, alloc: Global, nonterminal: u32) -> Result<Vec<&'a [Sym]>, NoMemory> {
        let mut found = Vec::new(alloc);
        let refs = self.refs;
        for at in refs.partition_point(|one| one.arg < nonterminal)..refs.len() {
            match refs.get(at) {
                Some(one) if one.arg == nonterminal => found.push(one.seq.get().as_slice())?,
                _ => break,
            }
        }
        Ok(found)
    }
}
