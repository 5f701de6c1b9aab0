//! Where the shared productions of each function stand.
use crate::members::{Range, is_member, ranges_in};
use gft_core::NoMemory;
use gft_pmcfg::{Abstract, CArg, CProd, Coerced};
use sqlite_items::Items;
use std::alloc::Global;

/// How many productions are looked at one after the other. Among more, those that fit are found by
/// halving.
const FEW: usize = 8;

/// The shared productions of a concrete syntax by their functions, made once for many trees.
#[derive(Drop)]
pub struct Index {
    /// The place of the first production of each function, and after the last one their number.
    starts: Vec<usize>,
}

impl Index {
    /// The index of a concrete syntax. The time grows with the functions, times the logarithm of
    /// the productions.
    pub fn new(alloc: Global, abs: &Abstract, c: &Coerced) -> Result<Index, NoMemory> {
        let prods = c.prods.as_slice();
        let mut starts = Vec::new(alloc);
        let mut fun = 0u32;
        'functions: for _ in 0..=abs.funs.len() {
            starts.push(prods.partition_point(|prod| prod.fun < fun))?;
            fun = fun.saturating_add(1);
        }
        Ok(Index { starts })
    }

    fn start(&self, fun: usize) -> usize {
        match self.starts.get(fun) {
            Some(start) => *start,
            None => 0, // a function is in range
        }
    }

    /// The productions of a function.
    pub fn range(&self, fun: u32) -> Range {
        let fun = fun as usize;
        Range {
            from: self.start(fun),
            to: self.start(fun.saturating_add(1)),
        }
    }
}

fn may_be(groups: &[Items<u32>], arg: CArg, nonterminal: u32) -> bool {
    match arg {
        CArg::One(one) => one == nonterminal,
        CArg::Group(group) => is_member(groups, group, nonterminal),
    }
}

/// Whether the arguments of a production may be these nonterminals.
fn takes(groups: &[Items<u32>], prod: &CProd, args: &[u32]) -> bool {
    let mut place = 0usize;
    'arguments: for arg in prod.args.as_slice() {
        match args.get(place) {
            Some(nonterminal) if may_be(groups, *arg, *nonterminal) => {}
            _ => return false,
        }
        place = place.saturating_add(1);
    }
    place == args.len()
}

/// The place of the one production of a short range that takes these arguments.
fn only_of_few(
    shared: &[CProd],
    groups: &[Items<u32>],
    range: Range,
    args: &[u32],
) -> Option<usize> {
    let mut found = None;
    for at in range.from..range.to {
        match shared.get(at) {
            Some(prod) if takes(groups, prod, args) => {
                if found.is_some() {
                    return None;
                }
                found = Some(at);
            }
            _ => {}
        }
    }
    found
}

/// The place of the one production of a range that takes these arguments. None where there is none,
/// and where there are several.
pub fn only(
    alloc: Global,
    shared: &[CProd],
    groups: &[Items<u32>],
    range: Range,
    args: &[u32],
) -> Result<Option<usize>, NoMemory> {
    if range.to.saturating_sub(range.from) <= FEW {
        return Ok(only_of_few(shared, groups, range, args));
    }
    match ranges_in(alloc, shared, groups, range, args)?.as_slice() {
        [one] if one.to.saturating_sub(one.from) == 1 => Ok(Some(one.from)),
        _ => Ok(None),
    }
}
