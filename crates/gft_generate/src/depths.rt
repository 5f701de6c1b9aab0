//! How deep the trees of each category are, whatever the indices of their types.
use gft_abs::{at, filled, put};
use gft_core::NoMemory;
use gft_pmcfg::{AType, Abstract, Fun};
use std::alloc::Global;

/// By category, the depth of its least deep trees and of its deepest ones within the depth that was
/// asked for. Both are 0 where there are none.
#[derive(Drop)]
pub struct Depths {
    least: Vec<u32>,
    most: Vec<u32>,
}

/// The depth of a function's trees, by those of its arguments. 0 where an argument has none.
fn over(depths: &[u32], types: &[AType]) -> u32 {
    let mut most = 0u32;
    'types: for one in types {
        let depth = at(depths, one.cat);
        if depth == 0 {
            return 0;
        }
        most = most.max(depth);
    }
    most.saturating_add(1)
}

/// Puts a greater or a less depth at a place. Whether it was put.
fn improve(depths: &mut Vec<u32>, cat: u32, depth: u32, is_less: bool) -> bool {
    let here = at(depths.as_slice(), cat);
    let is_better = if here == 0 {
        true
    } else if is_less {
        depth < here
    } else {
        depth > here
    };
    if is_better {
        put(depths, cat, depth);
    }
    is_better
}

/// Depths of literals alone.
fn of_literals(alloc: Global, abs: &Abstract) -> Result<Vec<u32>, NoMemory> {
    let count = u32::try_from(abs.cats.len()).unwrap_or(u32::MAX);
    let mut depths = filled(alloc, count, 0)?;
    put(&mut depths, 0, 1);
    put(&mut depths, 1, 1);
    Ok(depths)
}

impl Depths {
    /// The depths for an abstract syntax, of trees within this depth.
    pub fn of(alloc: Global, abs: &Abstract, depth: u32) -> Result<Depths, NoMemory> {
        let mut depths = Depths {
            least: of_literals(alloc, abs)?,
            most: of_literals(alloc, abs)?,
        };
        'rounds: for _ in 0..depth {
            if !depths.round(abs.funs.as_slice(), depth) {
                break;
            }
        }
        Ok(depths)
    }

    /// Goes through all functions once. Whether something changed.
    fn round(&mut self, funs: &[Fun], depth: u32) -> bool {
        let mut changed = false;
        'funs: for fun in funs {
            changed = self.add(fun, depth) || changed;
        }
        changed
    }

    fn add(&mut self, fun: &Fun, depth: u32) -> bool {
        let cat = fun.result.cat;
        let least = over(self.least.as_slice(), fun.args.as_slice());
        if least == 0 || least > depth {
            return false;
        }
        let most = over(self.most.as_slice(), fun.args.as_slice()).min(depth);
        let is_less = improve(&mut self.least, cat, least, true);
        improve(&mut self.most, cat, most, false) || is_less
    }

    /// The depth within which all trees of a category within that depth are. 0 where there are
    /// none.
    pub fn within(&self, cat: u32, depth: u32) -> u32 {
        let least = at(self.least.as_slice(), cat);
        if least == 0 || least > depth {
            return 0;
        }
        depth.min(at(self.most.as_slice(), cat))
    }
}
