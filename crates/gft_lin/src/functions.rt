//! A tree by the numbers of its functions.
use crate::language::function_of;
use gft_core::{Name, NoMemory, Tree};
use gft_pmcfg::{Abstract, Fun};
use std::alloc::Global;

/// Whether the function has so many arguments and gives a tree of the category, where one is
/// wanted.
fn fits(fun: &Fun, count: usize, wanted: Option<u32>) -> bool {
    match wanted {
        None => fun.args.len() == count,
        Some(cat) => fun.args.len() == count && fun.result.cat == cat,
    }
}

/// Adds the functions of the arguments of a function.
#[cycle(push)]
fn push_arguments(
    abs: &Abstract,
    fun: &Fun,
    trees: &[Tree],
    all: &mut Vec<u32>,
) -> Result<bool, NoMemory> {
    let mut place = 0usize;
    'each: for tree in trees {
        let Some(atype) = fun.args.get(place) else {
            return Ok(false);
        };
        if !push_tree(abs, Some(atype.cat), tree, all)? {
            return Ok(false);
        }
        place = place.saturating_add(1);
    }
    Ok(true)
}

#[cycle(push)]
fn push_application(
    abs: &Abstract,
    wanted: Option<u32>,
    name: &Name,
    trees: &[Tree],
    all: &mut Vec<u32>,
) -> Result<bool, NoMemory> {
    let Some((number, fun)) = function_of(abs, name) else {
        return Ok(false);
    };
    if !fits(fun, trees.len(), wanted) || !push_arguments(abs, fun, trees, all)? {
        return Ok(false);
    }
    all.push(number)?;
    Ok(true)
}

/// Adds the functions of a tree. False where a part is a literal or a hole, or does not fit its
/// place.
#[cycle(push)]
fn push_tree(
    abs: &Abstract,
    wanted: Option<u32>,
    tree: &Tree,
    all: &mut Vec<u32>,
) -> Result<bool, NoMemory> {
    match tree {
        Tree::App(name, trees) => push_application(abs, wanted, name, trees.as_slice(), all),
        Tree::Int(_) => Ok(false),
        Tree::Str(_) => Ok(false),
        Tree::Hole(_) => Ok(false),
    }
}

/// The numbers of the functions of a tree, each after those of its arguments. None where a part of
/// the tree is a literal or a hole, has another number of arguments than its function, or is of
/// another category than its place. The stack that it takes grows with the tree's depth.
pub fn functions_of(
    alloc: Global,
    abs: &Abstract,
    tree: &Tree,
) -> Result<Option<Vec<u32>>, NoMemory> {
    let mut all = Vec::new(alloc);
    if push_tree(abs, None, tree, &mut all)? {
        Ok(Some(all))
    } else {
        Ok(None)
    }
}
