//! Types of closed trees.
use crate::equality::fits;
use crate::lookup::function_named;
use crate::replacing::type_replaced;
use crate::types::told;
use gft_core::{NoMemory, Tree};
use gft_pmcfg::{AType, Abstract, Fun};
use sqlite_items::Items;
use std::alloc::Global;

/// The function of a name.
pub fn signature<'a>(abs: &'a Abstract, name: &str) -> Option<&'a Fun> {
    let number = function_named(abs.funs.as_slice(), name)?;
    abs.funs.get(number as usize)
}

/// Whether trees have the types of arguments.
fn arguments_fit(abs: &Abstract, fun: &Fun, trees: &[Tree]) -> bool {
    let wanted = fun.args.as_slice();
    if wanted.len() != trees.len() {
        return false;
    }
    'each: for i in 0..trees.len() {
        if !fits(&wanted[i], trees, told(abs, &[], &trees[i])) {
            return false;
        }
    }
    true
}

/// Whether a closed tree has a type.
#[cycle(typed)]
fn is_typed(abs: &Abstract, tree: &Tree) -> bool {
    match tree {
        Tree::App(f, arguments) => match signature(abs, f.as_str()) {
            Some(fun) => {
                are_typed(abs, arguments.as_slice())
                    && arguments_fit(abs, fun, arguments.as_slice())
            }
            None => false,
        },
        Tree::Int(_) => true,
        Tree::Str(_) => true,
        Tree::Hole(_) => false,
    }
}

#[cycle(typed)]
fn are_typed(abs: &Abstract, trees: &[Tree]) -> bool {
    'each: for tree in trees {
        if !is_typed(abs, tree) {
            return false;
        }
    }
    true
}

/// The type of literals of a category.
fn literal(alloc: Global, cat: u32) -> AType {
    AType {
        cat,
        args: Items::new(alloc),
    }
}

/// The type of a closed tree, None where it has none.
pub fn type_of(alloc: Global, abs: &Abstract, tree: &Tree) -> Result<Option<AType>, NoMemory> {
    if !is_typed(abs, tree) {
        return Ok(None);
    }
    match tree {
        Tree::App(f, arguments) => match signature(abs, f.as_str()) {
            Some(fun) => Ok(Some(type_replaced(alloc, &fun.result, arguments.as_slice())?)),
            None => Ok(None),
        },
        Tree::Int(_) => Ok(Some(literal(alloc, 0))),
        Tree::Str(_) => Ok(Some(literal(alloc, 1))),
        Tree::Hole(_) => Ok(None),
    }
}
