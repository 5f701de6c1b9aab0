//! The types of an abstract syntax by themselves: numbers of indices, and types of indices.
use crate::equality::{Told, fits};
use crate::lookup::function_named;
use gft_core::{NoMemory, Tree};
use gft_pmcfg::{AType, Abstract};
use gft_rules::Rule;
use std::alloc::Global;

/// The type of a tree by its head; `earlier` has the types of variables.
pub fn told<'a>(abs: &'a Abstract, earlier: &'a [AType], tree: &'a Tree) -> Told<'a> {
    match tree {
        Tree::App(f, arguments) => match function_named(abs.funs.as_slice(), f.as_str()) {
            Some(fun) => match abs.funs.get(fun as usize) {
                Some(fun) => Told::Applied(&fun.result, arguments.as_slice()),
                None => Told::Nothing,
            },
            // excluded by the grammar's invariant: each function of a type is there
            None => Told::Nothing,
        },
        Tree::Int(_) => Told::Literal(0),
        Tree::Str(_) => Told::Literal(1),
        Tree::Hole(k) => match k.checked_sub(1) {
            Some(at) => match earlier.get(at as usize) {
                Some(t) => Told::Plain(t),
                None => Told::Nothing,
            },
            None => Told::Nothing,
        },
    }
}

/// What the first fault within an index breaks.
#[cycle(indices)]
fn index_fault(abs: &Abstract, earlier: &[AType], tree: &Tree) -> Option<Rule> {
    match tree {
        Tree::App(f, arguments) => {
            let number = function_named(abs.funs.as_slice(), f.as_str())?;
            let fun = abs.funs.get(number as usize)?;
            indices_fault(abs, earlier, arguments.as_slice(), fun.args.as_slice())
        }
        Tree::Int(_) => None,
        Tree::Str(_) => None,
        Tree::Hole(_) => None,
    }
}

/// What the first fault of indices breaks: each index right after its parts, then their number.
#[cycle(indices)]
fn indices_fault(
    abs: &Abstract,
    earlier: &[AType],
    trees: &[Tree],
    wanted: &[AType],
) -> Option<Rule> {
    'each: for i in 0..trees.len() {
        if let Some(rule) = index_fault(abs, earlier, &trees[i]) {
            return Some(rule);
        }
        if let Some(t) = wanted.get(i) {
            if !fits(t, trees, told(abs, earlier, &trees[i])) {
                return Some(Rule::IndexType);
            }
        }
    }
    if trees.len() != wanted.len() {
        return Some(Rule::Arity);
    }
    None
}

fn type_fault(abs: &Abstract, earlier: &[AType], t: &AType) -> Option<Rule> {
    let cat = abs.cats.get(t.cat as usize)?;
    indices_fault(abs, earlier, t.args.as_slice(), cat.context.as_slice())
}

/// What the first fault of types breaks, each of which sees those before it.
fn context_fault(abs: &Abstract, types: &[AType]) -> Option<Rule> {
    'each: for i in 0..types.len() {
        if let Some(rule) = type_fault(abs, &types[..i], &types[i]) {
            return Some(rule);
        }
    }
    None
}

fn category_fault(abs: &Abstract, number: u32) -> Option<Rule> {
    let cat = abs.cats.get(number as usize)?;
    context_fault(abs, cat.context.as_slice())
}

fn function_fault(abs: &Abstract, number: u32) -> Option<Rule> {
    let fun = abs.funs.get(number as usize)?;
    match context_fault(abs, fun.args.as_slice()) {
        Some(rule) => Some(rule),
        None => type_fault(abs, fun.args.as_slice(), &fun.result),
    }
}

/// How many items there are, as a number.
pub fn count(len: usize) -> u32 {
    match u32::try_from(len) {
        Ok(count) => count,
        Err(_) => u32::MAX,
    }
}

/// The first category (false), else function (true), that breaks `Arity` or `IndexType`: their
/// types in order, subterms before what they stand in. It takes no memory.
pub fn check_types(_alloc: Global, abs: &Abstract) -> Result<Option<(bool, u32, Rule)>, NoMemory> {
    'categories: for number in 0..count(abs.cats.len()) {
        if let Some(rule) = category_fault(abs, number) {
            return Ok(Some((false, number, rule)));
        }
    }
    'functions: for number in 0..count(abs.funs.len()) {
        if let Some(rule) = function_fault(abs, number) {
            return Ok(Some((true, number, rule)));
        }
    }
    Ok(None)
}
