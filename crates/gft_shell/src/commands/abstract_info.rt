//! `abstract_info`: the judgements of the abstract syntax.
use super::Given;
use crate::item::{Item, push};
use crate::refusing::stop_at;
use gft_abs::{category_named, function_named, show_category, show_function};
use gft_core::NoMemory;
use gft_rules::{Rule, Stop};

fn push_category(given: Given<'_>, cat: u32, items: &mut Vec<Item>) -> Result<(), NoMemory> {
    let text = show_category(given.alloc, &given.held.grammar.abs, cat)?;
    push(items, Item::Line(text))
}

fn push_function(given: Given<'_>, fun: u32, items: &mut Vec<Item>) -> Result<(), NoMemory> {
    let text = show_function(given.alloc, &given.held.grammar.abs, fun)?;
    push(items, Item::Line(text))
}

/// Adds all judgements: categories by name, without those that are built in, then functions by
/// name.
pub fn all(given: Given<'_>, items: &mut Vec<Item>) -> Result<(), NoMemory> {
    let abs = &given.held.grammar.abs;
    let mut cat = 2u32;
    'categories: for _ in 2..abs.cats.len() {
        push_category(given, cat, items)?;
        cat = cat.saturating_add(1);
    }
    let mut fun = 0u32;
    'functions: for _ in 0..abs.funs.len() {
        push_function(given, fun, items)?;
        fun = fun.saturating_add(1);
    }
    Ok(())
}

/// The category of that name that is not built in.
fn listed_category(given: Given<'_>, name: &str) -> Option<u32> {
    match category_named(given.held.grammar.abs.cats.as_slice(), name) {
        Some(cat) if cat >= 2 => Some(cat),
        Some(_) => None,
        None => None,
    }
}

/// Adds the judgements by that name: the category, then the function. A name of neither is refused.
pub fn named(given: Given<'_>, name: &str, items: &mut Vec<Item>) -> Result<(), Stop> {
    let cat = listed_category(given, name);
    let fun = function_named(given.held.grammar.abs.funs.as_slice(), name);
    if cat.is_none() && fun.is_none() {
        return Err(stop_at(given.alloc, Rule::UnknownName, &[name]));
    }
    if let Some(cat) = cat {
        push_category(given, cat, items)?;
    }
    if let Some(fun) = fun {
        push_function(given, fun, items)?;
    }
    Ok(())
}
