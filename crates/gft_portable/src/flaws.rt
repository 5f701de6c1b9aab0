//! What is wrong with a grammar whose fields are all in range and in order.
use crate::cases::Version;
use crate::fault::{Flaw, ReadErr};
use crate::productions::{Language, Production};
use crate::sharing::unshared;
use crate::syntax::Syntax;
use gft_abs::check_types;
use gft_core::NoMemory;
use gft_pmcfg::{Abstract, Concrete};
use gft_reduce::{reduce, unproductive as left_out};
use gft_rules::Rule;
use std::alloc::Global;

/// Where the category or the function of this number begins.
fn place_of(syntax: &Syntax, is_function: bool, number: u32) -> u32 {
    let entry = if is_function {
        syntax.funs.get(number as usize)
    } else {
        syntax.cats.get((number as usize).saturating_sub(2))
    };
    match entry {
        None => 0, // numbers are those of what was read
        Some(entry) => entry.at,
    }
}

/// The first category or function whose types do not fit.
pub fn check_abstract(alloc: Global, syntax: &Syntax, abs: &Abstract) -> Result<(), ReadErr> {
    match check_types(alloc, abs)? {
        None => Ok(()),
        Some((is_function, number, rule)) => {
            let flaw = if rule == Rule::Arity {
                Flaw::Arity
            } else {
                Flaw::IndexType
            };
            Err(ReadErr::Invalid(flaw, place_of(syntax, is_function, number)))
        }
    }
}

fn set(reached: &mut Vec<bool>, nonterminal: u32) {
    if let Some(is_reached) = reached.get_mut(nonterminal as usize) {
        *is_reached = true;
    }
}

/// For each nonterminal whether it has a run: literals, holes that a def fills, and the results of
/// productions whose arguments have runs.
fn reached(alloc: Global, abs: &Abstract, c: &Concrete, total: u32) -> Result<Vec<bool>, NoMemory> {
    let kept = reduce(alloc, c, abs)?;
    let mut reached = Vec::new(alloc);
    for nonterminal in 0..total {
        reached.push(nonterminal < 2)?;
    }
    for def in c.defs.as_slice() {
        set(&mut reached, def.result);
    }
    for prod in kept.prods.as_slice() {
        set(&mut reached, prod.result);
    }
    Ok(reached)
}

fn is_set(reached: &[bool], nonterminal: u32) -> bool {
    match reached.get(nonterminal as usize) {
        None => false, // nonterminals are in range
        Some(is_reached) => *is_reached,
    }
}

/// For each group whether all its members have runs.
fn reached_groups(
    alloc: Global,
    language: &Language,
    reached: &[bool],
) -> Result<Vec<bool>, NoMemory> {
    let mut whole = Vec::new(alloc);
    for number in 0..language.groups.len() {
        let members = language.groups.members(number);
        whole.push(members.iter().all(|member| is_set(reached, *member)))?;
    }
    Ok(whole)
}

fn is_productive(language: &Language, reached: &[bool], whole: &[bool], one: Production) -> bool {
    for argument in language.arguments(one) {
        let has_run = match language.group(*argument) {
            None => is_set(reached, *argument),
            Some(group) => is_set(whole, group),
        };
        if !has_run {
            return false;
        }
    }
    true
}

/// Where the first production stands that some choice of members leaves without a run. Most files
/// have none, which is seen without a copy of the productions.
fn unproductive(
    alloc: Global,
    abs: &Abstract,
    language: &Language,
    c: &Concrete,
) -> Result<Option<u32>, NoMemory> {
    if left_out(alloc, c, abs)?.is_none() {
        return Ok(None);
    }
    let reached = reached(alloc, abs, c, language.cases.total)?;
    let whole = reached_groups(alloc, language, reached.as_slice())?;
    for one in language.prods.as_slice() {
        if !is_productive(language, reached.as_slice(), whole.as_slice(), *one) {
            return Ok(Some(one.at));
        }
    }
    Ok(None)
}

/// What is not used, and what is not shared.
fn check_sharing(alloc: Global, language: &Language, c: &Concrete) -> Result<(), ReadErr> {
    if let Some(at) = language.sequences.unused() {
        return Err(ReadErr::Invalid(Flaw::Unused, at));
    }
    if let Some(at) = language.groups.unused() {
        return Err(ReadErr::Invalid(Flaw::Unused, at));
    }
    match unshared(alloc, language, c)? {
        None => Ok(()),
        Some(at) => Err(ReadErr::Invalid(Flaw::Unshared, at)),
    }
}

/// The first flaw of a language.
pub fn check_concrete(
    alloc: Global,
    abs: &Abstract,
    language: &Language,
    c: &Concrete,
) -> Result<(), ReadErr> {
    if language.version == Version::Two {
        check_sharing(alloc, language, c)?;
    }
    match unproductive(alloc, abs, language, c)? {
        None => Ok(()),
        Some(at) => Err(ReadErr::Invalid(Flaw::Unproductive, at)),
    }
}
