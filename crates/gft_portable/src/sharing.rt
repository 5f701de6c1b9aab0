//! Whether the productions of a file are those that share their arguments as far as they can.
use crate::alike::alike;
use crate::productions::{Language, Production};
use crate::rows::{Row, of_function, rows_of};
use gft_coerce::coerce;
use gft_core::{NoMemory, Shared, Sym};
use gft_pmcfg::{CArg, CProd, Coerced, Concrete, Prod};
use indexmap::{IndexMap, IndexSet};
use sqlite_items::Items;
use std::alloc::Global;

fn vec_of(alloc: Global, slice: &[u32]) -> Result<Vec<u32>, NoMemory> {
    let mut all = Vec::new(alloc);
    all.extend_from_slice(slice)?;
    Ok(all)
}

/// One sequence that stands for several by their numbers.
fn numbered(alloc: Global, numbers: &[u32]) -> Result<Items<Shared<Items<Sym>>>, NoMemory> {
    let mut symbols = Items::new(alloc);
    for number in numbers {
        symbols.push(Sym::Arg(*number, 0))?;
    }
    let mut seqs = Items::new(alloc);
    seqs.push(Shared::new(alloc, symbols)?)?;
    Ok(seqs)
}

/// A row as a production whose sequences are numbers.
fn prod_of(alloc: Global, fun: u32, row: &Row) -> Result<Prod, NoMemory> {
    Ok(Prod {
        fun,
        args: Items::from_slice(alloc, row.args.as_slice())?,
        result: row.result,
        seqs: numbered(alloc, row.seqs.as_slice())?,
    })
}

/// Adds the productions of one function, groups written out.
fn add_written_out(
    alloc: Global,
    language: &Language,
    of: &[Production],
    prods: &mut Items<Prod>,
) -> Result<(), NoMemory> {
    let Some(first) = of.first() else {
        return Ok(());
    };
    for row in rows_of(alloc, language, of)? {
        prods.push(prod_of(alloc, first.fun, &row)?)?;
    }
    Ok(())
}

/// The concrete syntax of these productions alone, groups written out and sequences as numbers.
fn written_out(
    alloc: Global,
    language: &Language,
    all: &[Production],
    c: &Concrete,
) -> Result<Concrete, NoMemory> {
    let mut prods = Items::new(alloc);
    let mut from = 0usize;
    for _ in 0..all.len() {
        let of = of_function(all, from);
        if of.is_empty() {
            break;
        }
        add_written_out(alloc, language, of, &mut prods)?;
        from = from.saturating_add(of.len());
    }
    Ok(Concrete {
        name: c.name.copy(alloc)?,
        infos: Items::from_slice(alloc, c.infos.as_slice())?,
        prods,
        defs: Items::new(alloc),
        refs: Items::new(alloc),
    })
}

/// The file's number of each of its groups.
fn group_numbers(alloc: Global, language: &Language) -> Result<IndexMap<Vec<u32>, u32>, NoMemory> {
    let mut numbers = IndexMap::new(alloc);
    for number in 0..language.groups.len() {
        let members = vec_of(alloc, language.groups.members(number))?;
        numbers.insert(members, number)?;
    }
    Ok(numbers)
}

/// For each group of the shared concrete syntax the file's number, none where the file lacks it.
fn groups(
    alloc: Global,
    language: &Language,
    shared: &Coerced,
) -> Result<Vec<Option<u32>>, NoMemory> {
    let numbers = group_numbers(alloc, language)?;
    let mut groups = Vec::new(alloc);
    for group in shared.groups.as_slice() {
        let members = vec_of(alloc, group.as_slice())?;
        groups.push(numbers.get(&members).copied())?;
    }
    Ok(groups)
}

/// The file's number for an argument, where the nonterminals are so many. None where the file has
/// no such group.
fn argument(groups: &[Option<u32>], total: u32, arg: CArg) -> Option<u32> {
    match arg {
        CArg::One(nonterminal) => Some(nonterminal),
        CArg::Group(group) => {
            let place = usize::try_from(group).ok()?;
            let number = (*groups.get(place)?)?;
            total.checked_add(number)
        }
    }
}

/// Adds the file's numbers for arguments. False where it lacks a group.
fn add_arguments(
    key: &mut Vec<u32>,
    groups: &[Option<u32>],
    total: u32,
    args: &[CArg],
) -> Result<bool, NoMemory> {
    for arg in args {
        match argument(groups, total, *arg) {
            None => return Ok(false),
            Some(number) => key.push(number)?,
        }
    }
    Ok(true)
}

/// Adds the numbers that stand in the place of sequences.
fn add_numbers(key: &mut Vec<u32>, seqs: &[Shared<Items<Sym>>]) -> Result<(), NoMemory> {
    for seq in seqs {
        for symbol in seq.get().as_slice() {
            if let Sym::Arg(number, _) = symbol {
                key.push(*number)?;
            }
        }
    }
    Ok(())
}

/// A shared production as the file would have it: its function, arguments, result and sequences.
/// None where it has a group that the file lacks.
fn shared_key(
    alloc: Global,
    groups: &[Option<u32>],
    total: u32,
    prod: &CProd,
) -> Result<Option<Vec<u32>>, NoMemory> {
    let mut key = Vec::new(alloc);
    key.push(prod.fun)?;
    if !add_arguments(&mut key, groups, total, prod.args.as_slice())? {
        return Ok(None);
    }
    key.push(prod.result)?;
    add_numbers(&mut key, prod.seqs.as_slice())?;
    Ok(Some(key))
}

/// A production of the file in the same form.
fn key_of(alloc: Global, language: &Language, one: Production) -> Result<Vec<u32>, NoMemory> {
    let mut key = Vec::new(alloc);
    key.push(one.fun)?;
    key.extend_from_slice(language.arguments(one))?;
    key.push(one.result)?;
    key.extend_from_slice(language.sequence_numbers(one))?;
    Ok(key)
}

/// What these productions become where they share arguments, as the file would have it.
fn keys(
    alloc: Global,
    language: &Language,
    all: &[Production],
    c: &Concrete,
) -> Result<IndexSet<Vec<u32>>, NoMemory> {
    let shared = coerce(alloc, &written_out(alloc, language, all, c)?)?;
    let groups = groups(alloc, language, &shared)?;
    let mut keys = IndexSet::new(alloc);
    for prod in shared.prods.as_slice() {
        let key = shared_key(alloc, groups.as_slice(), language.cases.total, prod)?;
        if let Some(key) = key {
            keys.insert(key)?;
        }
    }
    Ok(keys)
}

/// Where the first production stands that is not one of the shared ones of the concrete syntax.
/// Only those that are like another one are looked at: any other is what it becomes.
pub fn unshared(alloc: Global, language: &Language, c: &Concrete) -> Result<Option<u32>, NoMemory> {
    let alike = alike(alloc, language)?;
    if alike.is_empty() {
        return Ok(None);
    }
    let keys = keys(alloc, language, alike.as_slice(), c)?;
    for one in alike.as_slice() {
        let key = key_of(alloc, language, *one)?;
        if !keys.contains(&key) {
            return Ok(Some(one.at));
        }
    }
    Ok(None)
}
