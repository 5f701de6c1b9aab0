//! Rows that are alike but for one argument become one.
use crate::groups::Groups;
use crate::rows::{Row, add_alone, rows};
use gft_core::NoMemory;
use gft_pmcfg::Prod;
use indexmap::IndexSet;
use std::alloc::Global;

/// Rows without their argument at a place, each once, and the nonterminals that stood there for
/// each.
#[derive(Drop)]
struct Merging {
    rows: IndexSet<Row>,
    members: Vec<Vec<u32>>,
}

/// Takes the nonterminal of the argument at this place out of the row.
fn taken(row: &mut Row, place: usize) -> u32 {
    match row.args.get_mut(place) {
        None => 0, // the rows have as many arguments as their function
        Some(code) => {
            let nonterminal = u32::try_from(*code).unwrap_or(u32::MAX);
            *code = 0;
            nonterminal
        }
    }
}

impl Merging {
    fn add(&mut self, alloc: Global, row: Row, place: usize) -> Result<(), NoMemory> {
        let mut row = row;
        let nonterminal = taken(&mut row, place);
        let (number, is_new) = self.rows.insert_full(row)?;
        if is_new {
            self.members.push(Vec::new(alloc))?;
        }
        if let Some(members) = self.members.get_mut(number) {
            members.push(nonterminal)?;
        }
        Ok(())
    }
}

/// The rows, those that are alike but for the argument at this place being one.
fn merged_at(
    alloc: Global,
    all: Vec<Row>,
    place: usize,
    groups: &mut Groups,
) -> Result<Vec<Row>, NoMemory> {
    let mut merging = Merging {
        rows: IndexSet::new(alloc),
        members: Vec::new(alloc),
    };
    for row in all {
        merging.add(alloc, row, place)?;
    }
    let Merging { rows, members } = merging;
    let mut codes = Vec::new(alloc);
    for one in members {
        codes.push(groups.code(one)?)?;
    }
    let mut merged = Vec::new(alloc);
    for row in rows {
        let mut row = row;
        let code = match codes.as_slice().get(merged.len()) {
            None => 0, // each row has its members
            Some(code) => *code,
        };
        if let Some(arg) = row.args.get_mut(place) {
            *arg = code;
        }
        merged.push(row)?;
    }
    Ok(merged)
}

/// The place after the last production of the function that has one at this place.
fn end_of(prods: &[Prod], from: usize) -> usize {
    match prods.get(from) {
        None => from,
        Some(first) => {
            let fun = first.fun;
            prods.partition_point(|prod| prod.fun <= fun)
        }
    }
}

/// How many arguments the production at this place has.
fn arity(prods: &[Prod], from: usize) -> usize {
    match prods.get(from) {
        None => 0,
        Some(prod) => prod.args.len(),
    }
}

/// Adds the merged rows of the productions from one place to another, which are those of a
/// function.
fn add_function(
    alloc: Global,
    prods: &[Prod],
    from: usize,
    to: usize,
    groups: &mut Groups,
    all: &mut Vec<Row>,
) -> Result<(), NoMemory> {
    let arity = arity(prods, from);
    if arity == 0 || to.saturating_sub(from) == 1 {
        return add_alone(alloc, prods, from, to, all);
    }
    let mut rows = rows(alloc, prods, from, to)?;
    for place in 0..arity {
        rows = merged_at(alloc, rows, place, groups)?;
    }
    for row in rows {
        all.push(row)?;
    }
    Ok(())
}

/// The merged rows of all productions, which are in the order of files.
pub fn merged(alloc: Global, prods: &[Prod], groups: &mut Groups) -> Result<Vec<Row>, NoMemory> {
    let mut all = Vec::new(alloc);
    let mut from = 0usize;
    for _ in 0..prods.len() {
        if from >= prods.len() {
            break;
        }
        let to = end_of(prods, from);
        add_function(alloc, prods, from, to, groups, &mut all)?;
        from = to;
    }
    Ok(all)
}
