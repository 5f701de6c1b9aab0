//! The shared concrete syntax, from merged rows and groups.
use crate::groups::{Groups, Places};
use crate::rows::Row;
use gft_core::{NoMemory, Shared, Sym};
use gft_pmcfg::{CArg, CProd, Coerced, Concrete, Def, Info, Prod, Ref};
use sqlite_items::Items;
use std::alloc::Global;

fn shared_sequences(
    alloc: Global,
    seqs: &[Shared<Items<Sym>>],
) -> Result<Items<Shared<Items<Sym>>>, NoMemory> {
    let mut all = Vec::with_capacity(alloc, seqs.len())?;
    for seq in seqs {
        all.push(seq.share()?)?;
    }
    Ok(Items::from_vec(all))
}

fn copied_defs(alloc: Global, defs: &[Def]) -> Result<Items<Def>, NoMemory> {
    let mut all = Items::new(alloc);
    for def in defs {
        let seqs = shared_sequences(alloc, def.seqs.as_slice())?;
        all.push(Def {
            result: def.result,
            seqs,
        })?;
    }
    Ok(all)
}

fn copied_refs(alloc: Global, refs: &[Ref]) -> Result<Items<Ref>, NoMemory> {
    let mut all = Items::new(alloc);
    for one in refs {
        all.push(Ref {
            arg: one.arg,
            seq: one.seq.share()?,
        })?;
    }
    Ok(all)
}

/// How many nonterminals the categories have.
fn nonterminals(infos: &[Info]) -> u32 {
    match infos.last() {
        None => 0,
        Some(info) => info.first.saturating_add(info.count),
    }
}

/// The codes in the order of files: a group is the number of nonterminals plus its place.
fn place_codes(row: &mut Row, places: &Places, total: u32) {
    for place in 0..row.args.len() {
        if let Some(code) = row.args.get_mut(place) {
            if let Some(group) = places.place(*code) {
                *code = (total as u64).saturating_add(group);
            }
        }
    }
}

/// The rows with the places of groups, in order.
fn in_order(
    alloc: Global,
    merged: Vec<Row>,
    places: &Places,
    total: u32,
) -> Result<Vec<Row>, NoMemory> {
    let mut rows = Vec::with_capacity(alloc, merged.len())?;
    for row in merged {
        let mut row = row;
        place_codes(&mut row, places, total);
        rows.push(row)?;
    }
    rows.sort()?;
    Ok(rows)
}

/// What the code of an argument is.
fn argument(code: u64, total: u32) -> CArg {
    if code >= total as u64 {
        return CArg::Group(code - total as u64);
    }
    match u32::try_from(code) {
        Ok(nonterminal) => CArg::One(nonterminal),
        Err(_) => CArg::Group(code), // the nonterminals are below their number
    }
}

fn arguments(alloc: Global, codes: &[u64], total: u32) -> Result<Items<CArg>, NoMemory> {
    let mut args = Items::new(alloc);
    for code in codes {
        args.push(argument(*code, total))?;
    }
    Ok(args)
}

/// The sequences of the production at this place.
fn sequences(
    alloc: Global,
    prods: &[Prod],
    sample: usize,
) -> Result<Items<Shared<Items<Sym>>>, NoMemory> {
    match prods.get(sample) {
        None => Ok(Items::new(alloc)), // a sample is the place of a production
        Some(prod) => shared_sequences(alloc, prod.seqs.as_slice()),
    }
}

fn productions(
    alloc: Global,
    rows: &[Row],
    prods: &[Prod],
    total: u32,
) -> Result<Items<CProd>, NoMemory> {
    let mut all = Vec::with_capacity(alloc, rows.len())?;
    for row in rows {
        all.push(CProd {
            fun: row.fun,
            args: arguments(alloc, row.args.as_slice(), total)?,
            result: row.result,
            seqs: sequences(alloc, prods, row.sample)?,
        })?;
    }
    Ok(Items::from_vec(all))
}

/// The concrete syntax with these productions and groups.
pub fn coerced(
    alloc: Global,
    c: &Concrete,
    groups: Groups,
    merged: Vec<Row>,
) -> Result<Coerced, NoMemory> {
    let (groups, places) = groups.placed(alloc)?;
    let total = nonterminals(c.infos.as_slice());
    let rows = in_order(alloc, merged, &places, total)?;
    Ok(Coerced {
        name: c.name.copy(alloc)?,
        infos: Items::from_slice(alloc, c.infos.as_slice())?,
        groups,
        prods: productions(alloc, rows.as_slice(), c.prods.as_slice(), total)?,
        defs: copied_defs(alloc, c.defs.as_slice())?,
        refs: copied_refs(alloc, c.refs.as_slice())?,
    })
}
