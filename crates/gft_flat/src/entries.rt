//! Entries of a resolved grammar.
use crate::declarations::Declarations;
use crate::texts::{Texts, whole_of};
use gft_core::{Name, NoMemory, Place, Shared};
use gft_functor::Spot;
use gft_modules::judgements_of;
use gft_syntax::{FlatJudgement, Judgement, Module, PlacedName};
use sqlite_items::Items;
use std::alloc::Global;

/// What entries are made from.
#[derive(Clone, Copy)]
pub struct Sources<'s> {
    pub modules: &'s Vec<Module>,
    pub texts: &'s Texts,
    pub declarations: &'s Declarations,
}

fn shared_entry(
    alloc: Global,
    sources: Sources<'_>,
    spot: Spot,
    name: &Name,
    place: Place,
    judgement: Shared<Judgement>,
) -> Result<FlatJudgement, NoMemory> {
    let whole = whole_of(alloc, sources.modules, spot.module, name)?;
    let modules = sources.modules;
    let declared = sources
        .declarations
        .declared_for(alloc, modules, spot, name.as_str())?;
    Ok(FlatJudgement {
        whole,
        place,
        judgement,
        declared,
    })
}

/// The entry of a judgement under one of its names is added.
pub fn add_entry(
    alloc: Global,
    sources: Sources<'_>,
    spot: Spot,
    name: &Name,
    place: Place,
    entries: &mut Items<FlatJudgement>,
) -> Result<(), NoMemory> {
    if let Some(judgement) = sources.texts.get(spot.module, spot.judgement) {
        let judgement = judgement.share()?;
        entries.push(shared_entry(alloc, sources, spot, name, place, judgement)?)?;
    }
    Ok(())
}

fn add_one(
    alloc: Global,
    sources: Sources<'_>,
    spot: Spot,
    name: &PlacedName,
    entries: &mut Items<FlatJudgement>,
) -> Result<(), NoMemory> {
    add_entry(alloc, sources, spot, &name.name, name.place, entries)
}

fn add_each(
    alloc: Global,
    sources: Sources<'_>,
    spot: Spot,
    names: &[PlacedName],
    entries: &mut Items<FlatJudgement>,
) -> Result<(), NoMemory> {
    'names: for name in names {
        add_one(alloc, sources, spot, name, entries)?;
    }
    Ok(())
}

/// The parameter type that a judgement declares.
fn add_param(
    alloc: Global,
    sources: Sources<'_>,
    spot: Spot,
    judgement: &Judgement,
    params: &mut Items<FlatJudgement>,
) -> Result<(), NoMemory> {
    match judgement {
        Judgement::ParamName(name) => add_one(alloc, sources, spot, name, params),
        Judgement::Param(name, _) => add_one(alloc, sources, spot, name, params),
        _ => Ok(()),
    }
}

/// The opers that a judgement declares.
fn add_opers(
    alloc: Global,
    sources: Sources<'_>,
    spot: Spot,
    judgement: &Judgement,
    opers: &mut Items<FlatJudgement>,
) -> Result<(), NoMemory> {
    match judgement {
        Judgement::OperType(names, _) => add_each(alloc, sources, spot, names.as_slice(), opers),
        Judgement::OperTyped(names, _, _) => {
            add_each(alloc, sources, spot, names.as_slice(), opers)
        }
        Judgement::Oper(names, _, _) => add_each(alloc, sources, spot, names.as_slice(), opers),
        _ => Ok(()),
    }
}

/// Which judgements that terms of concrete syntax name.
#[derive(Clone, Copy, PartialEq, Eq)]
pub enum Part {
    Params,
    Opers,
}

fn add_part(
    alloc: Global,
    sources: Sources<'_>,
    part: Part,
    number: u32,
    entries: &mut Items<FlatJudgement>,
) -> Result<(), NoMemory> {
    let Some(module) = sources.modules.get(number as usize) else {
        return Ok(());
    };
    let mut judgement = 0u32;
    'judgements: for text in judgements_of(module) {
        let spot = Spot {
            module: number,
            judgement,
        };
        match part {
            Part::Params => add_param(alloc, sources, spot, text.get(), entries)?,
            Part::Opers => add_opers(alloc, sources, spot, text.get(), entries)?,
        }
        judgement = judgement.saturating_add(1);
    }
    Ok(())
}

/// The parameter types, or the opers, of the modules of those numbers.
pub fn part_of(
    alloc: Global,
    sources: Sources<'_>,
    part: Part,
    numbers: &Vec<u32>,
) -> Result<Items<FlatJudgement>, NoMemory> {
    let mut entries = Items::new(alloc);
    'numbers: for number in numbers {
        add_part(alloc, sources, part, *number, &mut entries)?;
    }
    Ok(entries)
}
