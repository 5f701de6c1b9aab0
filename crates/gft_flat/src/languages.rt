//! The languages of a resolved grammar.
use crate::abstracts::{add_origin, kinds_of, origins_at};
use crate::entries::Sources;
use crate::kinds::{Kind, linearized};
use gft_core::NoMemory;
use gft_modules::{Places, header_name, judgement_at, number_of, numbers_of, sort_of};
use gft_syntax::{FlatConcrete, FlatJudgement, Header, Module, Origin, PlacedName};
use indexmap::IndexMap;
use sqlite_items::Items;
use std::alloc::Global;

/// Whether the origin is a linearization of what the abstract module has.
fn counts(modules: &Vec<Module>, origin: &Origin, kinds: &IndexMap<&str, Kind>) -> bool {
    let Some(judgement) = judgement_at(modules, origin.module, origin.judgement) else {
        return false;
    };
    let Some(wanted) = linearized(sort_of(judgement)) else {
        return false;
    };
    match kinds.get(origin.name.as_str()).copied() {
        None => false,
        Some(kind) => kind == wanted,
    }
}

fn counted(
    alloc: Global,
    sources: Sources<'_>,
    origins: &[Origin],
    kinds: &IndexMap<&str, Kind>,
) -> Result<Items<FlatJudgement>, NoMemory> {
    let mut entries = Items::new(alloc);
    let mut places = Places::new();
    'origins: for origin in origins {
        if counts(sources.modules, origin, kinds) {
            add_origin(alloc, sources, origin, &mut places, &mut entries)?;
        }
    }
    Ok(entries)
}

fn linearizations(
    alloc: Global,
    sources: Sources<'_>,
    origins: &[Origin],
    abstracted: &[Origin],
) -> Result<Items<FlatJudgement>, NoMemory> {
    match kinds_of(alloc, sources.modules, abstracted) {
        Err(error) => Err(error),
        Ok(kinds) => counted(alloc, sources, origins, &kinds),
    }
}

/// The abstract module of a complete concrete one.
fn abstract_of(modules: &Vec<Module>, number: u32) -> Option<&PlacedName> {
    match modules.get(number as usize) {
        None => None,
        Some(module) => match &module.header {
            Header::Concrete(_, of) => Some(of),
            _ => None,
        },
    }
}

fn language(
    alloc: Global,
    sources: Sources<'_>,
    name: &PlacedName,
    origins: &[Origin],
    abstracted: &[Origin],
) -> Result<FlatConcrete, NoMemory> {
    let judgements = linearizations(alloc, sources, origins, abstracted)?;
    let name = name.name.copy(alloc)?;
    Ok(FlatConcrete { name, judgements })
}

/// A complete concrete module of that number is added.
fn add_language(
    alloc: Global,
    sources: Sources<'_>,
    origins: &Vec<Vec<Origin>>,
    number: u32,
    abstracted: &[Origin],
    languages: &mut Items<FlatConcrete>,
) -> Result<(), NoMemory> {
    if let Some(module) = sources.modules.get(number as usize) {
        let own = origins_at(origins, number);
        let name = header_name(&module.header);
        languages.push(language(alloc, sources, name, own, abstracted)?)?;
    }
    Ok(())
}

fn languages_by(
    alloc: Global,
    sources: Sources<'_>,
    origins: &Vec<Vec<Origin>>,
    chosen: &Vec<u32>,
    numbers: &IndexMap<&str, u32>,
) -> Result<Items<FlatConcrete>, NoMemory> {
    let mut languages = Items::new(alloc);
    'chosen: for number in chosen {
        if let Some(of) = abstract_of(sources.modules, *number) {
            let abstracted = match number_of(numbers, &of.name) {
                // excluded by loading
                None => &[],
                Some(number) => origins_at(origins, number),
            };
            add_language(alloc, sources, origins, *number, abstracted, &mut languages)?;
        }
    }
    Ok(languages)
}

/// The complete concrete modules among those of some numbers.
pub fn languages_of(
    alloc: Global,
    sources: Sources<'_>,
    origins: &Vec<Vec<Origin>>,
    chosen: &Vec<u32>,
) -> Result<Items<FlatConcrete>, NoMemory> {
    match numbers_of(alloc, sources.modules) {
        Err(error) => Err(error),
        Ok(numbers) => languages_by(alloc, sources, origins, chosen, &numbers),
    }
}
