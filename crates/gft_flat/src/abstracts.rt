//! The categories and functions of an abstract module.
use crate::entries::{Sources, add_entry};
use crate::kinds::{Kind, kind_of};
use gft_core::NoMemory;
use gft_functor::Spot;
use gft_modules::{Places, is_abstract};
use gft_syntax::{FlatJudgement, Module, Origin};
use indexmap::IndexMap;
use sqlite_items::Items;
use std::alloc::Global;

/// The first abstract module among those of some numbers.
pub fn abstract_in(modules: &Vec<Module>, chosen: &Vec<u32>) -> Option<u32> {
    'chosen: for number in chosen {
        if let Some(module) = modules.get(*number as usize) {
            if is_abstract(&module.header) {
                return Some(*number);
            }
        }
    }
    None
}

/// The entry of an origin is added.
pub fn add_origin(
    alloc: Global,
    sources: Sources<'_>,
    origin: &Origin,
    places: &mut Places,
    entries: &mut Items<FlatJudgement>,
) -> Result<(), NoMemory> {
    let spot = Spot {
        module: origin.module,
        judgement: origin.judgement,
    };
    match places.find(sources.modules, origin) {
        // excluded by inherit: an origin is a name of its judgement
        None => Ok(()),
        Some(place) => add_entry(alloc, sources, spot, &origin.name, place, entries),
    }
}

/// What a module has of a kind.
pub fn of_kind(
    alloc: Global,
    sources: Sources<'_>,
    origins: &[Origin],
    kind: Kind,
) -> Result<Items<FlatJudgement>, NoMemory> {
    let mut entries = Items::new(alloc);
    let mut places = Places::new();
    'origins: for origin in origins {
        if kind_of(sources.modules, origin) == kind {
            add_origin(alloc, sources, origin, &mut places, &mut entries)?;
        }
    }
    Ok(entries)
}

/// The kind of each name that an abstract module has.
pub fn kinds_of<'a>(
    alloc: Global,
    modules: &Vec<Module>,
    origins: &'a [Origin],
) -> Result<IndexMap<&'a str, Kind>, NoMemory> {
    let mut kinds = IndexMap::new(alloc);
    'origins: for origin in origins {
        kinds.insert(origin.name.as_str(), kind_of(modules, origin))?;
    }
    Ok(kinds)
}

/// What the module of that number has.
pub fn origins_at(origins: &Vec<Vec<Origin>>, number: u32) -> &[Origin] {
    match origins.get(number as usize) {
        None => &[],
        Some(origins) => origins.as_slice(),
    }
}
