//! The resolved grammar of some modules.
use crate::abstracts::{abstract_in, of_kind, origins_at};
use crate::declarations::Declarations;
use crate::entries::{Part, Sources, part_of};
use crate::kinds::Kind;
use crate::languages::languages_of;
use crate::start::start_of;
use crate::texts::Texts;
use gft_core::{Name, NoMemory};
use gft_modules::{header_name, order_from};
use gft_syntax::{Flat, FlatConcrete, FlatJudgement, Module, Origin};
use sqlite_items::Items;
use std::alloc::Global;

/// What the abstract module gives.
#[derive(Drop)]
struct Signature {
    name: Option<Name>,
    start: Option<Name>,
    cats: Items<FlatJudgement>,
    funs: Items<FlatJudgement>,
}

fn no_signature(alloc: Global) -> Signature {
    Signature {
        name: None,
        start: None,
        cats: Items::new(alloc),
        funs: Items::new(alloc),
    }
}

fn signature_of(
    alloc: Global,
    sources: Sources<'_>,
    module: &Module,
    origins: &[Origin],
) -> Result<Signature, NoMemory> {
    let cats = of_kind(alloc, sources, origins, Kind::Category)?;
    let funs = of_kind(alloc, sources, origins, Kind::Function)?;
    let start = start_of(alloc, sources.modules, module, origins)?;
    let name = header_name(&module.header).name.copy(alloc)?;
    Ok(Signature {
        name: Some(name),
        start,
        cats,
        funs,
    })
}

fn signature_in(
    alloc: Global,
    sources: Sources<'_>,
    origins: &Vec<Vec<Origin>>,
    chosen: &Vec<u32>,
) -> Result<Signature, NoMemory> {
    let Some(number) = abstract_in(sources.modules, chosen) else {
        return Ok(no_signature(alloc));
    };
    match sources.modules.get(number as usize) {
        None => Ok(no_signature(alloc)),
        Some(module) => signature_of(alloc, sources, module, origins_at(origins, number)),
    }
}

fn in_order(
    alloc: Global,
    modules: &Vec<Module>,
    origins: &Vec<Vec<Origin>>,
    chosen: &Vec<u32>,
    order: &Vec<u32>,
) -> Result<Flat, NoMemory> {
    match Texts::new(alloc, modules, order) {
        Err(error) => Err(error),
        Ok(texts) => with_texts(alloc, modules, origins, chosen, order, &texts),
    }
}

fn with_texts(
    alloc: Global,
    modules: &Vec<Module>,
    origins: &Vec<Vec<Origin>>,
    chosen: &Vec<u32>,
    order: &Vec<u32>,
    texts: &Texts,
) -> Result<Flat, NoMemory> {
    match Declarations::new(alloc, modules, origins, order) {
        Err(error) => Err(error),
        Ok(declarations) => {
            let sources = Sources {
                modules,
                texts,
                declarations: &declarations,
            };
            flat_of(alloc, sources, origins, chosen, order)
        }
    }
}

/// What terms of concrete syntax name, and the languages.
#[derive(Drop)]
struct Concretes {
    params: Items<FlatJudgement>,
    opers: Items<FlatJudgement>,
    languages: Items<FlatConcrete>,
}

fn concretes_of(
    alloc: Global,
    sources: Sources<'_>,
    origins: &Vec<Vec<Origin>>,
    chosen: &Vec<u32>,
    order: &Vec<u32>,
) -> Result<Concretes, NoMemory> {
    let params = part_of(alloc, sources, Part::Params, order)?;
    let opers = part_of(alloc, sources, Part::Opers, order)?;
    let languages = languages_of(alloc, sources, origins, chosen)?;
    Ok(Concretes {
        params,
        opers,
        languages,
    })
}

/// The resolved grammar of the chosen modules, by their numbers, and of all that they rest on.
/// `name`, `start`, `cats` and `funs` are those of the first abstract module that is chosen;
/// `params` and `opers` those of all modules, what a module names before it; `concretes` the
/// complete concrete modules that are chosen, in that order, with what they linearize of their
/// abstract module. Nothing is typed. Needs these modules and all that they rest on resolved, and
/// in `origins`, by number, what `inherit` gave for each of them. It costs what it reads of them.
pub fn flatten(
    alloc: Global,
    modules: &Vec<Module>,
    origins: &Vec<Vec<Origin>>,
    chosen: &Vec<u32>,
) -> Result<Flat, NoMemory> {
    match order_from(alloc, modules, chosen.as_slice()) {
        Err(error) => Err(error),
        Ok(order) => in_order(alloc, modules, origins, chosen, &order),
    }
}

fn flat_of(
    alloc: Global,
    sources: Sources<'_>,
    origins: &Vec<Vec<Origin>>,
    chosen: &Vec<u32>,
    order: &Vec<u32>,
) -> Result<Flat, NoMemory> {
    let concretes = concretes_of(alloc, sources, origins, chosen, order)?;
    let signature = signature_in(alloc, sources, origins, chosen)?;
    Ok(joined(alloc, signature, concretes))
}

fn joined(alloc: Global, signature: Signature, concretes: Concretes) -> Flat {
    let Signature {
        name,
        start,
        cats,
        funs,
    } = signature;
    let Concretes {
        params,
        opers,
        languages,
    } = concretes;
    Flat {
        name,
        start,
        cats,
        funs,
        params,
        opers,
        concretes: languages,
        typed: Items::new(alloc),
    }
}
