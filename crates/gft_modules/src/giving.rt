//! What the modules of a header give.
use crate::clashes::Standing;
use crate::declared::{Declared, is_copied, is_undefined, main_name, sort_of};
use crate::gathering::{Gathering, OWN};
use crate::headers::{functor_of, inherited_at, inherited_of, judgement_at, judgements_of};
use crate::known::{Import, origins_of};
use crate::restrictions::Restriction;
use gft_core::NoMemory;
use gft_syntax::{Header, Inherited, Module, PlacedName};
use indexmap::IndexSet;
use std::alloc::Global;

/// What an inherited module gives.
fn inherit_one<'a>(
    alloc: Global,
    import: Import<'a, '_>,
    inherited: &'a Inherited,
    given: u32,
    gathering: &mut Gathering,
) -> Result<(), NoMemory> {
    let place = inherited_at(inherited).place;
    let Some(origins) = origins_of(import, inherited_at(inherited)) else {
        return Ok(());
    };
    let restriction = Restriction::new(alloc, inherited)?;
    'origins: for origin in origins {
        if restriction.lets_through(origin.name.as_str()) {
            let Some(text) = judgement_at(import.modules, origin.module, origin.judgement) else {
                continue;
            };
            let key = gathering.key(alloc, sort_of(text), &origin.name)?;
            let standing = Standing {
                given,
                module: origin.module,
                judgement: origin.judgement,
            };
            if gathering.give(key, standing, place)? {
                gathering.add(alloc, &origin.name, origin.module, origin.judgement)?;
            }
        }
    }
    Ok(())
}

/// The names, without those of linearizations, that the judgements of the module itself declare.
fn own_names<'a>(alloc: Global, own: &'a Vec<Declared>) -> Result<IndexSet<&'a str>, NoMemory> {
    let mut names = IndexSet::new(alloc);
    'own: for declared in own {
        names.insert(declared.name.as_str())?;
    }
    Ok(names)
}

/// What an instance keeps of its interface: each definition that it does not replace. Its copies
/// are its own once they are made, and then it keeps nothing more.
fn keep<'a>(
    alloc: Global,
    import: Import<'a, '_>,
    interface: &'a PlacedName,
    own: &'a Vec<Declared>,
    gathering: &mut Gathering,
) -> Result<(), NoMemory> {
    let Some(origins) = origins_of(import, interface) else {
        return Ok(());
    };
    let names = own_names(alloc, own)?;
    'origins: for origin in origins {
        let Some(text) = judgement_at(import.modules, origin.module, origin.judgement) else {
            continue;
        };
        let main = main_name(text, origin.name.as_str());
        if !is_undefined(text) && !names.contains(main) {
            let key = gathering.key(alloc, sort_of(text), &origin.name)?;
            let standing = Standing {
                given: 0,
                module: OWN,
                judgement: OWN,
            };
            let _ = gathering.give(key, standing, interface.place)?;
        }
    }
    Ok(())
}

/// What the functor of a `with` gives, before its copies are made.
fn take<'a>(
    alloc: Global,
    import: Import<'a, '_>,
    functor: &'a Inherited,
    given: u32,
    gathering: &mut Gathering,
) -> Result<(), NoMemory> {
    let place = inherited_at(functor).place;
    let Some(origins) = origins_of(import, inherited_at(functor)) else {
        return Ok(());
    };
    let restriction = Restriction::new(alloc, functor)?;
    'origins: for origin in origins {
        if restriction.lets_through(origin.name.as_str()) {
            let Some(text) = judgement_at(import.modules, origin.module, origin.judgement) else {
                continue;
            };
            let key = gathering.key(alloc, sort_of(text), &origin.name)?;
            let standing = Standing {
                given,
                module: OWN,
                judgement: OWN,
            };
            let _ = gathering.give(key, standing, place)?;
        }
    }
    Ok(())
}

/// Whether the copies of the module are made.
fn has_copies(module: &Module) -> bool {
    'judgements: for judgement in judgements_of(module) {
        if is_copied(module, judgement.get()) {
            return true;
        }
    }
    false
}

/// What the header gives.
pub fn gather_header<'a>(
    alloc: Global,
    import: Import<'a, '_>,
    module: &'a Module,
    own: &'a Vec<Declared>,
    gathering: &mut Gathering,
) -> Result<(), NoMemory> {
    let mut given = 0u32;
    if let Header::Instance(_, interface) = &module.header {
        keep(alloc, import, interface, own, gathering)?;
        given = 1;
    }
    'inherited: for inherited in inherited_of(&module.rest) {
        inherit_one(alloc, import, inherited, given, gathering)?;
        given = given.saturating_add(1);
    }
    if let Some(functor) = functor_of(&module.rest) {
        if !has_copies(module) {
            take(alloc, import, functor, given, gathering)?;
        }
    }
    Ok(())
}
