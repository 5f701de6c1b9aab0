//! What an instance keeps of its interface, and what it gives for the rest.
use crate::functors::{Import, origins_of};
use crate::plan::Plan;
use crate::replacements::{Spot, is_named, spot_of};
use gft_core::{NoMemory, Place};
use gft_modules::{
    Declared, First, Restriction, first_place, inherited_at, inherited_of, is_undefined,
    judgement_at, main_name, refuse,
};
use gft_rules::{Rule, Stop};
use gft_syntax::{Inherited, Module, Origin};
use indexmap::{IndexMap, IndexSet};
use std::alloc::Global;

/// Whether the interface leaves the definition to its instances.
pub fn is_left_open(modules: &Vec<Module>, origin: &Origin) -> bool {
    match judgement_at(modules, origin.module, origin.judgement) {
        None => false,
        Some(judgement) => is_undefined(judgement),
    }
}

/// Whether the instance keeps the definition: it declares nothing by the name, nor by that of its
/// parameter type.
fn is_kept(modules: &Vec<Module>, origin: &Origin, own: &IndexSet<&str>) -> bool {
    match judgement_at(modules, origin.module, origin.judgement) {
        None => false,
        Some(judgement) => {
            !is_undefined(judgement) && !own.contains(main_name(judgement, origin.name.as_str()))
        }
    }
}

/// The definitions of the interface that the instance does not replace are copied.
pub fn take_kept(
    alloc: Global,
    modules: &Vec<Module>,
    m: u32,
    interface: &Vec<Origin>,
    own: &Vec<Declared>,
    plan: &mut Plan,
) -> Result<(), NoMemory> {
    let mut names = IndexSet::new(alloc);
    'own: for declared in own {
        names.insert(declared.name.as_str())?;
    }
    'origins: for origin in interface {
        if is_named(modules, origin) && is_kept(modules, origin, &names) {
            plan.take(alloc, modules, m, origin)?;
        }
    }
    Ok(())
}

/// What an inherited module gives is there, where nothing else is.
fn add_inherited<'a>(
    alloc: Global,
    import: Import<'a, '_>,
    inherited: &Inherited,
    there: &mut IndexMap<&'a str, Spot>,
) -> Result<(), NoMemory> {
    let Some(origins) = origins_of(import, inherited_at(inherited)) else {
        return Ok(());
    };
    let restriction = Restriction::new(alloc, inherited)?;
    'origins: for origin in origins {
        let name = origin.name.as_str();
        if restriction.lets_through(name) && is_named(import.modules, origin) {
            if !there.contains_key(name) {
                there.insert(name, spot_of(origin))?;
            }
        }
    }
    Ok(())
}

/// What the instance declares and inherits, its own judgements numbered behind the copies.
pub fn given_by<'a>(
    alloc: Global,
    import: Import<'a, '_>,
    m: u32,
    module: &Module,
    own: &'a Vec<Declared>,
    copies: u32,
) -> Result<IndexMap<&'a str, Spot>, NoMemory> {
    let mut there = IndexMap::new(alloc);
    'own: for declared in own {
        let judgement = declared.judgement.saturating_add(copies);
        let spot = Spot {
            module: m,
            judgement,
        };
        there.insert(declared.name.as_str(), spot)?;
    }
    'inherited: for inherited in inherited_of(&module.rest) {
        add_inherited(alloc, import, inherited, &mut there)?;
    }
    Ok(there)
}

/// What the instance gives stands for what the interface has under the same name.
pub fn replace_given(
    alloc: Global,
    modules: &Vec<Module>,
    interface: &Vec<Origin>,
    there: &IndexMap<&str, Spot>,
    plan: &mut Plan,
) -> Result<(), NoMemory> {
    'origins: for origin in interface {
        let name = origin.name.as_str();
        if is_named(modules, origin) {
            if let Some(spot) = there.get(name).copied() {
                plan.replacements.replace(alloc, origin.module, name, spot)?;
            }
        }
    }
    Ok(())
}

/// Refuses the least name of what the interface leaves open and the instance does not give.
pub fn check_given<'a>(
    alloc: Global,
    modules: &Vec<Module>,
    interface: &'a Vec<Origin>,
    there: &IndexMap<&str, Spot>,
    place: Place,
) -> Result<(), Stop> {
    let mut first: Option<First<'a>> = None;
    'origins: for origin in interface {
        let name = origin.name.as_str();
        if is_left_open(modules, origin) && !there.contains_key(name) {
            first = first_place(first, place, name);
        }
    }
    match first {
        None => Ok(()),
        Some(first) => Err(refuse(alloc, Rule::InstanceLacks, place, &[first.name])),
    }
}
