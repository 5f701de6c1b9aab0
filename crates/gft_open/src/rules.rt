//! What a module declares: each name once, and linearizations only of what its abstract module has.
use crate::resolver::Resolver;
use gft_core::{NoMemory, Place};
use gft_flat::{Kind, linearized};
use gft_modules::{Declared, Names, Space, header_name, is_before, refuse};
use gft_rules::{Rule, Stop};
use gft_syntax::Module;
use indexmap::IndexSet;
use std::alloc::Global;

/// A name in one space, the name by its number.
#[derive(Clone, Copy, Debug, PartialEq, Eq, Hash)]
struct Key {
    space: Space,
    name: u32,
}

/// A name that is declared again, by its number.
#[derive(Clone, Copy)]
struct Again {
    place: Place,
    name: u32,
}

/// Whether the module declares the name itself: a copy stands in another file.
fn is_own(module: &Module, declared: &Declared) -> bool {
    declared.place.file == header_name(&module.header).place.file
}

/// Whether the name is built in.
fn is_built_in(name: &str) -> bool {
    name == "Int" || name == "String"
}

/// The first name seen before, and one more; at one place the one seen first counts.
fn first_again(seen: Option<Again>, place: Place, name: u32) -> Option<Again> {
    match seen {
        None => Some(Again { place, name }),
        Some(before) => {
            if is_before(place, before.place) {
                Some(Again { place, name })
            } else {
                Some(before)
            }
        }
    }
}

/// The first name that the module declares twice, or that is built in.
fn first_declared_again(
    alloc: Global,
    module: &Module,
    all: &Vec<Declared>,
    names: &mut Names,
) -> Result<Option<Again>, NoMemory> {
    let mut there = IndexSet::new(alloc);
    let mut first = None;
    'declared: for declared in all {
        if is_own(module, declared) {
            let name = names.number(alloc, declared.name.as_str())?;
            let key = Key {
                space: declared.space,
                name,
            };
            if is_built_in(declared.name.as_str()) || there.contains(&key) {
                first = first_again(first, declared.place, name);
            }
            there.insert(key)?;
        }
    }
    Ok(first)
}

/// Refuses the first name that the module declares twice, or that is built in.
pub fn check_once(alloc: Global, module: &Module, all: &Vec<Declared>) -> Result<(), Stop> {
    let mut names = Names::new(alloc);
    match first_declared_again(alloc, module, all, &mut names) {
        Err(_) => Err(Stop::NoMemory),
        Ok(None) => Ok(()),
        Ok(Some(again)) => Err(refuse_again(alloc, again, names.text(again.name))),
    }
}

fn refuse_again(alloc: Global, again: Again, name: &str) -> Stop {
    refuse(alloc, Rule::Redefined, again.place, &[name])
}

/// A linearization of what the abstract module lacks is a fault.
fn see_declared(
    alloc: Global,
    declared: &Declared,
    wanted: Kind,
    resolver: &mut Resolver<'_>,
) -> Result<(), NoMemory> {
    let name = resolver.scope.names.number(alloc, declared.name.as_str())?;
    if resolver.scope.abstract_kind(name) != Some(wanted) {
        resolver.see(Rule::Unknown, declared.place, name, None);
    }
    Ok(())
}

/// Linearizations of what the abstract module lacks are faults.
pub fn see_all_declared(
    alloc: Global,
    module: &Module,
    all: &Vec<Declared>,
    resolver: &mut Resolver<'_>,
) -> Result<(), NoMemory> {
    'declared: for declared in all {
        if let Some(wanted) = linearized(declared.space) {
            if is_own(module, declared) {
                see_declared(alloc, declared, wanted, resolver)?;
            }
        }
    }
    Ok(())
}
