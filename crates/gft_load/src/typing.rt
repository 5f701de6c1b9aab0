//! The types of an import, module by module, those that are needed first.
use crate::naming::Naming;
use crate::table::{count, take};
use crate::world::{World, world_number};
use gft_abs::check_abstract;
use gft_check::Checking;
use gft_core::NoMemory;
use gft_modules::is_abstract;
use gft_rules::Stop;
use gft_syntax::Module;
use std::alloc::Global;

/// The typing of each grammar, of which nothing is typed.
fn checkings_of(alloc: Global, worlds: &[World]) -> Result<Vec<Option<Checking>>, NoMemory> {
    let mut checkings = Vec::new(alloc);
    'worlds: for world in worlds {
        checkings.push(Some(Checking::new(alloc, &world.flat)?))?;
    }
    Ok(checkings)
}

/// Puts a value in the place of another, which is let go of.
fn replace<T: Drop>(place: &mut T, value: T) {
    *place = value;
}

/// Types the abstract syntax of a module.
fn type_abstract(alloc: Global, m: u32, worlds: &mut Vec<World>) -> Result<(), Stop> {
    let Some(number) = world_number(worlds.as_slice(), m) else {
        return Ok(()); // excluded by the worlds: each abstract module that passed has one
    };
    let Some(world) = worlds.get_mut(number as usize) else {
        return Ok(()); // excluded likewise
    };
    let abs = check_abstract(alloc, &world.flat)?;
    replace(&mut world.abs, Some(abs));
    Ok(())
}

/// Types a module in a grammar, if it has it.
fn type_in(
    alloc: Global,
    m: u32,
    module: &Module,
    world: &World,
    checking: Option<&mut Option<Checking>>,
) -> Result<(), Stop> {
    if !world.has(m, module) {
        return Ok(());
    }
    match checking {
        Some(Some(checking)) => checking.module(alloc, &world.flat, module),
        _ => Ok(()), // excluded: each grammar has its typing
    }
}

/// Types a module in each grammar that has it. The first that does decides whether it is refused.
fn type_module(
    alloc: Global,
    m: u32,
    module: &Module,
    worlds: &mut Vec<World>,
    checkings: &mut Vec<Option<Checking>>,
) -> Result<(), Stop> {
    if is_abstract(&module.header) {
        return type_abstract(alloc, m, worlds);
    }
    let mut number = 0usize;
    'worlds: for world in worlds.as_slice() {
        type_in(alloc, m, module, world, checkings.get_mut(number))?;
        number = number.saturating_add(1);
    }
    Ok(())
}

/// Keeps in each grammar what typing gave for its judgements.
fn keep(worlds: &mut Vec<World>, checkings: &mut Vec<Option<Checking>>) -> Result<(), NoMemory> {
    for number in 0..count(worlds.as_slice())? {
        if let Some(checking) = take(checkings, number) {
            if let Some(world) = worlds.get_mut(number as usize) {
                replace(&mut world.flat.typed, checking.into_typed());
            }
        }
    }
    Ok(())
}

/// Types the modules that passed, or refuses the first that has a fault.
pub fn type_all(alloc: Global, naming: &Naming, worlds: &mut Vec<World>) -> Result<(), Stop> {
    let mut checkings = checkings_of(alloc, worlds.as_slice())?;
    'modules: for m in naming.passed.as_slice() {
        if let Some(module) = naming.modules.get(*m as usize) {
            type_module(alloc, *m, module, worlds, &mut checkings)?;
        }
    }
    keep(worlds, &mut checkings)?;
    Ok(())
}
