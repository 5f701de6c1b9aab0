//! The functor of a `with`, and what is given for its parameters.
use crate::plan::Plan;
use crate::replacements::{is_named, spots_of};
use gft_core::NoMemory;
use gft_modules::{
    First, Restriction, first_place, header_name, inherited_at, inherited_of, is_incomplete,
    is_interface, number_of, opened_at, opened_of, refuse, substitutions_of,
};
use gft_rules::{Rule, Stop};
use gft_syntax::{Header, Inherited, Module, Origin, PlacedName, Substitution};
use indexmap::{IndexMap, IndexSet};
use std::alloc::Global;

/// The modules of an import, with their numbers and what each has.
#[derive(Clone, Copy)]
pub struct Import<'a, 'n> {
    pub modules: &'a Vec<Module>,
    pub numbers: &'n IndexMap<&'a str, u32>,
    pub origins: &'a Vec<Vec<Origin>>,
}

/// What the named module has. None is excluded by loading.
pub fn origins_of<'a>(import: Import<'a, '_>, name: &PlacedName) -> Option<&'a Vec<Origin>> {
    match number_of(import.numbers, &name.name) {
        None => None,
        Some(number) => import.origins.get(number as usize),
    }
}

/// The named module. None is excluded by loading.
fn module_of<'a>(import: Import<'a, '_>, name: &PlacedName) -> Option<&'a Module> {
    match number_of(import.numbers, &name.name) {
        None => None,
        Some(number) => import.modules.get(number as usize),
    }
}

/// The functor, where it may be one.
fn incomplete_of<'a>(import: Import<'a, '_>, name: &PlacedName) -> Option<&'a Module> {
    match module_of(import, name) {
        None => None,
        Some(module) => {
            if is_incomplete(&module.header) {
                Some(module)
            } else {
                None
            }
        }
    }
}

/// The incomplete modules that a module inherits from are reached too.
fn reach<'a>(
    import: Import<'a, '_>,
    module: &Module,
    reached: &mut IndexSet<&'a str>,
) -> Result<(), NoMemory> {
    'inherited: for inherited in inherited_of(&module.rest) {
        if let Some(other) = incomplete_of(import, inherited_at(inherited)) {
            reached.insert(header_name(&other.header).name.as_str())?;
        }
    }
    Ok(())
}

/// The interfaces that a module opens are parameters.
fn add_parameters<'a>(
    import: Import<'a, '_>,
    module: &Module,
    parameters: &mut IndexSet<&'a str>,
) -> Result<(), NoMemory> {
    'opened: for opened in opened_of(module) {
        if let Some(other) = module_of(import, opened_at(opened)) {
            if is_interface(&other.header) {
                parameters.insert(header_name(&other.header).name.as_str())?;
            }
        }
    }
    Ok(())
}

/// A module by its name.
fn by_name<'a>(import: Import<'a, '_>, name: &str) -> Option<&'a Module> {
    match import.numbers.get(name).copied() {
        None => None,
        Some(number) => import.modules.get(number as usize),
    }
}

/// The interfaces that a functor opens, itself or in an incomplete module that it inherits from.
fn parameters_of<'a>(
    alloc: Global,
    import: Import<'a, '_>,
    functor: &'a Module,
) -> Result<IndexSet<&'a str>, NoMemory> {
    let mut parameters = IndexSet::new(alloc);
    let mut reached = IndexSet::new(alloc);
    reached.insert(header_name(&functor.header).name.as_str())?;
    'turns: for at in 0..import.modules.len() {
        let Some(name) = reached.get_index(at).copied() else {
            break;
        };
        if let Some(module) = by_name(import, name) {
            add_parameters(import, module, &mut parameters)?;
            reach(import, module, &mut reached)?;
        }
    }
    Ok(parameters)
}

/// The first of the faults seen before and of the parameters for which nothing is given.
fn first_unmatched<'a>(
    alloc: Global,
    parameters: &IndexSet<&'a str>,
    functor: &'a PlacedName,
    substitutions: &'a [Substitution],
) -> Result<Option<First<'a>>, NoMemory> {
    let mut given = IndexSet::new(alloc);
    'given: for substitution in substitutions {
        given.insert(substitution.interface.name.as_str())?;
    }
    let mut first = None;
    'parameters: for name in parameters.iter() {
        if !given.contains(*name) {
            first = first_place(first, functor.place, *name);
        }
    }
    Ok(first)
}

/// Whether the named module is an instance of just that interface.
fn is_instance_of(import: Import<'_, '_>, instance: &PlacedName, interface: &PlacedName) -> bool {
    match module_of(import, instance) {
        None => false,
        Some(module) => match &module.header {
            Header::Instance(_, of) => of.name.as_str() == interface.name.as_str(),
            _ => false,
        },
    }
}

/// The first of the faults seen before and of those in what is given.
fn first_unfit<'a>(
    import: Import<'a, '_>,
    parameters: &IndexSet<&'a str>,
    substitutions: &'a [Substitution],
    before: Option<First<'a>>,
) -> Option<First<'a>> {
    let mut first = before;
    'given: for substitution in substitutions {
        let interface = &substitution.interface;
        let instance = &substitution.instance;
        if !parameters.contains(interface.name.as_str()) {
            first = first_place(first, interface.place, interface.name.as_str());
        }
        if !is_instance_of(import, instance, interface) {
            first = first_place(first, instance.place, instance.name.as_str());
        }
    }
    first
}

/// Refuses a functor that is none, a parameter for which nothing is given, and what does not fit.
pub fn check_functor<'a>(
    alloc: Global,
    import: Import<'a, '_>,
    module: &'a Module,
    functor: &'a PlacedName,
) -> Result<(), Stop> {
    let Some(incomplete) = incomplete_of(import, functor) else {
        let names = [functor.name.as_str()];
        return Err(refuse(alloc, Rule::NotIncomplete, functor.place, &names));
    };
    let parameters = parameters_of(alloc, import, incomplete)?;
    let given = substitutions_of(&module.rest);
    let first = first_unmatched(alloc, &parameters, functor, given)?;
    match first_unfit(import, &parameters, given, first) {
        None => Ok(()),
        Some(first) => { Err(refuse(alloc, Rule::ParameterUnmatched, first.place, &[first.name])) }
    }
}

/// What the functor has and its restriction lets through is copied.
pub fn take_functor(
    alloc: Global,
    import: Import<'_, '_>,
    m: u32,
    functor: &Inherited,
    plan: &mut Plan,
) -> Result<(), NoMemory> {
    let Some(origins) = origins_of(import, inherited_at(functor)) else {
        return Ok(());
    };
    let restriction = Restriction::new(alloc, functor)?;
    'origins: for origin in origins {
        if restriction.lets_through(origin.name.as_str()) {
            plan.take(alloc, import.modules, m, origin)?;
        }
    }
    Ok(())
}

/// What the instance has stands for what the interface has under the same name.
pub fn substitute(
    alloc: Global,
    import: Import<'_, '_>,
    substitution: &Substitution,
    plan: &mut Plan,
) -> Result<(), NoMemory> {
    let Some(interface) = origins_of(import, &substitution.interface) else {
        return Ok(());
    };
    let Some(instance) = origins_of(import, &substitution.instance) else {
        return Ok(());
    };
    let spots = spots_of(alloc, import.modules, instance)?;
    'origins: for origin in interface {
        let name = origin.name.as_str();
        if is_named(import.modules, origin) {
            if let Some(spot) = spots.get(name).copied() {
                plan.replacements.replace(alloc, origin.module, name, spot)?;
            }
        }
    }
    Ok(())
}
