//! Instances and `with` modules with their copies.
use crate::copying::with_copies;
use crate::functors::{Import, check_functor, origins_of, substitute, take_functor};
use crate::instances::{check_given, given_by, replace_given, take_kept};
use crate::plan::Plan;
use crate::rebuilding::nothing;
use crate::replacements::Spot;
use gft_core::NoMemory;
use gft_modules::{
    Declared, declared_of, functor_of, header_name, inherited_at, numbers_of, substitutions_of,
};
use gft_rules::Stop;
use gft_syntax::{Header, Inherited, Module, Origin, PlacedName};
use indexmap::IndexMap;
use std::alloc::Global;

/// What was made, or the want of memory.
fn made(module: Result<Module, NoMemory>) -> Result<Module, Stop> {
    match module {
        Ok(module) => Ok(module),
        Err(_) => Err(Stop::NoMemory),
    }
}

/// A module without copies.
fn as_it_is(alloc: Global, modules: &Vec<Module>, module: &Module) -> Result<Module, Stop> {
    made(with_copies(alloc, modules, module, &Plan::new(alloc)))
}

/// What a `with` copies is planned.
fn plan_functor(
    alloc: Global,
    import: Import<'_, '_>,
    m: u32,
    module: &Module,
    functor: &Inherited,
    plan: &mut Plan,
) -> Result<(), NoMemory> {
    take_functor(alloc, import, m, functor, plan)?;
    'given: for substitution in substitutions_of(&module.rest) {
        substitute(alloc, import, substitution, plan)?;
    }
    Ok(())
}

fn make_functor<'a>(
    alloc: Global,
    import: Import<'a, '_>,
    m: u32,
    module: &'a Module,
    functor: &'a Inherited,
) -> Result<Module, Stop> {
    check_functor(alloc, import, module, inherited_at(functor))?;
    let mut plan = Plan::new(alloc);
    match plan_functor(alloc, import, m, module, functor, &mut plan) {
        Err(_) => Err(Stop::NoMemory),
        Ok(()) => made(with_copies(alloc, import.modules, module, &plan)),
    }
}

/// How many copies are planned.
fn copies_of(plan: &Plan) -> Result<u32, NoMemory> {
    match u32::try_from(plan.len()) {
        Ok(copies) => Ok(copies),
        Err(_) => Err(NoMemory),
    }
}

/// What an instance gives stands for the constants of its interface, unless it lacks some.
fn plan_given<'a>(
    alloc: Global,
    modules: &Vec<Module>,
    module: &Module,
    interface: &'a Vec<Origin>,
    there: &IndexMap<&str, Spot>,
    plan: &mut Plan,
) -> Result<(), Stop> {
    check_given(
        alloc,
        modules,
        interface,
        there,
        header_name(&module.header).place,
    )?;
    match replace_given(alloc, modules, interface, there, plan) {
        Ok(()) => Ok(()),
        Err(_) => Err(Stop::NoMemory),
    }
}

/// What an instance copies is planned, unless it lacks something.
fn plan_instance<'a>(
    alloc: Global,
    import: Import<'a, '_>,
    m: u32,
    module: &'a Module,
    interface: &'a Vec<Origin>,
    own: &'a Vec<Declared>,
    plan: &mut Plan,
) -> Result<(), Stop> {
    take_kept(alloc, import.modules, m, interface, own, plan)?;
    let copies = copies_of(plan)?;
    match given_by(alloc, import, m, module, own, copies) {
        Err(_) => Err(Stop::NoMemory),
        Ok(there) => plan_given(alloc, import.modules, module, interface, &there, plan),
    }
}

/// An instance of what its interface has, with what it declares itself.
fn make_planned<'a>(
    alloc: Global,
    import: Import<'a, '_>,
    m: u32,
    module: &'a Module,
    interface: &'a Vec<Origin>,
    own: &'a Vec<Declared>,
) -> Result<Module, Stop> {
    let mut plan = Plan::new(alloc);
    match plan_instance(alloc, import, m, module, interface, own, &mut plan) {
        Err(stop) => Err(stop),
        Ok(()) => made(with_copies(alloc, import.modules, module, &plan)),
    }
}

fn make_instance<'a>(
    alloc: Global,
    import: Import<'a, '_>,
    m: u32,
    module: &'a Module,
    interface: &'a PlacedName,
) -> Result<Module, Stop> {
    let Some(interface) = origins_of(import, interface) else {
        // excluded by loading
        return as_it_is(alloc, import.modules, module);
    };
    match declared_of(alloc, module) {
        Err(_) => Err(Stop::NoMemory),
        Ok(own) => make_planned(alloc, import, m, module, interface, &own),
    }
}

fn make<'a>(
    alloc: Global,
    import: Import<'a, '_>,
    m: u32,
    module: &'a Module,
) -> Result<Module, Stop> {
    if let Some(functor) = functor_of(&module.rest) {
        return make_functor(alloc, import, m, module, functor);
    }
    match &module.header {
        Header::Instance(_, interface) => make_instance(alloc, import, m, module, interface),
        _ => as_it_is(alloc, import.modules, module),
    }
}

/// The module of that number, an instance or a `with` module, with its copies before its own
/// judgements, or the first refusal of its functor (`NotIncomplete`, then `ParameterUnmatched`) or
/// of what an instance leaves open (`InstanceLacks`). Needs each module that it rests on resolved,
/// and in `origins`, by number, what `inherit` gave for each module that its header names. In a
/// copy each name has the origin of what stands for it, and keeps its own where nothing does. Any
/// other module is given as it is. It costs what it reads of the modules that the header names.
pub fn instantiate(
    alloc: Global,
    modules: &Vec<Module>,
    m: u32,
    origins: &Vec<Vec<Origin>>,
) -> Result<Module, Stop> {
    let Some(module) = modules.get(m as usize) else {
        // excluded by the caller
        return made(nothing(alloc));
    };
    match numbers_of(alloc, modules) {
        Err(_) => Err(Stop::NoMemory),
        Ok(numbers) => {
            let import = Import {
                modules,
                numbers: &numbers,
                origins,
            };
            make(alloc, import, m, module)
        }
    }
}
