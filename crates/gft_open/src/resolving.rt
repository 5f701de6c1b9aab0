//! Modules with the origins of their names.
use crate::faults::Fault;
use crate::resolver::Resolver;
use crate::rules::{check_once, see_all_declared};
use crate::scope::Scope;
use gft_core::{NoMemory, Shared};
use gft_functor::{nothing, with_judgements};
use gft_modules::{
    Declared, declared_of, header_name, is_abstract, is_copied, judgements_of, refuse,
};
use gft_rules::Stop;
use gft_syntax::{Flat, Judgement, Module, Origin};
use gft_walk::walk_judgement;
use sqlite_items::Items;
use std::alloc::Global;

/// A judgement of the module with the origins of its names. A copy has them already.
fn resolved(
    alloc: Global,
    module: &Module,
    judgement: &Shared<Judgement>,
    resolver: &mut Resolver<'_>,
) -> Result<Shared<Judgement>, NoMemory> {
    if is_copied(module, judgement.get()) {
        return judgement.share();
    }
    let made = walk_judgement(alloc, judgement.get(), resolver)?;
    Shared::new(alloc, made)
}

fn all_resolved(
    alloc: Global,
    module: &Module,
    resolver: &mut Resolver<'_>,
) -> Result<Items<Shared<Judgement>>, NoMemory> {
    let mut all = Items::new(alloc);
    'judgements: for judgement in judgements_of(module) {
        all.push(resolved(alloc, module, judgement, resolver)?)?;
    }
    Ok(all)
}

/// The name of the module of that number.
fn module_name(modules: &Vec<Module>, number: u32) -> &str {
    match modules.get(number as usize) {
        // excluded by Scope: what is opened is a module
        None => "",
        Some(module) => header_name(&module.header).name.as_str(),
    }
}

/// The refusal of a fault in a name.
fn refuse_fault<'b>(alloc: Global, modules: &'b Vec<Module>, fault: Fault, name: &'b str) -> Stop {
    match fault.modules {
        None => refuse(alloc, fault.rule, fault.place, &[name]),
        Some((first, second)) => {
            let names = [
                name,
                module_name(modules, first),
                module_name(modules, second),
            ];
            refuse(alloc, fault.rule, fault.place, &names)
        }
    }
}

/// The module with its resolved judgements, where no name of it is at fault.
fn made_or_fault(
    alloc: Global,
    modules: &Vec<Module>,
    module: &Module,
    resolver: &Resolver<'_>,
    judgements: Items<Shared<Judgement>>,
) -> Result<Module, Stop> {
    match resolver.fault {
        None => made(with_judgements(alloc, module, judgements)),
        Some(fault) => {
            let name = resolver.scope.names.text(fault.name);
            Err(refuse_fault(alloc, modules, fault, name))
        }
    }
}

/// What was made, or the want of memory.
fn made(module: Result<Module, NoMemory>) -> Result<Module, Stop> {
    match module {
        Ok(module) => Ok(module),
        Err(_) => Err(Stop::NoMemory),
    }
}

/// The module with its judgements walked, or the first fault of its names.
fn in_scope(
    alloc: Global,
    modules: &Vec<Module>,
    module: &Module,
    own: &Vec<Declared>,
    resolver: &mut Resolver<'_>,
) -> Result<Module, Stop> {
    see_all_declared(alloc, module, own, resolver)?;
    match all_resolved(alloc, module, resolver) {
        Err(_) => Err(Stop::NoMemory),
        Ok(judgements) => made_or_fault(alloc, modules, module, resolver, judgements),
    }
}

fn resolve_own(
    alloc: Global,
    modules: &Vec<Module>,
    m: u32,
    module: &Module,
    origins: &Vec<Vec<Origin>>,
    own: &Vec<Declared>,
) -> Result<Module, Stop> {
    check_once(alloc, module, own)?;
    match Scope::new(alloc, modules, origins, module, m) {
        Err(_) => Err(Stop::NoMemory),
        Ok(scope) => {
            let mut resolver = Resolver::new(alloc, scope, origins, is_abstract(&module.header));
            in_scope(alloc, modules, module, own, &mut resolver)
        }
    }
}

/// The module of that number with each name by its origin, or the first refusal: `Redefined`, then
/// by place `Unknown`, `Ambiguous` and `PatternVars`. A name that is still written is a variable,
/// or `Int` or `String` in an abstract module. Needs each instance and each `with` module among m
/// and the modules that m opens instantiated, and in `origins`, by number, what `inherit` then gave
/// for m, for each module that m opens and for the abstract module of a concrete one. It costs what
/// it reads of these, and for each name a look-up in each module that is opened.
pub fn resolve(
    alloc: Global,
    modules: &Vec<Module>,
    m: u32,
    origins: &Vec<Vec<Origin>>,
) -> Result<Module, Stop> {
    let Some(module) = modules.get(m as usize) else {
        // excluded by the caller
        return made(nothing(alloc));
    };
    match declared_of(alloc, module) {
        Err(_) => Err(Stop::NoMemory),
        Ok(own) => resolve_own(alloc, modules, m, module, origins, &own),
    }
}

/// The resolved grammar of the chosen modules, by their numbers, and of all that they rest on,
/// where nothing is typed. Needs these resolved, and in `origins`, by number, what `inherit` gave
/// for each.
pub fn flatten(
    alloc: Global,
    modules: &Vec<Module>,
    origins: &Vec<Vec<Origin>>,
    chosen: &Vec<u32>,
) -> Result<Flat, NoMemory> {
    gft_flat::flatten(alloc, modules, origins, chosen)
}
