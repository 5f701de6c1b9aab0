//! An import on one page, a line a pass, in the order of import.
use crate::comparing::compare_all;
use crate::compiling::{check_categories, compile_all};
use crate::joining::join_all;
use crate::loading::Loading;
use crate::named::{Named, load_all};
use crate::naming::Naming;
use crate::typing::type_all;
use crate::world::{World, worlds_of};
use gft_core::{NoMemory, Text};
use gft_io::Store;
use gft_pmcfg::{Abstract, Grammar};
use gft_rules::{Refusal, Stop};
use gft_syntax::Module;
use std::alloc::Global;

/// Why an import gives no grammar: its first refusal, with the names of the loaded files in the
/// order of their numbers.
#[derive(Drop)]
pub enum ImportErr {
    Refused(Refusal, Vec<Text>),
    NoMemory,
}

/// Passes the headers and names of modules.
fn name_all(
    alloc: Global,
    modules: Vec<Module>,
    order: &[u32],
    named: &[u32],
) -> Result<Naming, NoMemory> {
    let mut naming = Naming::new(alloc, modules)?;
    naming.pass(alloc, order, named)?;
    Ok(naming)
}

/// Refuses what was refused for its header or its names.
fn refuse_kept(naming: &mut Naming) -> Result<(), Stop> {
    match naming.refused.take() {
        Some(refusal) => Err(Stop::Refused(refusal)),
        None => Ok(()),
    }
}

/// Takes the abstract syntax of a named source, if there is one.
fn take_abstract(worlds: &mut Vec<World>, named: &[u32]) -> Option<Abstract> {
    let number = worlds.iter().position(|world| world.is_named(named))?;
    match worlds.get_mut(number) {
        Some(world) => world.abs.take(),
        None => None,
    }
}

/// The grammar of what is loaded.
fn grammar_of(
    alloc: Global,
    names: &[Text],
    modules: Vec<Module>,
    order: &[u32],
    named: Named,
) -> Result<Grammar, Stop> {
    let sources = named.modules.as_slice();
    let mut naming = name_all(alloc, modules, order, sources)?; // headers and names, to the first fault
    let mut worlds = worlds_of(alloc, &naming)?; // a resolved grammar for each abstract module
    type_all(alloc, &naming, &mut worlds)?; // types of what passed
    refuse_kept(&mut naming)?; // the first fault of a header or of names
    check_categories(alloc, worlds.as_slice(), sources)?; // how many categories
    let languages = compile_all(alloc, worlds.as_slice(), sources)?; // productions
    compare_all(alloc, worlds.as_slice(), &named, names)?; // one abstract syntax
    let abs = take_abstract(&mut worlds, sources);
    Ok(join_all(alloc, abs, named, languages)?)
}

/// The grammar of the files, which are loaded.
fn import<F: Store>(
    alloc: Global,
    names: &[Text],
    store: &mut F,
    loading: &mut Loading,
) -> Result<Grammar, Stop> {
    let named = load_all(alloc, names, store, loading)?; // the files, to the first fault
    let modules = loading.take_modules(alloc);
    grammar_of(alloc, names, modules, loading.order(), named)
}

/// The grammar of one import of the files: their abstract syntax, and their languages by name.
/// Needs one name or more, each with the ending `.gf` or `.gft`.
pub fn load_grammar<F: Store>(
    alloc: Global,
    names: &Vec<Text>,
    store: &mut F,
) -> Result<Grammar, ImportErr> {
    let mut loading = Loading::new(alloc);
    match import(alloc, names.as_slice(), store, &mut loading) {
        Ok(grammar) => Ok(grammar),
        Err(Stop::Refused(refusal)) => Err(ImportErr::Refused(refusal, loading.into_files())),
        Err(Stop::NoMemory) => Err(ImportErr::NoMemory),
    }
}
