//! The resolved grammars of an import: one for each abstract module that it meets.
use crate::naming::Naming;
use crate::table::{NONE, has};
use gft_core::NoMemory;
use gft_modules::{
    header_mentions, header_name, is_abstract, is_concrete, is_incomplete, is_interface, order_from,
};
use gft_open::flatten;
use gft_pmcfg::Abstract;
use gft_syntax::{Flat, Header, Module};
use std::alloc::Global;

/// The resolved grammar of an abstract module.
#[derive(Drop)]
pub struct World {
    /// The abstract module, or `NONE`.
    pub of: u32,
    /// The languages, in the order of the grammar.
    pub languages: Vec<u32>,
    /// The modules that are chosen, and all that they rest on.
    pub members: Vec<u32>,
    pub flat: Flat,
    /// The abstract syntax once it is typed.
    pub abs: Option<Abstract>,
}

/// Whether the module has judgements that are typed in the grammars of others.
fn is_shared(header: &Header) -> bool {
    match header {
        Header::Resource(_) => true,
        Header::Instance(_, _) => true,
        _ => false,
    }
}

/// Whether the module is a language of the abstract module of that name.
fn is_language_of(header: &Header, abstracted: &str) -> bool {
    if !is_concrete(header) || is_incomplete(header) {
        return false;
    }
    match header_mentions(header) {
        Some(name) => name.name.as_str() == abstracted,
        None => false,
    }
}

/// Whether the module is typed by itself: interfaces and incomplete modules are where they are
/// used.
pub fn is_typed(header: &Header) -> bool {
    !is_interface(header) && !is_incomplete(header)
}

/// The modules among those that passed that are abstract.
fn abstracts_of(alloc: Global, naming: &Naming) -> Result<Vec<u32>, NoMemory> {
    let mut all = Vec::new(alloc);
    'modules: for m in naming.passed.as_slice() {
        if let Some(module) = naming.modules.get(*m as usize) {
            if is_abstract(&module.header) {
                all.push(*m)?;
            }
        }
    }
    Ok(all)
}

/// The languages of an abstract module.
fn languages_of(alloc: Global, naming: &Naming, of: u32) -> Result<Vec<u32>, NoMemory> {
    let mut all = Vec::new(alloc);
    let Some(abstracted) = naming.modules.get(of as usize) else {
        return Ok(all);
    };
    let name = header_name(&abstracted.header).name.as_str();
    'modules: for m in naming.passed.as_slice() {
        if let Some(module) = naming.modules.get(*m as usize) {
            if is_language_of(&module.header, name) {
                all.push(*m)?;
            }
        }
    }
    Ok(all)
}

/// Adds the resources and instances.
fn add_shared(naming: &Naming, chosen: &mut Vec<u32>) -> Result<(), NoMemory> {
    'modules: for m in naming.passed.as_slice() {
        if let Some(module) = naming.modules.get(*m as usize) {
            if is_shared(&module.header) {
                chosen.push(*m)?;
            }
        }
    }
    Ok(())
}

/// The modules that a grammar is chosen from; the first of an import has all resources and
/// instances.
fn chosen_of(
    alloc: Global,
    naming: &Naming,
    of: u32,
    languages: &[u32],
    is_first: bool,
) -> Result<Vec<u32>, NoMemory> {
    let mut chosen = Vec::new(alloc);
    if of != NONE {
        chosen.push(of)?;
    }
    chosen.extend_from_slice(languages)?;
    if is_first {
        add_shared(naming, &mut chosen)?;
    }
    Ok(chosen)
}

/// The grammar of an abstract module, or of none.
fn world_of(alloc: Global, naming: &Naming, of: u32, is_first: bool) -> Result<World, NoMemory> {
    let languages = languages_of(alloc, naming, of)?;
    let chosen = chosen_of(alloc, naming, of, languages.as_slice(), is_first)?;
    let members = order_from(alloc, &naming.modules, chosen.as_slice())?;
    let flat = flatten(alloc, &naming.modules, &naming.origins, &chosen)?;
    Ok(World {
        of,
        languages,
        members,
        flat,
        abs: None,
    })
}

/// The grammars of an import; one without an abstract module where none passed.
pub fn worlds_of(alloc: Global, naming: &Naming) -> Result<Vec<World>, NoMemory> {
    let mut worlds = Vec::new(alloc);
    let abstracts = abstracts_of(alloc, naming)?;
    let mut is_first = true;
    'abstracts: for of in abstracts.as_slice() {
        worlds.push(world_of(alloc, naming, *of, is_first)?)?;
        is_first = false;
    }
    if is_first {
        worlds.push(world_of(alloc, naming, NONE, true)?)?;
    }
    Ok(worlds)
}

impl World {
    /// Whether the judgements of a module are typed in this grammar.
    pub fn has(&self, m: u32, module: &Module) -> bool {
        is_typed(&module.header) && !is_abstract(&module.header) && has(self.members.as_slice(), m)
    }
}

impl World {
    /// Whether one of the modules is the abstract module or a language.
    pub fn is_named(&self, named: &[u32]) -> bool {
        'named: for m in named {
            if *m != NONE && (self.of == *m || has(self.languages.as_slice(), *m)) {
                return true;
            }
        }
        false
    }
}

/// The number of the grammar of an abstract module.
pub fn world_number(worlds: &[World], of: u32) -> Option<u32> {
    let mut number = 0u32;
    'worlds: for world in worlds {
        if world.of == of {
            return Some(number);
        }
        number = number.saturating_add(1);
    }
    None
}
