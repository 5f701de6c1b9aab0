//! The languages of an import, compiled in the order of the named files.
use crate::refusing::stop_at;
use crate::table::has;
use crate::world::World;
use gft_core::NoMemory;
use gft_gen::generate_used;
use gft_oper::normal_forms;
use gft_pmcfg::Concrete;
use gft_rules::{Rule, Stop};
use std::alloc::Global;

/// The most categories of a grammar, without `Int` and `String`.
const MOST_CATEGORIES: usize = 16_384;

/// The languages among the named modules, each once, and what each is compiled to.
#[derive(Drop)]
pub struct Languages {
    pub modules: Vec<u32>,
    pub concretes: Vec<Concrete>,
}

/// The grammar of a named module.
pub fn world_with(worlds: &[World], m: u32) -> Option<&World> {
    worlds.iter().find(|world| world.is_named(&[m]))
}

/// Refuses an abstract syntax that has too many categories.
pub fn check_categories(alloc: Global, worlds: &[World], named: &[u32]) -> Result<(), Stop> {
    'named: for m in named {
        if let Some(world) = world_with(worlds, *m) {
            if let Some(abs) = &world.abs {
                if abs.cats.len() > MOST_CATEGORIES.saturating_add(2) {
                    return Err(stop_at(alloc, Rule::TooManyCategories, &[]));
                }
            }
        }
    }
    Ok(())
}

/// The number of a language in its grammar. None for an abstract module.
fn language_number(world: &World, m: u32) -> Option<u32> {
    let mut number = 0u32;
    'languages: for language in world.languages.as_slice() {
        if *language == m {
            return Some(number);
        }
        number = number.saturating_add(1);
    }
    None
}

/// The productions of a language that trees use.
fn concrete_of(alloc: Global, world: &World, number: u32) -> Result<Option<Concrete>, Stop> {
    let Some(abs) = &world.abs else {
        return Ok(None); // excluded by typing: the abstract module passed before its languages
    };
    let terms = normal_forms(alloc, &world.flat, number)?;
    Ok(Some(generate_used(alloc, &world.flat, abs, number, &terms)?))
}

impl Languages {
    fn new(alloc: Global) -> Languages {
        Languages {
            modules: Vec::new(alloc),
            concretes: Vec::new(alloc),
        }
    }

    fn push(&mut self, m: u32, concrete: Concrete) -> Result<(), NoMemory> {
        self.concretes.push(concrete)?;
        self.modules.push(m)?;
        Ok(())
    }

    /// Compiles a named module, if it is a language that is not compiled yet.
    fn add(&mut self, alloc: Global, worlds: &[World], m: u32) -> Result<(), Stop> {
        if has(self.modules.as_slice(), m) {
            return Ok(());
        }
        let Some(world) = world_with(worlds, m) else {
            return Ok(()); // excluded by the worlds: a named module has one
        };
        let Some(number) = language_number(world, m) else {
            return Ok(());
        };
        if let Some(concrete) = concrete_of(alloc, world, number)? {
            self.push(m, concrete)?;
        }
        Ok(())
    }
}

/// Compiles the languages among the named modules, those of portable files left out, or refuses the
/// first that has a fault.
pub fn compile_all(alloc: Global, worlds: &[World], named: &[u32]) -> Result<Languages, Stop> {
    let mut languages = Languages::new(alloc);
    'named: for m in named {
        languages.add(alloc, worlds, *m)?;
    }
    Ok(languages)
}
