//! What stands for a name in a copy.
use gft_core::NoMemory;
use gft_modules::{Names, Space, judgement_at, sort_of};
use gft_syntax::{Judgement, Module, Origin};
use indexmap::IndexMap;
use std::alloc::Global;

/// A judgement by the number of its module and its own number there, both from 0.
#[derive(Clone, Copy, Debug, PartialEq, Eq, Hash)]
pub struct Spot {
    pub module: u32,
    pub judgement: u32,
}

/// A name, by its number, of the module that defines it.
#[derive(Clone, Copy, Debug, PartialEq, Eq, Hash)]
struct Known {
    module: u32,
    name: u32,
}

/// For names of modules, the judgements by the same name that stand for them in a copy.
#[derive(Drop)]
pub struct Replacements {
    names: Names,
    spots: IndexMap<Known, Spot>,
}

impl Replacements {
    /// Nothing is replaced. It takes no memory.
    pub fn new(alloc: Global) -> Replacements {
        Replacements {
            names: Names::new(alloc),
            spots: IndexMap::new(alloc),
        }
    }

    /// The judgement stands for the name that the module defines, unless one does already.
    pub fn replace(
        &mut self,
        alloc: Global,
        module: u32,
        name: &str,
        spot: Spot,
    ) -> Result<(), NoMemory> {
        let name = self.names.number(alloc, name)?;
        let known = Known { module, name };
        if !self.spots.contains_key(&known) {
            self.spots.insert(known, spot)?;
        }
        Ok(())
    }

    /// The judgement stands for all names of a parameter type.
    pub fn replace_all(
        &mut self,
        alloc: Global,
        module: u32,
        judgement: &Judgement,
        spot: Spot,
    ) -> Result<(), NoMemory> {
        if let Judgement::Param(main, constructors) = judgement {
            self.replace(alloc, module, main.name.as_str(), spot)?;
            'constructors: for constructor in constructors.as_slice() {
                self.replace(alloc, module, constructor.name.name.as_str(), spot)?;
            }
        }
        Ok(())
    }

    /// What stands for the name that the module defines. Two look-ups.
    pub fn find(&self, module: u32, name: &str) -> Option<Spot> {
        match self.names.find(name) {
            None => None,
            Some(name) => self.spots.get(&Known { module, name }).copied(),
        }
    }
}

/// Whether the origin is of a judgement that terms may name.
pub fn is_named(modules: &Vec<Module>, origin: &Origin) -> bool {
    match judgement_at(modules, origin.module, origin.judgement) {
        None => false,
        Some(judgement) => sort_of(judgement) == Space::Named,
    }
}

/// Where an origin stands.
pub fn spot_of(origin: &Origin) -> Spot {
    Spot {
        module: origin.module,
        judgement: origin.judgement,
    }
}

/// The judgements that terms may name, each under its name.
pub fn spots_of<'a>(
    alloc: Global,
    modules: &Vec<Module>,
    origins: &'a Vec<Origin>,
) -> Result<IndexMap<&'a str, Spot>, NoMemory> {
    let mut spots = IndexMap::new(alloc);
    'origins: for origin in origins {
        if is_named(modules, origin) {
            spots.insert(origin.name.as_str(), spot_of(origin))?;
        }
    }
    Ok(spots)
}
