//! Which judgements are copied, in order, and what stands for the names in them.
use crate::replacements::{Replacements, Spot, is_named, spot_of};
use gft_core::NoMemory;
use gft_modules::{Names, judgement_at};
use gft_syntax::{Module, Origin};
use indexmap::{IndexMap, IndexSet};
use std::alloc::Global;

/// A name of a judgement that is copied, both by their numbers.
#[derive(Clone, Copy, Debug, PartialEq, Eq, Hash)]
struct Kept {
    copy: u32,
    name: u32,
}

/// The judgements that are copied, each once, by the number that its copy has; which of several
/// names each keeps; and what stands for names in the copies.
#[derive(Drop)]
pub struct Plan {
    copied: IndexMap<Spot, u32>,
    names: Names,
    kept: IndexSet<Kept>,
    pub replacements: Replacements,
}

impl Plan {
    /// Nothing is copied. It takes no memory.
    pub fn new(alloc: Global) -> Plan {
        Plan {
            copied: IndexMap::new(alloc),
            names: Names::new(alloc),
            kept: IndexSet::new(alloc),
            replacements: Replacements::new(alloc),
        }
    }

    /// How many judgements are copied.
    pub fn len(&self) -> usize {
        self.copied.len()
    }

    /// The judgement whose copy has the number.
    pub fn copied_at(&self, at: usize) -> Option<Spot> {
        match self.copied.get_index(at) {
            None => None,
            Some((spot, _)) => Some(*spot),
        }
    }

    /// Whether the copy of that number keeps the name.
    pub fn keeps(&self, copy: u32, name: &str) -> bool {
        match self.names.find(name) {
            None => false,
            Some(name) => self.kept.contains(&Kept { copy, name }),
        }
    }

    /// The number of the copy of a judgement that is copied from now on.
    fn number(&mut self, spot: Spot) -> Result<u32, NoMemory> {
        if let Some(number) = self.copied.get(&spot).copied() {
            return Ok(number);
        }
        let Ok(number) = u32::try_from(self.copied.len()) else {
            return Err(NoMemory);
        };
        self.copied.insert(spot, number)?;
        Ok(number)
    }

    /// The judgement of the origin is copied into module `m`, under that name of it too.
    pub fn take(
        &mut self,
        alloc: Global,
        modules: &Vec<Module>,
        m: u32,
        origin: &Origin,
    ) -> Result<(), NoMemory> {
        let before = self.copied.len();
        let copy = self.number(spot_of(origin))?;
        let name = self.names.number(alloc, origin.name.as_str())?;
        self.kept.insert(Kept { copy, name })?;
        let spot = Spot {
            module: m,
            judgement: copy,
        };
        if is_named(modules, origin) {
            self.replacements
                .replace(alloc, origin.module, origin.name.as_str(), spot)?;
        }
        if before < self.copied.len() {
            self.take_whole(alloc, modules, origin, spot)?;
        }
        Ok(())
    }

    /// A parameter type is copied with all its constructors.
    fn take_whole(
        &mut self,
        alloc: Global,
        modules: &Vec<Module>,
        origin: &Origin,
        spot: Spot,
    ) -> Result<(), NoMemory> {
        match judgement_at(modules, origin.module, origin.judgement) {
            None => Ok(()),
            Some(judgement) => {
                self.replacements
                    .replace_all(alloc, origin.module, judgement, spot)
            }
        }
    }
}
