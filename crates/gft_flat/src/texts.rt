//! The judgements of modules under whole names, each made once.
use gft_core::{Name, NoMemory, Shared};
use gft_modules::{header_name, judgements_of};
use gft_syntax::{Judgement, Module, Origin, Reference, Whole};
use gft_walk::{Replacing, Target, walk_judgement};
use std::alloc::Global;

/// The whole name of what a module of that number defines.
pub fn whole_of(
    alloc: Global,
    modules: &Vec<Module>,
    module: u32,
    name: &Name,
) -> Result<Whole, NoMemory> {
    let owner = match modules.get(module as usize) {
        // excluded by inherit: an origin is of a module
        None => name,
        Some(module) => &header_name(&module.header).name,
    };
    let module = owner.copy(alloc)?;
    let name = name.copy(alloc)?;
    Ok(Whole { module, name })
}

/// Each origin is replaced by its whole name.
#[derive(Clone, Copy)]
struct Wholes<'m> {
    modules: &'m Vec<Module>,
}

impl<'m> Target for Wholes<'m> {
    fn target(&self, alloc: Global, origin: &Origin) -> Result<Reference, NoMemory> {
        Ok(Reference::Whole(whole_of(alloc, self.modules, origin.module, &origin.name)?))
    }

    fn keeps(&self, _name: &Name) -> bool {
        true
    }
}

/// The judgements of some modules, and where those of each module begin among them.
#[derive(Drop)]
pub struct Texts {
    starts: Vec<usize>,
    all: Vec<Shared<Judgement>>,
}

fn starts_of(alloc: Global, modules: &Vec<Module>) -> Result<Vec<usize>, NoMemory> {
    let mut starts = Vec::new(alloc);
    'modules: for _module in modules {
        starts.push(usize::MAX)?;
    }
    Ok(starts)
}

fn whole(
    alloc: Global,
    modules: &Vec<Module>,
    judgement: &Judgement,
) -> Result<Shared<Judgement>, NoMemory> {
    let wholes = Wholes { modules };
    let mut naming = Replacing { target: &wholes };
    let made = walk_judgement(alloc, judgement, &mut naming)?;
    Shared::new(alloc, made)
}

impl Texts {
    /// The judgements of the modules of those numbers.
    pub fn new(
        alloc: Global,
        modules: &Vec<Module>,
        numbers: &Vec<u32>,
    ) -> Result<Texts, NoMemory> {
        let starts = starts_of(alloc, modules)?;
        let mut texts = Texts {
            starts,
            all: Vec::new(alloc),
        };
        match texts.add_all(alloc, modules, numbers) {
            Ok(()) => Ok(texts),
            Err(error) => Err(error),
        }
    }

    fn add_all(
        &mut self,
        alloc: Global,
        modules: &Vec<Module>,
        numbers: &Vec<u32>,
    ) -> Result<(), NoMemory> {
        'numbers: for number in numbers {
            self.add(alloc, modules, *number)?;
        }
        Ok(())
    }

    fn add(&mut self, alloc: Global, modules: &Vec<Module>, number: u32) -> Result<(), NoMemory> {
        let start = self.all.len();
        if let Some(slot) = self.starts.get_mut(number as usize) {
            *slot = start;
        }
        if let Some(module) = modules.get(number as usize) {
            'judgements: for judgement in judgements_of(module) {
                self.all.push(whole(alloc, modules, judgement.get())?)?;
            }
        }
        Ok(())
    }

    /// A judgement by its module and its number there. None is excluded by the order: an origin is
    /// of a module that comes before.
    pub fn get(&self, module: u32, judgement: u32) -> Option<&Shared<Judgement>> {
        match self.starts.get(module as usize) {
            None => None,
            Some(start) => self.all.get(start.saturating_add(judgement as usize)),
        }
    }
}
