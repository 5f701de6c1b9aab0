//! What stands in an instance for the names of its interface.
use crate::texts::whole_of;
use gft_core::{Name, NoMemory, Shared};
use gft_functor::{Replacements, Spot};
use gft_modules::{is_copied, judgement_at, judgements_of};
use gft_syntax::{Header, Judgement, Module, Origin, PlacedName, Reference};
use gft_walk::{Replacing, Target, walk_judgement};
use indexmap::IndexMap;
use std::alloc::Global;

/// An instance: its number, what it has by name, and what stands for the constants of its
/// interface.
#[derive(Clone, Copy)]
pub struct Instance<'i, 'o> {
    pub modules: &'i Vec<Module>,
    pub number: u32,
    pub there: &'i IndexMap<&'o str, Spot>,
}

/// Whether the instance keeps the judgement from its interface.
pub fn is_kept(modules: &Vec<Module>, instance: u32, spot: Spot) -> bool {
    if spot.module != instance {
        return false;
    }
    match modules.get(instance as usize) {
        None => false,
        Some(module) => match judgements_of(module).get(spot.judgement as usize) {
            None => false,
            Some(judgement) => is_copied(module, judgement.get()),
        },
    }
}

/// What the instance has under each name that terms may use.
pub fn there_of<'a>(
    alloc: Global,
    origins: &'a [Origin],
) -> Result<IndexMap<&'a str, Spot>, NoMemory> {
    let mut there = IndexMap::new(alloc);
    'origins: for origin in origins {
        let spot = Spot {
            module: origin.module,
            judgement: origin.judgement,
        };
        there.insert(origin.name.as_str(), spot)?;
    }
    Ok(there)
}

/// What stands for the name of the interface, and for the constructors with which the instance
/// keeps it.
fn replace(
    alloc: Global,
    instance: Instance<'_, '_>,
    origin: &Origin,
    replacements: &mut Replacements,
) -> Result<(), NoMemory> {
    let Some(spot) = instance.there.get(origin.name.as_str()).copied() else {
        return Ok(());
    };
    replacements.replace(alloc, origin.module, origin.name.as_str(), spot)?;
    if is_kept(instance.modules, instance.number, spot) {
        if let Some(judgement) = judgement_at(instance.modules, origin.module, origin.judgement) {
            replacements.replace_all(alloc, origin.module, judgement, spot)?;
        }
    }
    Ok(())
}

fn replace_all(
    alloc: Global,
    instance: Instance<'_, '_>,
    interface: &Vec<Origin>,
    replacements: &mut Replacements,
) -> Result<(), NoMemory> {
    'origins: for origin in interface {
        replace(alloc, instance, origin, replacements)?;
    }
    Ok(())
}

/// What stands for the names of the interface.
pub fn replacements_of(
    alloc: Global,
    instance: Instance<'_, '_>,
    interface: &Vec<Origin>,
) -> Result<Replacements, NoMemory> {
    let mut replacements = Replacements::new(alloc);
    match replace_all(alloc, instance, interface, &mut replacements) {
        Ok(()) => Ok(replacements),
        Err(error) => Err(error),
    }
}

/// Each origin is replaced by the whole name of what stands for it in an instance.
#[derive(Clone, Copy)]
struct Declaring<'d> {
    modules: &'d Vec<Module>,
    replacements: &'d Replacements,
}

impl<'d> Target for Declaring<'d> {
    fn target(&self, alloc: Global, origin: &Origin) -> Result<Reference, NoMemory> {
        let module = match self.replacements.find(origin.module, origin.name.as_str()) {
            None => origin.module,
            Some(spot) => spot.module,
        };
        Ok(Reference::Whole(whole_of(alloc, self.modules, module, &origin.name)?))
    }

    fn keeps(&self, _name: &Name) -> bool {
        true
    }
}

/// The interface's judgement, as it stands for the instance.
pub fn declared(
    alloc: Global,
    modules: &Vec<Module>,
    replacements: &Replacements,
    judgement: &Judgement,
) -> Result<Shared<Judgement>, NoMemory> {
    let declaring = Declaring {
        modules,
        replacements,
    };
    let mut naming = Replacing { target: &declaring };
    let made = walk_judgement(alloc, judgement, &mut naming)?;
    Shared::new(alloc, made)
}

/// The interface of an instance.
pub fn interface_of(modules: &Vec<Module>, number: u32) -> Option<&PlacedName> {
    match modules.get(number as usize) {
        None => None,
        Some(module) => match &module.header {
            Header::Instance(_, interface) => Some(interface),
            _ => None,
        },
    }
}
