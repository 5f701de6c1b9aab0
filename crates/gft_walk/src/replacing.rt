//! Names that have an origin, replaced one by one, whatever the variables are.
use crate::naming::Naming;
use gft_core::{Name, NoMemory, Place};
use gft_syntax::{Origin, Reference, Sort, Term, Whole};
use std::alloc::Global;

/// What stands for an origin, and which names a judgement keeps.
pub trait Target {
    /// What stands for the origin.
    fn target(&self, alloc: Global, origin: &Origin) -> Result<Reference, NoMemory>;

    /// Whether a judgement keeps one of its several names.
    fn keeps(&self, name: &Name) -> bool;
}

/// Replaces each name that has an origin.
#[derive(Clone, Copy)]
pub struct Replacing<'t, T> {
    pub target: &'t T,
}

fn copy_whole(alloc: Global, whole: &Whole) -> Result<Whole, NoMemory> {
    Ok(Whole {
        module: whole.module.copy(alloc)?,
        name: whole.name.copy(alloc)?,
    })
}

/// What stands for a name.
fn replaced<T: Target>(alloc: Global, target: &T, name: &Reference) -> Result<Reference, NoMemory> {
    match name {
        Reference::Written(name) => Ok(Reference::Written(name.copy(alloc)?)),
        Reference::Found(origin) => target.target(alloc, origin),
        Reference::Whole(whole) => Ok(Reference::Whole(copy_whole(alloc, whole)?)),
    }
}

impl<'t, T: Target> Naming for Replacing<'t, T> {
    fn keeps(&self, name: &Name) -> bool {
        self.target.keeps(name)
    }

    fn bare(
        &mut self,
        alloc: Global,
        name: &Reference,
        _place: Place,
    ) -> Result<Reference, NoMemory> {
        replaced(alloc, self.target, name)
    }

    fn list_of(
        &mut self,
        alloc: Global,
        name: &Reference,
        _place: Place,
    ) -> Result<Reference, NoMemory> {
        replaced(alloc, self.target, name)
    }

    fn qualified(
        &mut self,
        _alloc: Global,
        _module: &Reference,
        _name: &Name,
        _place: Place,
    ) -> Result<Option<Reference>, NoMemory> {
        Ok(None)
    }

    fn constructor(
        &mut self,
        alloc: Global,
        _module: Option<&Name>,
        name: &Reference,
        _place: Place,
    ) -> Result<Reference, NoMemory> {
        replaced(alloc, self.target, name)
    }

    fn constructor_or_variable(
        &mut self,
        alloc: Global,
        name: &Reference,
        _place: Place,
    ) -> Result<Reference, NoMemory> {
        replaced(alloc, self.target, name)
    }

    fn whole_variable(
        &mut self,
        _alloc: Global,
        _name: &Name,
        _place: Place,
    ) -> Result<(), NoMemory> {
        Ok(())
    }

    fn sort(&mut self, _alloc: Global, _sort: Sort, _place: Place) -> Result<(), NoMemory> {
        Ok(())
    }

    fn type_place(&mut self, _alloc: Global, _term: &Term) -> Result<(), NoMemory> {
        Ok(())
    }

    fn scope(&self) -> usize {
        0
    }

    fn bind(&mut self, _alloc: Global, _name: &Name) -> Result<(), NoMemory> {
        Ok(())
    }

    fn leave(&mut self, _scope: usize) {}

    fn variables(&self) -> usize {
        0
    }

    fn between(&mut self, _start: usize) {}

    fn alternative(&mut self, _start: usize, _middle: usize) -> Result<(), NoMemory> {
        Ok(())
    }

    fn repeated(&mut self, _start: usize) {}

    fn doubled(&mut self, _start: usize) {}

    fn enter(&mut self, _start: usize) -> Result<(), NoMemory> {
        Ok(())
    }
}
