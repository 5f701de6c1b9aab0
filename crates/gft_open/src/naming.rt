//! What a walk asks and tells as names are resolved.
use crate::resolver::{Resolver, copy_reference};
use gft_core::{Name, NoMemory, Place};
use gft_syntax::{Reference, Sort, Term};
use gft_walk::Naming;
use std::alloc::Global;

impl<'a> Naming for Resolver<'a> {
    fn keeps(&self, _name: &Name) -> bool {
        true
    }

    fn bare(
        &mut self,
        alloc: Global,
        name: &Reference,
        place: Place,
    ) -> Result<Reference, NoMemory> {
        match name {
            Reference::Written(name) => self.bare_name(alloc, name, place),
            _ => copy_reference(alloc, name),
        }
    }

    fn list_of(
        &mut self,
        alloc: Global,
        name: &Reference,
        place: Place,
    ) -> Result<Reference, NoMemory> {
        match name {
            Reference::Written(name) => self.list_category(alloc, name, place),
            _ => copy_reference(alloc, name),
        }
    }

    fn qualified(
        &mut self,
        alloc: Global,
        module: &Reference,
        name: &Name,
        place: Place,
    ) -> Result<Option<Reference>, NoMemory> {
        match module {
            Reference::Written(module) => self.qualified_name(alloc, module, name, place),
            _ => Ok(None),
        }
    }

    fn constructor(
        &mut self,
        alloc: Global,
        module: Option<&Name>,
        name: &Reference,
        place: Place,
    ) -> Result<Reference, NoMemory> {
        match name {
            Reference::Written(name) => self.head(alloc, module, name, place),
            _ => copy_reference(alloc, name),
        }
    }

    fn constructor_or_variable(
        &mut self,
        alloc: Global,
        name: &Reference,
        place: Place,
    ) -> Result<Reference, NoMemory> {
        match name {
            Reference::Written(name) => self.head_or_variable(alloc, name, place),
            _ => copy_reference(alloc, name),
        }
    }

    fn whole_variable(&mut self, alloc: Global, name: &Name, place: Place) -> Result<(), NoMemory> {
        self.variable(alloc, name, place)
    }

    fn sort(&mut self, alloc: Global, sort: Sort, place: Place) -> Result<(), NoMemory> {
        match sort {
            Sort::Ints => self.misplaced(alloc, "Ints", place),
            Sort::Predef => self.misplaced(alloc, "Predef", place),
            _ => Ok(()),
        }
    }

    fn type_place(&mut self, alloc: Global, term: &Term) -> Result<(), NoMemory> {
        match term {
            Term::Var(Reference::Written(name), place) => {
                self.variable_as_type(alloc, name, *place)
            }
            _ => Ok(()),
        }
    }

    fn scope(&self) -> usize {
        self.variables.scope()
    }

    fn bind(&mut self, alloc: Global, name: &Name) -> Result<(), NoMemory> {
        let number = self.number(alloc, name)?;
        self.variables.bind(number)
    }

    fn leave(&mut self, scope: usize) {
        self.variables.leave(scope);
    }

    fn variables(&self) -> usize {
        self.variables.len()
    }

    fn between(&mut self, start: usize) {
        self.variables.mark(start, false);
    }

    fn alternative(&mut self, start: usize, middle: usize) -> Result<(), NoMemory> {
        let end = self.variables.len();
        let right = self.variables.stamp(middle, end);
        self.see_lacking(start, middle, right);
        let left = self.variables.stamp(start, middle);
        self.see_lacking(middle, end, left);
        self.variables.truncate(middle);
        self.variables.mark(start, true);
        Ok(())
    }

    fn repeated(&mut self, start: usize) {
        let end = self.variables.len();
        self.see_variables(start, end);
        self.variables.truncate(start);
    }

    fn doubled(&mut self, start: usize) {
        let end = self.variables.len();
        self.see_variables(start, end);
    }

    fn enter(&mut self, start: usize) -> Result<(), NoMemory> {
        'variables: for at in start..self.variables.len() {
            self.bind_at(at)?;
        }
        self.variables.truncate(start);
        Ok(())
    }
}
