//! Parameter types.
use crate::meaning::Meaning;
use crate::refusing::Said;
use crate::state::Typing;
use crate::stopped::Stopped;
use crate::task::Role;
use gft_core::{Name, NoMemory};
use gft_rules::Rule;
use gft_syntax::{Constructor, Context, Term, Whole, place_of};
use gft_types::TypeId;
use std::alloc::Global;

/// Adds a type so many times, at least once.
fn add_types(types: &mut Vec<TypeId>, of: TypeId, count: usize) -> Result<(), NoMemory> {
    'each: for _ in 0..count.max(1) {
        types.push(of)?;
    }
    Ok(())
}

/// The whole name of what is declared beside another.
fn beside(alloc: Global, whole: &Whole, name: &Name) -> Result<Whole, NoMemory> {
    let module = whole.module.copy(alloc)?;
    let name = name.copy(alloc)?;
    Ok(Whole { module, name })
}

impl Typing {
    /// The type of a constructor's argument, which is finite.
    fn finite_type(&mut self, alloc: Global, term: &Term) -> Result<TypeId, Stopped> {
        let of = self.written_type(alloc, term, Role::Data)?;
        if self.types.is_finite(of) {
            return Ok(of);
        }
        Err(self.broken(Rule::NotFinite, place_of(term), Said::Type(of)))
    }

    /// The types of a constructor's arguments.
    fn argument_types(
        &mut self,
        alloc: Global,
        contexts: &[Context],
    ) -> Result<Vec<TypeId>, Stopped> {
        let mut types: Vec<TypeId> = Vec::new(alloc);
        'contexts: for context in contexts {
            let of = self.finite_type(alloc, &context.of_type)?;
            add_types(&mut types, of, context.binds.len())?;
        }
        Ok(types)
    }

    /// A constructor with its arguments.
    fn make_constructor(
        &mut self,
        alloc: Global,
        whole: &Whole,
        one: &Constructor,
    ) -> Result<(), Stopped> {
        let types = self.argument_types(alloc, one.arguments.as_slice())?;
        let name = beside(alloc, whole, &one.name.name)?;
        let number = self.types.whole_number(alloc, &name)?;
        let _constructor = self.types.constructor(number, types.as_slice())?;
        Ok(())
    }

    /// The name of a constructor means that constructor.
    fn name_constructor(&mut self, constructor: u32, of: TypeId) -> Result<(), NoMemory> {
        let whole_type = self.types.constructor_type(constructor, of)?;
        let name = self.types.constructor_name_number(constructor);
        self.set_meaning(name, Meaning::Constructor(constructor, whole_type))
    }

    /// The parameter type of that name with the constructors from that one on.
    fn named_parameter(
        &mut self,
        alloc: Global,
        whole: &Whole,
        first: u32,
    ) -> Result<TypeId, NoMemory> {
        let name = self.types.whole_number(alloc, whole)?;
        let of = self.types.parameter(name, first)?;
        for constructor in first..self.types.constructors()? {
            self.name_constructor(constructor, of)?;
        }
        self.set_meaning(name, Meaning::Param(of))?;
        Ok(of)
    }

    /// `param P = ..`: gives P and its constructors their meanings.
    pub fn parameter(
        &mut self,
        alloc: Global,
        whole: &Whole,
        constructors: &[Constructor],
    ) -> Result<TypeId, Stopped> {
        let first = self.types.constructors()?;
        'each: for constructor in constructors {
            self.make_constructor(alloc, whole, constructor)?;
        }
        Ok(self.named_parameter(alloc, whole, first)?)
    }

    /// `param P`: a parameter type without constructors.
    pub fn open_parameter(&mut self, alloc: Global, whole: &Whole) -> Result<TypeId, NoMemory> {
        let first = self.types.constructors()?;
        self.named_parameter(alloc, whole, first)
    }
}
