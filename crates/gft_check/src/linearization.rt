//! The typing of linearizations of functions, and of those of holes and of whole trees.
use crate::checking::Checking;
use crate::signatures::LITERAL;
use gft_core::{Name, NoMemory};
use gft_graph::NONE;
use gft_syntax::{Bind, Term};
use gft_types::{Labelled, STR, TypeId};
use gft_typing::Stopped;
use std::alloc::Global;

impl Checking {
    /// Whether a `lincat` that the node needs is missing.
    fn lacks_lincat(&self, node: u32) -> bool {
        let needs = &self.plan.needs;
        'needs: for edge in needs.first(node)..needs.last(node) {
            if needs.target(edge) == NONE {
                return true;
            }
        }
        false
    }

    /// The linearization type of `Int` and `String`.
    fn literal_type(&mut self, alloc: Global) -> Result<TypeId, NoMemory> {
        let types = &mut self.typing.types;
        match Name::new(alloc, "s")? {
            None => Ok(STR), // excluded by Name: a letter is an identifier
            Some(name) => {
                let label = types.names.number(alloc, &name)?;
                types.record(alloc, &[Labelled { label, of: STR }])
            }
        }
    }

    /// The linearization type that stands at a place of what is needed.
    fn needed(&mut self, alloc: Global, edge: u32) -> Result<TypeId, NoMemory> {
        let lincat = self.plan.needs.target(edge);
        if lincat == LITERAL {
            return self.literal_type(alloc);
        }
        Ok(self.progress.lincat(lincat))
    }

    /// The type of a function's linearization: from those of its arguments to that of its result.
    fn function_type(&mut self, alloc: Global, node: u32) -> Result<TypeId, NoMemory> {
        let first = self.plan.needs.first(node);
        let last = self.plan.needs.last(node).saturating_sub(1);
        let mut whole = self.needed(alloc, last)?;
        'arguments: for back in first..last {
            let argument = self.needed(alloc, last - 1 - (back - first))?;
            whole = self.typing.types.function(argument, whole)?;
        }
        Ok(whole)
    }

    /// The one type that a `lindef` or `linref` needs.
    fn category_type(&mut self, alloc: Global, node: u32) -> Result<TypeId, NoMemory> {
        let first = self.plan.needs.first(node);
        self.needed(alloc, first)
    }

    /// A term that is given a type.
    fn fits(
        &mut self,
        alloc: Global,
        binds: &[Bind],
        term: &Term,
        of: TypeId,
        node: u32,
    ) -> Result<(), Stopped> {
        let term = self.typing.check(alloc, binds, term, of)?;
        self.keep_term(alloc, self.number(node), term, of)
    }

    /// The linearization of a function; it is not typed where a `lincat` is missing.
    pub(crate) fn lin(
        &mut self,
        alloc: Global,
        binds: &[Bind],
        term: &Term,
        node: u32,
    ) -> Result<(), Stopped> {
        if self.lacks_lincat(node) {
            return Ok(());
        }
        let of = self.function_type(alloc, node)?;
        self.fits(alloc, binds, term, of, node)
    }

    /// The linearization of a hole, from its token.
    pub(crate) fn lindef(
        &mut self,
        alloc: Global,
        binds: &[Bind],
        term: &Term,
        node: u32,
    ) -> Result<(), Stopped> {
        if self.lacks_lincat(node) {
            return Ok(());
        }
        let category = self.category_type(alloc, node)?;
        let of = self.typing.types.function(STR, category)?;
        self.fits(alloc, binds, term, of, node)
    }

    /// The string of a whole tree.
    pub(crate) fn linref(
        &mut self,
        alloc: Global,
        binds: &[Bind],
        term: &Term,
        node: u32,
    ) -> Result<(), Stopped> {
        if self.lacks_lincat(node) {
            return Ok(());
        }
        let category = self.category_type(alloc, node)?;
        let of = self.typing.types.function(category, STR)?;
        self.fits(alloc, binds, term, of, node)
    }
}
