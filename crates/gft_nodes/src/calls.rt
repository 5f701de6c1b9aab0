//! Calls: constructors and predefined functions are built with all their arguments.
use crate::node::{Node, Part};
use crate::table::Nodes;
use gft_core::{NoMemory, Place};
use gft_forms::Span;
use gft_syntax::Predef;
use std::alloc::Global;

/// A constructor or predefined function that has fewer arguments becomes a function of those that
/// it lacks, outside of which the others are evaluated.
impl Nodes {
    /// The innermost so many variables, the last one innermost.
    fn variables(&mut self, alloc: Global, count: u32) -> Result<Span, NoMemory> {
        let mut parts: Vec<Part> = Vec::new(alloc);
        for at in 0..count {
            let node = self.add(Node::Var(count - 1 - at))?;
            parts.push(Part { key: 0, node })?;
        }
        self.add_parts(parts.as_slice())
    }

    /// A function of so many more arguments, the given ones bound outside of it.
    fn function(&mut self, whole: u32, given: Span, lacking: u32) -> Result<u32, NoMemory> {
        let lambda = self.add(Node::Lambda(lacking, whole))?;
        self.add(Node::Let(given, lambda))
    }

    /// A constructor of so many arguments with those that are given.
    fn constructed(
        &mut self,
        alloc: Global,
        constructor: u32,
        arity: u32,
        given: Span,
    ) -> Result<u32, NoMemory> {
        if given.count >= arity {
            return self.add(Node::Con(constructor, given));
        }
        let variables = self.variables(alloc, arity)?;
        let whole = self.add(Node::Con(constructor, variables))?;
        self.function(whole, given, arity - given.count)
    }

    /// A predefined function with the arguments that are given.
    fn predefined(
        &mut self,
        alloc: Global,
        which: Predef,
        place: Place,
        given: Span,
    ) -> Result<u32, NoMemory> {
        let parts = if given.count >= 2 {
            given
        } else {
            self.variables(alloc, 2)?
        };
        let number = self.part(parts, 0).node;
        let text = self.part(parts, 1).node;
        let whole = self.add(Node::Predef(which, number, text, place))?;
        if given.count >= 2 {
            return Ok(whole);
        }
        self.function(whole, given, 2 - given.count)
    }

    /// A term applied to at least one argument.
    pub fn call(&mut self, alloc: Global, head: u32, given: Span) -> Result<u32, NoMemory> {
        match self.node(head) {
            Node::Maker(constructor, arity) => {
                self.constructed(alloc, constructor, arity, given)
            }
            Node::Function(which, place) => self.predefined(alloc, which, place, given),
            _ => self.add(Node::App(head, given)),
        }
    }
}
