//! The table of typed terms.
use crate::node::{Node, Part};
use gft_core::{NoMemory, Shared};
use gft_forms::Span;
use gft_syntax::LinTerm;
use gft_types::STR;
use std::alloc::Global;

/// Typed terms, each by the number of those that were added before it: parts come before what they
/// are part of. `built` has the terms of the first of them.
#[derive(Drop)]
pub struct Nodes {
    pub(crate) nodes: Vec<Node>,
    pub(crate) parts: Vec<Part>,
    pub(crate) built: Vec<Shared<LinTerm>>,
}

/// The number of a place in a table.
pub(crate) fn number_at(at: usize) -> Result<u32, NoMemory> {
    match u32::try_from(at) {
        Ok(number) => Ok(number),
        Err(_) => Err(NoMemory),
    }
}

impl Nodes {
    /// No term. It takes no memory.
    pub fn new(alloc: Global) -> Nodes {
        Nodes {
            nodes: Vec::new(alloc),
            parts: Vec::new(alloc),
            built: Vec::new(alloc),
        }
    }

    /// Forgets all terms.
    pub fn clear(&mut self) {
        self.nodes.clear();
        self.parts.clear();
        self.built.clear();
    }

    /// Adds a term whose parts are there, and says its number.
    pub fn add(&mut self, node: Node) -> Result<u32, NoMemory> {
        let number = number_at(self.nodes.len())?;
        self.nodes.push(node)?;
        Ok(number)
    }

    /// The term of that number.
    pub fn node(&self, number: u32) -> Node {
        match self.nodes.get(number as usize) {
            None => Node::Type(STR), // excluded by add: numbers are given as terms are added
            Some(node) => *node,
        }
    }

    /// Adds a list of parts.
    pub fn add_parts(&mut self, parts: &[Part]) -> Result<Span, NoMemory> {
        let first = number_at(self.parts.len())?;
        let count = number_at(parts.len())?;
        'each: for part in parts {
            self.parts.push(*part)?;
        }
        Ok(Span { first, count })
    }

    /// The part at that place of a list, from 0.
    pub fn part(&self, list: Span, at: u32) -> Part {
        match self.parts.get(list.first.saturating_add(at) as usize) {
            None => Part { key: 0, node: 0 }, // excluded by the list
            Some(part) => *part,
        }
    }
}
