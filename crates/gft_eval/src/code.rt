//! What a run has come to of a term, as nodes, with the names, patterns and types that they speak
//! of.
use crate::data::{Field, Range, add, get, number, since};
use crate::node::Node;
use gft_core::{Name, NoMemory};
use gft_syntax::{CType, LinTerm, Pattern, Whole};
use std::alloc::Global;

/// Nodes, the term of each, and what they speak of by number. Node 0 is the whole term. A term is
/// read where a run comes to it, one level at a time, so a branch that nothing takes costs nothing,
/// and no chain of terms is too deep.
#[derive(Drop)]
pub struct Code<'a> {
    pub nodes: Vec<Node>,
    pub terms: Vec<&'a LinTerm>,
    pub labels: Vec<&'a Name>,
    pub wholes: Vec<&'a Whole>,
    pub patterns: Vec<&'a Pattern>,
    pub cuts: Vec<&'a CType>,
    pub literals: Vec<u32>,
    pub layout: Vec<Field>,
}

impl<'a> Code<'a> {
    /// Nothing.
    pub fn new(alloc: Global) -> Code<'a> {
        Code {
            nodes: Vec::new(alloc),
            terms: Vec::new(alloc),
            labels: Vec::new(alloc),
            wholes: Vec::new(alloc),
            patterns: Vec::new(alloc),
            cuts: Vec::new(alloc),
            literals: Vec::new(alloc),
            layout: Vec::new(alloc),
        }
    }

    /// Forgets all but the first labels and constructors, which types speak of.
    pub fn clear(&mut self, labels: usize, wholes: usize) {
        self.nodes.clear();
        self.terms.clear();
        self.labels.truncate(labels);
        self.wholes.truncate(wholes);
        self.patterns.clear();
        self.cuts.clear();
        self.literals.clear();
        self.layout.clear();
    }

    /// A node for the term.
    pub fn add(&mut self, term: &'a LinTerm) -> Result<u32, NoMemory> {
        self.terms.push(term)?;
        add(&mut self.nodes, Node::Unread)
    }

    /// Nodes for the terms.
    pub fn add_all(&mut self, terms: &'a [LinTerm]) -> Result<Range, NoMemory> {
        let from = number(self.nodes.len())?;
        for term in terms {
            self.add(term)?;
        }
        since(from, self.nodes.len())
    }

    /// Says what a node is.
    pub fn set(&mut self, place: u32, node: Node) {
        if let Some(one) = self.nodes.get_mut(place as usize) {
            *one = node;
        }
    }

    /// The text of a label.
    pub fn label_text(&self, place: u32) -> &'a str {
        match get(self.labels.as_slice(), place) {
            Some(label) => label.as_str(),
            None => "", // excluded: labels are named by their numbers
        }
    }
}
