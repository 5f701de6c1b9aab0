//! What names mean, and which judgements rest on which.
use crate::nodes::Nodes;
use crate::references::{declared_names, names_in};
use crate::signatures::LITERAL;
use gft_core::{Name, NoMemory};
use gft_graph::{Graph, NONE, at, put};
use gft_syntax::{Flat, FlatJudgement, Judgement, Whole};
use gft_typing::Typing;
use std::alloc::Global;

/// The number of the whole name of each node, `NONE` for one that no term names, and the node
/// that each number of a whole name means. A constructor means its parameter type.
#[derive(Drop)]
pub struct Named {
    pub numbers: Vec<u32>,
    pub nodes: Vec<u32>,
}

impl Named {
    /// Notes that a name means a node; the first one counts.
    fn note(&mut self, number: u32, node: u32) -> Result<(), NoMemory> {
        let missing = (number as usize)
            .saturating_add(1)
            .saturating_sub(self.nodes.len());
        'numbers: for _ in 0..missing {
            self.nodes.push(NONE)?;
        }
        if at(self.nodes.as_slice(), number) == NONE {
            put(&mut self.nodes, number, node);
        }
        Ok(())
    }

    /// The node that a whole name means, `NONE` where it means none.
    pub fn node(&self, number: u32) -> u32 {
        at(self.nodes.as_slice(), number)
    }

    /// The number of the whole name of a node.
    pub fn number(&self, node: u32) -> u32 {
        at(self.numbers.as_slice(), node)
    }
}

/// The number of the name of a constructor or of a parameter type in its module.
pub fn number_beside(
    alloc: Global,
    typing: &mut Typing,
    entry: &FlatJudgement,
    name: &Name,
) -> Result<u32, NoMemory> {
    let module = entry.whole.module.copy(alloc)?;
    let name = name.copy(alloc)?;
    typing.name_number(alloc, &Whole { module, name })
}

/// Notes the names of a parameter type's constructors.
fn note_constructors(
    alloc: Global,
    typing: &mut Typing,
    named: &mut Named,
    entry: &FlatJudgement,
    node: u32,
) -> Result<(), NoMemory> {
    if let Judgement::Param(_, constructors) = entry.judgement.get() {
        'constructors: for constructor in constructors.as_slice() {
            let number = number_beside(alloc, typing, entry, &constructor.name.name)?;
            named.note(number, node)?;
        }
    }
    Ok(())
}

/// What all names mean.
pub fn names_of(
    alloc: Global,
    typing: &mut Typing,
    flat: &Flat,
    nodes: &Nodes,
) -> Result<Named, NoMemory> {
    let mut named = Named {
        numbers: Vec::new(alloc),
        nodes: Vec::new(alloc),
    };
    'nodes: for node in 0..nodes.named() {
        if let Some(entry) = nodes.entry(flat, node) {
            let number = typing.name_number(alloc, &entry.whole)?;
            named.numbers.push(number)?;
            named.note(number, node)?;
        }
    }
    'constructors: for node in 0..nodes.named() {
        if let Some(entry) = nodes.entry(flat, node) {
            note_constructors(alloc, typing, &mut named, entry, node)?;
        }
    }
    Ok(named)
}

/// Adds an edge for each of the names that means a node.
fn add_names(
    alloc: Global,
    typing: &mut Typing,
    graph: &mut Graph,
    named: &Named,
    names: &[&Whole],
) -> Result<(), NoMemory> {
    'names: for name in names {
        let number = typing.name_number(alloc, name)?;
        let target = named.node(number);
        if target != NONE {
            graph.edge(target)?;
        }
    }
    Ok(())
}

/// Adds an edge for each name in what the entry answers for an interface: of its own module alone.
fn add_declared(
    alloc: Global,
    typing: &mut Typing,
    graph: &mut Graph,
    named: &Named,
    entry: &FlatJudgement,
) -> Result<(), NoMemory> {
    'declared: for declared in entry.declared.as_slice() {
        if declared.instance.as_str() == entry.whole.module.as_str() {
            let names = declared_names(alloc, declared.judgement.get())?;
            add_names(alloc, typing, graph, named, names.as_slice())?;
        }
    }
    Ok(())
}

/// Adds an edge for each `lincat` that a node needs.
fn add_needs(graph: &mut Graph, needs: &Graph, node: u32) -> Result<(), NoMemory> {
    'needs: for edge in needs.first(node)..needs.last(node) {
        let target = needs.target(edge);
        if target < LITERAL {
            graph.edge(target)?;
        }
    }
    Ok(())
}

/// Which nodes rest on which: by the names in their terms and by the `lincat`s that they need,
/// and, where that is asked for, by the names in what is declared for them.
pub fn graph_of(
    alloc: Global,
    typing: &mut Typing,
    flat: &Flat,
    nodes: &Nodes,
    named: &Named,
    needs: &Graph,
    with_declared: bool,
) -> Result<Graph, NoMemory> {
    let mut graph = Graph::new(alloc)?;
    'nodes: for node in 0..nodes.len() {
        if let Some(entry) = nodes.entry(flat, node) {
            let names = names_in(alloc, entry.judgement.get())?;
            add_names(alloc, typing, &mut graph, named, names.as_slice())?;
            if with_declared {
                add_declared(alloc, typing, &mut graph, named, entry)?;
            }
        }
        add_needs(&mut graph, needs, node)?;
        graph.end()?;
    }
    Ok(graph)
}
