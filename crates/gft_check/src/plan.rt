//! What is known of a grammar before anything is typed.
use crate::needs::needs_of;
use crate::nodes::Nodes;
use crate::resting::{Named, graph_of, names_of};
use crate::signatures::Signatures;
use gft_core::NoMemory;
use gft_graph::{Graph, NONE, Parts, at, filled, parts_of, put};
use gft_syntax::Flat;
use gft_typing::Typing;
use std::alloc::Global;

/// The judgements of a grammar, what names mean, the `lincat`s that each needs, and what each
/// rests on.
#[derive(Drop)]
pub struct Plan {
    pub nodes: Nodes,
    pub named: Named,
    pub needs: Graph,
    pub rests: Graph,
    pub parts: Parts,
    /// The place of each node in an order in which what it rests on comes first.
    pub ranks: Vec<u32>,
}

/// The place of each node among the nodes of parts.
fn ranks_of(alloc: Global, parts: &Parts, nodes: u32) -> Result<Vec<u32>, NoMemory> {
    let mut ranks = filled(alloc, nodes, NONE)?;
    let mut rank = 0u32;
    'nodes: for node in parts.nodes.as_slice() {
        put(&mut ranks, *node, rank);
        rank = rank.saturating_add(1);
    }
    Ok(ranks)
}

fn needs_in(alloc: Global, flat: &Flat, nodes: &Nodes) -> Result<Graph, NoMemory> {
    let signatures = Signatures::new(alloc, flat)?;
    needs_of(alloc, flat, nodes, &signatures)
}

impl Plan {
    /// The plan of a grammar, in time that is all but linear.
    pub fn new(alloc: Global, typing: &mut Typing, flat: &Flat) -> Result<Plan, NoMemory> {
        let nodes = Nodes::new(alloc, flat)?;
        let needs = needs_in(alloc, flat, &nodes)?;
        let named = names_of(alloc, typing, flat, &nodes)?;
        let rests = graph_of(alloc, typing, flat, &nodes, &named, &needs, false)?;
        let parts = parts_of(alloc, &rests)?;
        let ranks = ranks_of(alloc, &parts, nodes.len())?;
        Ok(Plan {
            nodes,
            named,
            needs,
            rests,
            parts,
            ranks,
        })
    }

    /// The part of the graph in which a node is.
    fn part(&self, node: u32) -> u32 {
        at(self.parts.part.as_slice(), node)
    }

    /// Whether two nodes are the same or rest on each other.
    pub fn are_joined(&self, one: u32, other: u32) -> bool {
        self.part(one) == self.part(other)
    }

    /// Whether a node rests on itself.
    pub fn is_cyclic(&self, node: u32) -> bool {
        'edges: for edge in self.rests.first(node)..self.rests.last(node) {
            if self.are_joined(node, self.rests.target(edge)) {
                return true;
            }
        }
        false
    }

    /// The node at a place in the order in which what a node rests on comes first.
    pub fn ranked(&self, rank: u32) -> u32 {
        at(self.parts.nodes.as_slice(), rank)
    }

    /// The place of a node in that order.
    pub fn rank(&self, node: u32) -> u32 {
        at(self.ranks.as_slice(), node)
    }
}
