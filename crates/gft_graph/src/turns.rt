//! Which of several faulty nodes is met first, where each comes after those that it rests on.
use crate::graph::Graph;
use crate::numbers::{NONE, at, filled, put};
use crate::parts::Parts;
use gft_core::NoMemory;
use std::alloc::Global;

/// For each part, the least key of its nodes that are faulty or lead to a fault below the part
/// (`met`), and the least key of such nodes below the part (`below`); `NONE` where there is none.
#[derive(Drop)]
pub struct Firsts {
    met: Vec<u32>,
    below: Vec<u32>,
}

/// The key of the first node below the part of a node that leads to a fault, by the node's edges.
fn below(graph: &Graph, parts: &Parts, firsts: &Firsts, node: u32) -> u32 {
    let part = at(parts.part.as_slice(), node);
    let mut least = NONE;
    'edges: for edge in graph.first(node)..graph.last(node) {
        let other = at(parts.part.as_slice(), graph.target(edge));
        if other != part {
            least = least
                .min(at(firsts.met.as_slice(), other))
                .min(at(firsts.below.as_slice(), other));
        }
    }
    least
}

/// Notes a node that leads to a fault below its part.
fn note_below(graph: &Graph, parts: &Parts, firsts: &mut Firsts, node: u32) {
    let part = at(parts.part.as_slice(), node);
    let least = below(graph, parts, firsts, node).min(at(firsts.below.as_slice(), part));
    put(&mut firsts.below, part, least);
}

/// Notes a node that is faulty, or whose part leads to a fault.
fn note_met(parts: &Parts, firsts: &mut Firsts, keys: &[u32], faulty: &[bool], node: u32) {
    let part = at(parts.part.as_slice(), node);
    let leads = at(firsts.below.as_slice(), part) != NONE;
    if leads || faulty.get(node as usize).copied().unwrap_or(false) {
        let least = at(keys, node).min(at(firsts.met.as_slice(), part));
        put(&mut firsts.met, part, least);
    }
}

/// Where the nodes of the part end whose nodes begin at a place.
fn part_end(parts: &Parts, start: usize) -> usize {
    let nodes = parts.nodes.as_slice();
    let Some(first) = nodes.get(start) else {
        return nodes.len();
    };
    let part = at(parts.part.as_slice(), *first);
    'nodes: for place in start..nodes.len() {
        if at(parts.part.as_slice(), nodes[place]) != part {
            return place;
        }
    }
    nodes.len()
}

/// Notes all nodes of a part.
fn note_part(
    graph: &Graph,
    parts: &Parts,
    firsts: &mut Firsts,
    keys: &[u32],
    faulty: &[bool],
    part: &[u32],
) {
    'below: for node in part {
        note_below(graph, parts, firsts, *node);
    }
    'met: for node in part {
        note_met(parts, firsts, keys, faulty, *node);
    }
}

/// What leads to faults, part by part, in linear time. `keys` has the key of each node, no two
/// alike but `NONE`, which a node has that has no turn.
pub fn firsts_of(
    alloc: Global,
    graph: &Graph,
    parts: &Parts,
    keys: &[u32],
    faulty: &[bool],
) -> Result<Firsts, NoMemory> {
    let mut firsts = Firsts {
        met: filled(alloc, graph.len(), NONE)?,
        below: filled(alloc, graph.len(), NONE)?,
    };
    let mut start = 0usize;
    'parts: for _ in 0..parts.nodes.len() {
        let end = part_end(parts, start);
        let Some(part) = parts.nodes.as_slice().get(start..end) else {
            break;
        };
        note_part(graph, parts, &mut firsts, keys, faulty, part);
        start = end;
    }
    Ok(firsts)
}

impl Firsts {
    /// The least key of all nodes that are faulty or lead to a fault, `NONE` where none is. It
    /// takes no memory.
    pub fn least(&self) -> u32 {
        let mut least = NONE;
        'parts: for first in self.met.as_slice() {
            least = least.min(*first);
        }
        least
    }

    /// The key of the faulty node that is met first at the turn of the node of this key; `order`
    /// has the nodes by their keys. It takes no memory.
    pub fn met_at(&self, parts: &Parts, order: &[u32], key: u32) -> u32 {
        let mut here = key;
        'turns: for _ in 0..order.len() {
            let node = at(order, here);
            let next = at(self.below.as_slice(), at(parts.part.as_slice(), node));
            if next == NONE {
                break;
            }
            here = next;
        }
        here
    }
}
