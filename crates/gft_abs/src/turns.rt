//! Which of several faulty judgements is met first: judgements are taken in source order, and at
//! the turn of each come first those that it rests on and that do not rest on it.
use crate::graph::{Graph, Parts, parts_of};
use crate::numbers::{NONE, at, filled, put};
use gft_core::NoMemory;
use std::alloc::Global;

/// For each part, the first node that leads to a fault of its own or below its part (`met`), and
/// the first such node below the part (`below`).
#[derive(Drop)]
struct Firsts {
    met: Vec<u32>,
    below: Vec<u32>,
}

/// The first faulty node below the part of a node, by its edges.
fn below(graph: &Graph, parts: &Parts, firsts: &Firsts, node: u32) -> u32 {
    let part = at(parts.part.as_slice(), node);
    let mut least = NONE;
    'edges: for edge in graph.first(node)..graph.last(node) {
        let other = at(parts.part.as_slice(), graph.target(edge));
        if other != part {
            least = least
                .min(at(firsts.met.as_slice(), other))
                .min(at(firsts.below.as_slice(), other));
        }
    }
    least
}

/// Notes a node that leads to a fault below its part.
fn note_below(graph: &Graph, parts: &Parts, firsts: &mut Firsts, node: u32) {
    let part = at(parts.part.as_slice(), node);
    let least = below(graph, parts, firsts, node).min(at(firsts.below.as_slice(), part));
    put(&mut firsts.below, part, least);
}

/// Notes a node that is faulty, or whose part leads to a fault.
fn note_met(parts: &Parts, firsts: &mut Firsts, faulty: &[bool], node: u32) {
    let part = at(parts.part.as_slice(), node);
    let leads = at(firsts.below.as_slice(), part) != NONE;
    if leads || faulty.get(node as usize).copied().unwrap_or(false) {
        let least = node.min(at(firsts.met.as_slice(), part));
        put(&mut firsts.met, part, least);
    }
}

/// Where the nodes of the part end whose nodes begin at a place.
fn part_end(parts: &Parts, start: usize) -> usize {
    let nodes = parts.nodes.as_slice();
    let Some(first) = nodes.get(start) else {
        return nodes.len();
    };
    let part = at(parts.part.as_slice(), *first);
    'nodes: for place in start..nodes.len() {
        if at(parts.part.as_slice(), nodes[place]) != part {
            return place;
        }
    }
    nodes.len()
}

/// Notes all nodes of a part.
fn note_part(graph: &Graph, parts: &Parts, firsts: &mut Firsts, faulty: &[bool], part: &[u32]) {
    'below: for node in part {
        note_below(graph, parts, firsts, *node);
    }
    'met: for node in part {
        note_met(parts, firsts, faulty, *node);
    }
}

fn firsts_of(
    alloc: Global,
    graph: &Graph,
    parts: &Parts,
    faulty: &[bool],
) -> Result<Firsts, NoMemory> {
    let mut firsts = Firsts {
        met: filled(alloc, graph.len(), NONE)?,
        below: filled(alloc, graph.len(), NONE)?,
    };
    let mut start = 0usize;
    'parts: for _ in 0..parts.nodes.len() {
        let end = part_end(parts, start);
        let Some(part) = parts.nodes.as_slice().get(start..end) else {
            break;
        };
        note_part(graph, parts, &mut firsts, faulty, part);
        start = end;
    }
    Ok(firsts)
}

/// The first of the faulty nodes whose turn comes; nodes are numbered in source order. `NONE` where
/// none is faulty. Linear time.
pub fn first_faulty(alloc: Global, graph: &Graph, faulty: &[bool]) -> Result<u32, NoMemory> {
    let parts = parts_of(alloc, graph)?;
    let firsts = firsts_of(alloc, graph, &parts, faulty)?;
    let mut node = NONE;
    'parts: for first in firsts.met.as_slice() {
        node = node.min(*first);
    }
    'turns: for _ in 0..graph.len() {
        let next = at(firsts.below.as_slice(), at(parts.part.as_slice(), node));
        if next == NONE {
            break;
        }
        node = next;
    }
    Ok(node)
}
