//! Which judgements rest on which: a graph, cut into parts whose nodes all rest on each other.
use crate::numbers::{NONE, at, count, filled, put};
use gft_core::NoMemory;
use std::alloc::Global;

/// Nodes by number, each with the nodes that it rests on.
#[derive(Drop)]
pub struct Graph {
    /// Where the edges of each node begin, and after the last one where all end.
    starts: Vec<u32>,
    targets: Vec<u32>,
}

impl Graph {
    /// No node.
    pub fn new(alloc: Global) -> Result<Graph, NoMemory> {
        let mut starts = Vec::new(alloc);
        starts.push(0u32)?;
        Ok(Graph {
            starts,
            targets: Vec::new(alloc),
        })
    }

    /// Adds an edge from the node that is not ended yet.
    pub fn edge(&mut self, target: u32) -> Result<(), NoMemory> {
        self.targets.push(target)?;
        Ok(())
    }

    /// Ends the edges of a node.
    pub fn end(&mut self) -> Result<(), NoMemory> {
        let end = count(self.targets.as_slice())?;
        self.starts.push(end)?;
        Ok(())
    }

    /// How many nodes there are.
    pub fn len(&self) -> u32 {
        u32::try_from(self.starts.len())
            .unwrap_or(NONE)
            .saturating_sub(1)
    }

    fn edges(&self) -> u32 {
        u32::try_from(self.targets.len()).unwrap_or(NONE)
    }

    /// Where the edges of a node begin.
    pub fn first(&self, node: u32) -> u32 {
        at(self.starts.as_slice(), node)
    }

    /// Where the edges of a node end.
    pub fn last(&self, node: u32) -> u32 {
        at(self.starts.as_slice(), node.saturating_add(1))
    }

    /// The node that an edge goes to.
    pub fn target(&self, edge: u32) -> u32 {
        at(self.targets.as_slice(), edge)
    }

    /// How many steps a walk along all edges takes at most.
    fn steps(&self) -> u64 {
        (self.len() as u64 + self.edges() as u64 + 1) * 2
    }
}

/// The parts of a graph: the part of each node, and the nodes part by part. A part comes after
/// those that it rests on.
#[derive(Drop)]
pub struct Parts {
    pub part: Vec<u32>,
    pub nodes: Vec<u32>,
}

/// A walk in depth: when each node was met, the earliest node that is reached from it, the nodes of
/// parts that are not ended, and the nodes on the way with the next edge of each.
#[derive(Drop)]
struct Walk {
    met: Vec<u32>,
    low: Vec<u32>,
    open: Vec<u32>,
    way: Vec<(u32, u32)>,
    turn: u32,
    parts: u32,
    found: Parts,
}

impl Walk {
    fn new(alloc: Global, nodes: u32) -> Result<Walk, NoMemory> {
        let found = Parts {
            part: filled(alloc, nodes, NONE)?,
            nodes: Vec::new(alloc),
        };
        Ok(Walk {
            met: filled(alloc, nodes, NONE)?,
            low: filled(alloc, nodes, NONE)?,
            open: Vec::new(alloc),
            way: Vec::new(alloc),
            turn: 0,
            parts: 0,
            found,
        })
    }

    /// Goes on to a node that was not met.
    fn enter(&mut self, graph: &Graph, node: u32) -> Result<(), NoMemory> {
        put(&mut self.met, node, self.turn);
        put(&mut self.low, node, self.turn);
        self.turn = self.turn.saturating_add(1);
        self.open.push(node)?;
        self.way.push((node, graph.first(node)))?;
        Ok(())
    }

    /// Keeps that a turn is reached from a node.
    fn reach(&mut self, node: u32, turn: u32) {
        let low = at(self.low.as_slice(), node).min(turn);
        put(&mut self.low, node, low);
    }

    /// Goes along an edge.
    fn follow(&mut self, graph: &Graph, node: u32, target: u32) -> Result<(), NoMemory> {
        let met = at(self.met.as_slice(), target);
        if met == NONE {
            return self.enter(graph, target);
        }
        if at(self.found.part.as_slice(), target) == NONE {
            self.reach(node, met);
        }
        Ok(())
    }

    /// Ends the part whose first node this is.
    fn close(&mut self, node: u32) -> Result<(), NoMemory> {
        'open: for _ in 0..self.open.len() {
            let Some(next) = self.open.pop() else {
                break;
            };
            put(&mut self.found.part, next, self.parts);
            self.found.nodes.push(next)?;
            if next == node {
                break;
            }
        }
        self.parts = self.parts.saturating_add(1);
        Ok(())
    }

    /// Leaves a node all of whose edges were followed.
    fn leave(&mut self, node: u32) -> Result<(), NoMemory> {
        let low = at(self.low.as_slice(), node);
        if low == at(self.met.as_slice(), node) {
            self.close(node)?;
        }
        if let Some((before, _)) = self.way.last().copied() {
            self.reach(before, low);
        }
        Ok(())
    }

    /// One step. False where the way is at its end.
    fn step(&mut self, graph: &Graph) -> Result<bool, NoMemory> {
        let Some((node, edge)) = self.way.pop() else {
            return Ok(false);
        };
        if edge >= graph.last(node) {
            self.leave(node)?;
            return Ok(true);
        }
        self.way.push((node, edge.saturating_add(1)))?;
        self.follow(graph, node, graph.target(edge))?;
        Ok(true)
    }

    /// Walks from a node until the way is at its end.
    fn walk(&mut self, graph: &Graph, node: u32) -> Result<(), NoMemory> {
        self.enter(graph, node)?;
        'steps: for _ in 0..graph.steps() {
            if !self.step(graph)? {
                break;
            }
        }
        Ok(())
    }
}

/// The parts of a graph, in linear time.
pub fn parts_of(alloc: Global, graph: &Graph) -> Result<Parts, NoMemory> {
    let mut walk = Walk::new(alloc, graph.len())?;
    'nodes: for node in 0..graph.len() {
        if at(walk.met.as_slice(), node) == NONE {
            walk.walk(graph, node)?;
        }
    }
    Ok(walk.found)
}
