//! Graphs by numbers.
use crate::numbers::{NONE, at, count};
use gft_core::NoMemory;
use std::alloc::Global;

/// Nodes by number from 0, each with the nodes that it rests on.
#[derive(Drop)]
pub struct Graph {
    /// Where the edges of each node begin, and after the last one where all end.
    starts: Vec<u32>,
    targets: Vec<u32>,
}

impl Graph {
    /// No node.
    pub fn new(alloc: Global) -> Result<Graph, NoMemory> {
        let mut starts = Vec::new(alloc);
        starts.push(0u32)?;
        Ok(Graph {
            starts,
            targets: Vec::new(alloc),
        })
    }

    /// Adds an edge from the node that is not ended yet.
    pub fn edge(&mut self, target: u32) -> Result<(), NoMemory> {
        self.targets.push(target)?;
        Ok(())
    }

    /// Ends the edges of a node.
    pub fn end(&mut self) -> Result<(), NoMemory> {
        let end = count(self.targets.as_slice())?;
        self.starts.push(end)?;
        Ok(())
    }

    /// How many nodes there are. It takes no memory.
    pub fn len(&self) -> u32 {
        u32::try_from(self.starts.len())
            .unwrap_or(NONE)
            .saturating_sub(1)
    }

    /// How many edges there are. It takes no memory.
    pub fn edges(&self) -> u32 {
        u32::try_from(self.targets.len()).unwrap_or(NONE)
    }

    /// Where the edges of a node begin. It takes no memory.
    pub fn first(&self, node: u32) -> u32 {
        at(self.starts.as_slice(), node)
    }

    /// Where the edges of a node end. It takes no memory.
    pub fn last(&self, node: u32) -> u32 {
        at(self.starts.as_slice(), node.saturating_add(1))
    }

    /// The node that an edge goes to. It takes no memory.
    pub fn target(&self, edge: u32) -> u32 {
        at(self.targets.as_slice(), edge)
    }
}
