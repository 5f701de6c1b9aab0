//! Which nodes of a forest are asked for runs, and within which depths.
use crate::least::{NONE, count, least_depths, read};
use gft_core::NoMemory;
use gft_pmcfg::{Alt, Forest, Node};
use std::alloc::Global;

/// The nodes that are asked for runs within a depth, level by level, the greatest depth first.
#[derive(Drop)]
pub struct Levels {
    pub least: Vec<u32>,
    pub nodes: Vec<u32>,
    /// Where each level begins in `nodes`, and the end of the last.
    pub starts: Vec<u32>,
    /// For each node the last level that asks for it, counted from 1.
    asked: Vec<u32>,
}

/// Whether the alternative has a run within the depth.
pub fn fits(least: &Vec<u32>, children: &[Option<u32>], depth: u32) -> bool {
    let Some(below) = depth.checked_sub(1) else {
        return false;
    };
    for child in children {
        let needed = match child {
            Some(child) => read(least, *child),
            None => 1,
        };
        if needed > below {
            return false;
        }
    }
    true
}

impl Levels {
    fn ask(&mut self, node: u32, level: u32) -> Result<(), NoMemory> {
        if let Some(asked) = self.asked.get_mut(node as usize) {
            if *asked != level {
                *asked = level;
                self.nodes.push(node)?;
            }
        }
        Ok(())
    }

    fn ask_children(&mut self, children: &[Option<u32>], level: u32) -> Result<(), NoMemory> {
        for child in children {
            if let Some(child) = child {
                self.ask(*child, level)?;
            }
        }
        Ok(())
    }

    fn ask_below(&mut self, node: &Node, depth: u32, level: u32) -> Result<(), NoMemory> {
        for alternative in node.alts.as_slice() {
            if let Alt::App(_, children) = alternative {
                if fits(&self.least, children.as_slice(), depth) {
                    self.ask_children(children.as_slice(), level)?;
                }
            }
        }
        Ok(())
    }

    fn ask_roots(&mut self, f: &Forest, depth: u32) -> Result<(), NoMemory> {
        for root in f.roots.as_slice() {
            if read(&self.least, *root) <= depth {
                self.ask(*root, 1)?;
            }
        }
        Ok(())
    }

    /// Asks for the level below the one from `from` to `to`.
    fn ask_level(
        &mut self,
        f: &Forest,
        from: u32,
        to: u32,
        depth: u32,
        level: u32,
    ) -> Result<(), NoMemory> {
        for at in from..to {
            let number = read(&self.nodes, at);
            if let Some(node) = f.nodes.get(number as usize) {
                self.ask_below(node, depth, level)?;
            }
        }
        Ok(())
    }

    fn ask_all(&mut self, f: &Forest, depth: u32) -> Result<(), NoMemory> {
        self.starts.push(0)?;
        self.ask_roots(f, depth)?;
        let mut from = 0u32;
        'levels: for below in 0..depth {
            let to = count(self.nodes.len())?;
            if from == to {
                break 'levels;
            }
            self.starts.push(to)?;
            self.ask_level(f, from, to, depth - below, below.saturating_add(2))?;
            from = to;
        }
        Ok(())
    }
}

/// The levels of the runs within the depth.
pub fn levels_of(alloc: Global, f: &Forest, depth: u32) -> Result<Levels, NoMemory> {
    let mut levels = Levels {
        least: least_depths(alloc, f)?,
        nodes: Vec::new(alloc),
        starts: Vec::new(alloc),
        asked: Vec::new(alloc),
    };
    levels.asked.resize(f.nodes.len(), 0)?;
    if depth != NONE {
        levels.ask_all(f, depth)?;
    }
    Ok(levels)
}
