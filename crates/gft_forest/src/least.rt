//! The least depth of a run of each node of a forest.
use gft_core::NoMemory;
use gft_pmcfg::{Alt, Forest, Node};
use std::alloc::Global;

/// Stands for "none" where a table holds numbers.
pub const NONE: u32 = u32::MAX;

/// A length as a number of a table. Tables end before `NONE`: past that the answer is want of
/// memory.
pub fn count(length: usize) -> Result<u32, NoMemory> {
    match u32::try_from(length) {
        Ok(number) if number < NONE => Ok(number),
        _ => Err(NoMemory),
    }
}

/// The number at a place of a table, or `NONE` past its end.
pub fn read(table: &Vec<u32>, at: u32) -> u32 {
    match table.get(at as usize) {
        Some(&value) => value,
        None => NONE,
    }
}

/// Alternatives by what they wait for. After the nodes comes one that stands for all holes.
#[derive(Drop)]
struct Waiting {
    /// For each alternative its node, and how many of its children have no depth yet.
    owners: Vec<u32>,
    missing: Vec<u32>,
    /// For each node the last use as a child, and for each use the one before it and its
    /// alternative.
    last: Vec<u32>,
    before: Vec<u32>,
    users: Vec<u32>,
    /// For each node its least depth, or `NONE`.
    least: Vec<u32>,
    /// The nodes that have a depth, the least first.
    reached: Vec<u32>,
    hole: u32,
}

impl Waiting {
    fn new(alloc: Global, nodes: u32) -> Result<Waiting, NoMemory> {
        let mut waiting = Waiting {
            owners: Vec::new(alloc),
            missing: Vec::new(alloc),
            last: Vec::new(alloc),
            before: Vec::new(alloc),
            users: Vec::new(alloc),
            least: Vec::new(alloc),
            reached: Vec::new(alloc),
            hole: nodes,
        };
        let all = (nodes as usize).saturating_add(1);
        waiting.last.resize(all, NONE)?;
        waiting.least.resize(all, NONE)?;
        Ok(waiting)
    }

    fn reach(&mut self, node: u32, depth: u32) -> Result<(), NoMemory> {
        if let Some(least) = self.least.get_mut(node as usize) {
            if *least == NONE {
                *least = depth;
                self.reached.push(node)?;
            }
        }
        Ok(())
    }

    fn use_child(&mut self, alternative: u32, child: u32) -> Result<(), NoMemory> {
        let number = count(self.before.len())?;
        let mut before = NONE;
        if let Some(last) = self.last.get_mut(child as usize) {
            before = *last;
            *last = number;
        }
        self.before.push(before)?;
        self.users.push(alternative)?;
        Ok(())
    }

    fn use_children(&mut self, number: u32, children: &[Option<u32>]) -> Result<(), NoMemory> {
        let hole = self.hole;
        for child in children {
            match child {
                Some(child) => self.use_child(number, *child)?,
                None => self.use_child(number, hole)?,
            }
        }
        Ok(())
    }

    fn add_application(&mut self, node: u32, children: &[Option<u32>]) -> Result<(), NoMemory> {
        let number = count(self.owners.len())?;
        self.owners.push(node)?;
        self.missing.push(count(children.len())?)?;
        if children.is_empty() {
            self.reach(node, 1)?;
        }
        self.use_children(number, children)
    }

    fn add(&mut self, node: u32, alternative: &Alt) -> Result<(), NoMemory> {
        match alternative {
            Alt::App(_, children) => self.add_application(node, children.as_slice()),
            Alt::Int(_) => self.reach(node, 1),
            Alt::Str(_) => self.reach(node, 1),
        }
    }

    fn add_node(&mut self, number: u32, node: &Node) -> Result<(), NoMemory> {
        if node.pins.is_empty() {
            // Without pins a node holds its hole alone.
            return self.reach(number, 1);
        }
        for alternative in node.alts.as_slice() {
            self.add(number, alternative)?;
        }
        Ok(())
    }

    /// One more child of the alternative has a depth.
    fn supply(&mut self, alternative: u32, depth: u32) -> Result<(), NoMemory> {
        if let Some(missing) = self.missing.get_mut(alternative as usize) {
            *missing = missing.saturating_sub(1);
            if *missing == 0 {
                let owner = read(&self.owners, alternative);
                self.reach(owner, depth.saturating_add(1))?;
            }
        }
        Ok(())
    }

    fn supply_users(&mut self, node: u32) -> Result<(), NoMemory> {
        let depth = read(&self.least, node);
        let mut link = read(&self.last, node);
        'uses: for _ in 0..self.users.len() {
            if link == NONE {
                break 'uses;
            }
            let user = read(&self.users, link);
            self.supply(user, depth)?;
            link = read(&self.before, link);
        }
        Ok(())
    }

    fn close(&mut self) -> Result<(), NoMemory> {
        'reached: for at in 0..self.least.len() {
            match self.reached.get(at) {
                Some(&node) => self.supply_users(node)?,
                None => break 'reached,
            }
        }
        Ok(())
    }
}

/// For each node the least depth of a run that it holds, holes counting 1, or `NONE` where it holds
/// none. Linear in the forest.
pub fn least_depths(alloc: Global, f: &Forest) -> Result<Vec<u32>, NoMemory> {
    let mut waiting = Waiting::new(alloc, count(f.nodes.len())?)?;
    let hole = waiting.hole;
    waiting.reach(hole, 1)?;
    let mut number = 0u32;
    for node in f.nodes.as_slice() {
        waiting.add_node(number, node)?;
        number = number.saturating_add(1);
    }
    waiting.close()?;
    let Waiting {
        owners: _,
        missing: _,
        last: _,
        before: _,
        users: _,
        least,
        reached: _,
        hole: _,
    } = waiting;
    Ok(least)
}
