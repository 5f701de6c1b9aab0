//! Runs as numbers, put together from the lowest level up.
use crate::least::{NONE, count, read};
use crate::levels::{Levels, fits, levels_of};
use crate::repeats::without_repeats;
use gft_core::NoMemory;
use gft_pmcfg::{Alt, Concrete, Forest, Node};
use std::alloc::Global;

/// A run, by number among the runs of a list.
#[derive(Clone, Copy)]
pub enum PackedRun {
    /// A production, the number of its arguments, and where their runs begin in
    /// `PackedRuns::children`.
    App(u32, u32, u32),
    /// The literal that an alternative of a node of the forest is: node and alternative.
    Literal(u32, u32),
    /// A hole with its nonterminal.
    Hole(u32),
}

/// Runs that share their parts. The runs of its arguments come before a run.
#[derive(Drop)]
pub struct PackedRuns {
    pub runs: Vec<PackedRun>,
    pub children: Vec<u32>,
    /// The runs that were asked for, each once.
    pub roots: Vec<u32>,
}

/// A part of a list of runs: where it begins, and its length.
#[derive(Clone, Copy)]
struct Range {
    from: u32,
    length: u32,
}

/// A node and its runs.
#[derive(Clone, Copy)]
struct Found {
    node: u32,
    runs: Range,
}

/// What is built.
#[derive(Drop)]
struct Builder {
    packed: PackedRuns,
    /// Lists of runs, and for each node its part at the level below.
    lists: Vec<u32>,
    parts: Vec<Range>,
    /// The nodes of this level, the runs of the present node, and the choices for each argument.
    found: Vec<Found>,
    present: Vec<u32>,
    choices: Vec<Range>,
    /// The holes of the present alternative.
    holes: Vec<u32>,
}

const NO_RUNS: Range = Range { from: 0, length: 0 };

impl Builder {
    fn new(alloc: Global, nodes: usize) -> Result<Builder, NoMemory> {
        let packed = PackedRuns {
            runs: Vec::new(alloc),
            children: Vec::new(alloc),
            roots: Vec::new(alloc),
        };
        let mut builder = Builder {
            packed,
            lists: Vec::new(alloc),
            parts: Vec::new(alloc),
            found: Vec::new(alloc),
            present: Vec::new(alloc),
            choices: Vec::new(alloc),
            holes: Vec::new(alloc),
        };
        builder.parts.resize(nodes, NO_RUNS)?;
        Ok(builder)
    }

    fn add_run(&mut self, run: PackedRun) -> Result<u32, NoMemory> {
        let number = count(self.packed.runs.len())?;
        self.packed.runs.push(run)?;
        Ok(number)
    }

    fn add_present(&mut self, run: PackedRun) -> Result<(), NoMemory> {
        let number = self.add_run(run)?;
        self.present.push(number)?;
        Ok(())
    }

    fn part(&self, node: u32) -> Range {
        match self.parts.get(node as usize) {
            Some(&part) => part,
            None => NO_RUNS,
        }
    }

    /// The one run of a hole, as a list that is kept after the others.
    fn hole(&mut self, nonterminal: u32) -> Result<Range, NoMemory> {
        let run = self.add_run(PackedRun::Hole(nonterminal))?;
        let from = count(self.holes.len())?;
        self.holes.push(run)?;
        Ok(Range { from, length: NONE })
    }

    fn choose(&mut self, child: Option<u32>, nonterminal: u32) -> Result<(), NoMemory> {
        let choice = match child {
            Some(child) => self.part(child),
            None => self.hole(nonterminal)?,
        };
        self.choices.push(choice)?;
        Ok(())
    }

    fn choose_all(&mut self, children: &[Option<u32>], arguments: &[u32]) -> Result<(), NoMemory> {
        self.choices.truncate(0);
        self.holes.truncate(0);
        let mut at = 0usize;
        for child in children {
            let nonterminal = match arguments.get(at) {
                Some(&nonterminal) => nonterminal,
                // excluded by the forest: an application has as many children as its production has
                // arguments
                None => NONE,
            };
            self.choose(*child, nonterminal)?;
            at = at.saturating_add(1);
        }
        Ok(())
    }

    /// In how many ways the arguments can be chosen.
    fn ways(&self) -> usize {
        let mut ways = 1usize;
        for choice in self.choices.iter() {
            if choice.length != NONE {
                ways = ways.saturating_mul(choice.length as usize);
            }
        }
        ways
    }

    /// The run that a choice has at a place.
    fn chosen(&self, choice: Range, at: usize) -> u32 {
        if choice.length == NONE {
            read(&self.holes, choice.from)
        } else {
            match self.lists.get((choice.from as usize).saturating_add(at)) {
                Some(&run) => run,
                None => NONE,
            }
        }
    }

    /// One way of choosing the arguments, by its number.
    fn add_way(&mut self, production: u32, way: usize) -> Result<(), NoMemory> {
        let first = count(self.packed.children.len())?;
        let mut rest = way;
        for at in 0..self.choices.len() {
            if let Some(&choice) = self.choices.get(at) {
                let length = if choice.length == NONE {
                    1
                } else {
                    (choice.length as usize).max(1)
                };
                let run = self.chosen(choice, rest % length);
                self.packed.children.push(run)?;
                rest = rest / length;
            }
        }
        let arity = count(self.choices.len())?;
        self.add_present(PackedRun::App(production, arity, first))
    }

    fn add_application(
        &mut self,
        c: &Concrete,
        production: u32,
        children: &[Option<u32>],
    ) -> Result<(), NoMemory> {
        let Some(prod) = c.prods.get(production as usize) else {
            // excluded by the forest: its productions are those of the concrete syntax
            return Ok(());
        };
        self.choose_all(children, prod.args.as_slice())?;
        for way in 0..self.ways() {
            self.add_way(production, way)?;
        }
        Ok(())
    }

    fn add_alternative(
        &mut self,
        c: &Concrete,
        least: &Vec<u32>,
        place: (u32, u32),
        alternative: &Alt,
        depth: u32,
    ) -> Result<(), NoMemory> {
        match alternative {
            Alt::App(production, children) => {
                if fits(least, children.as_slice(), depth) {
                    self.add_application(c, *production, children.as_slice())?;
                }
                Ok(())
            }
            Alt::Int(_) => self.add_present(PackedRun::Literal(place.0, place.1)),
            Alt::Str(_) => self.add_present(PackedRun::Literal(place.0, place.1)),
        }
    }

    fn add_alternatives(
        &mut self,
        c: &Concrete,
        least: &Vec<u32>,
        number: u32,
        node: &Node,
        depth: u32,
    ) -> Result<(), NoMemory> {
        if node.pins.is_empty() {
            return self.add_present(PackedRun::Hole(node.nonterminal));
        }
        let mut at = 0u32;
        for alternative in node.alts.as_slice() {
            self.add_alternative(c, least, (number, at), alternative, depth)?;
            at = at.saturating_add(1);
        }
        Ok(())
    }

    /// The runs of a node within a depth.
    fn add_node(
        &mut self,
        f: &Forest,
        c: &Concrete,
        least: &Vec<u32>,
        number: u32,
        depth: u32,
    ) -> Result<(), NoMemory> {
        let Some(node) = f.nodes.get(number as usize) else {
            return Ok(());
        };
        self.present.truncate(0);
        self.add_alternatives(c, least, number, node, depth)?;
        let from = count(self.lists.len())?;
        let length = count(self.present.len())?;
        self.lists.extend_from_slice(self.present.as_slice())?;
        self.found.push(Found {
            node: number,
            runs: Range { from, length },
        })?;
        Ok(())
    }

    /// Puts the runs of this level in the place of those of the level below.
    fn end_level(&mut self) {
        for found in self.found.iter() {
            if let Some(part) = self.parts.get_mut(found.node as usize) {
                *part = found.runs;
            }
        }
        self.found.truncate(0);
    }

    fn add_level(
        &mut self,
        f: &Forest,
        c: &Concrete,
        levels: &Levels,
        level: u32,
        depth: u32,
    ) -> Result<(), NoMemory> {
        let from = read(&levels.starts, level);
        let to = read(&levels.starts, level.saturating_add(1));
        for at in from..to {
            let number = read(&levels.nodes, at);
            self.add_node(f, c, &levels.least, number, depth)?;
        }
        self.end_level();
        Ok(())
    }

    fn add_levels(
        &mut self,
        f: &Forest,
        c: &Concrete,
        levels: &Levels,
        depth: u32,
    ) -> Result<(), NoMemory> {
        let all = count(levels.starts.len())?.saturating_sub(1);
        for done in 0..all {
            let level = all - 1 - done;
            self.add_level(f, c, levels, level, depth.saturating_sub(level))?;
        }
        Ok(())
    }

    fn add_root(&mut self, least: &Vec<u32>, root: u32, depth: u32) -> Result<(), NoMemory> {
        if read(least, root) > depth {
            return Ok(());
        }
        let part = self.part(root);
        for at in 0..part.length as usize {
            let run = self.chosen(part, at);
            self.packed.roots.push(run)?;
        }
        Ok(())
    }

    fn add_roots(&mut self, f: &Forest, least: &Vec<u32>, depth: u32) -> Result<(), NoMemory> {
        for root in f.roots.as_slice() {
            self.add_root(least, *root, depth)?;
        }
        Ok(())
    }
}

fn all_packed(alloc: Global, f: &Forest, c: &Concrete, depth: u32) -> Result<PackedRuns, NoMemory> {
    let levels = levels_of(alloc, f, depth)?;
    let mut builder = Builder::new(alloc, f.nodes.len())?;
    builder.add_levels(f, c, &levels, depth)?;
    builder.add_roots(f, &levels.least, depth)?;
    let Builder {
        packed,
        lists: _,
        parts: _,
        found: _,
        present: _,
        choices: _,
        holes: _,
    } = builder;
    Ok(packed)
}

/// Each run of the forest of at most that depth, holes counting 1, once. The runs of a node within
/// a depth are made once, however many runs share them.
pub fn packed_within(
    alloc: Global,
    f: &Forest,
    c: &Concrete,
    depth: u32,
) -> Result<PackedRuns, NoMemory> {
    let packed = all_packed(alloc, f, c, depth)?;
    without_repeats(alloc, f, packed)
}
