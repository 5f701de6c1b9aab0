//! The pattern of a run: its tree, with a hole of its own for each part that gives nothing to the
//! words.
use gft_core::{Name, NoMemory, Tree};
use gft_forest::{PackedRun, PackedRuns};
use gft_pmcfg::{Abstract, Alt, Concrete, Forest};
use sqlite_items::Items;
use std::alloc::Global;

/// A pattern, with the nonterminal of each hole.
#[derive(Drop)]
pub struct Pattern {
    pub tree: Tree,
    pub holes: Vec<(u32, u32)>,
}

/// Where runs come from.
#[derive(Clone, Copy)]
pub struct Source<'a> {
    pub abs: &'a Abstract,
    pub concrete: &'a Concrete,
    pub forest: &'a Forest,
    pub packed: &'a PackedRuns,
}

impl<'a> Source<'a> {
    /// The name of a production's function.
    fn function(&self, production: u32) -> Option<&'a Name> {
        let production = self.concrete.prods.get(production as usize)?;
        let fun = self.abs.funs.get(production.fun as usize)?;
        Some(&fun.name)
    }

    /// A run by its number.
    pub fn run(&self, run: u32) -> Option<PackedRun> {
        self.packed.runs.get(run as usize).copied()
    }

    /// Whether a run has parts.
    pub fn has_arguments(&self, run: u32) -> bool {
        match self.run(run) {
            Some(PackedRun::App(_, count, _)) => count > 0,
            Some(PackedRun::Literal(_, _)) => false,
            Some(PackedRun::Hole(_)) => false,
            None => false,
        }
    }

    /// The number of a production's function.
    pub fn fun(&self, production: u32) -> u32 {
        match self.concrete.prods.get(production as usize) {
            Some(production) => production.fun,
            None => u32::MAX, // excluded by the forest: its productions are those of the concrete syntax
        }
    }

    /// The name of a function.
    pub fn name(&self, fun: u32) -> &'a str {
        let abs = self.abs;
        match abs.funs.get(fun as usize) {
            Some(fun) => fun.name.as_str(),
            None => "", // excluded by the grammar's invariant: functions are in range
        }
    }
}

/// The literal that an alternative of a node is.
fn literal(alloc: Global, forest: &Forest, node: u32, at: u32) -> Result<Option<Tree>, NoMemory> {
    let Some(node) = forest.nodes.get(node as usize) else {
        return Ok(None);
    };
    match node.alts.get(at as usize) {
        Some(Alt::Int(value)) => Ok(Some(Tree::Int(*value))),
        Some(Alt::Str(word)) => Ok(Some(Tree::Str(word.copy(alloc)?))),
        _ => Ok(None),
    }
}

/// The runs that a run is made of, each before its parts, of which the last comes first.
fn parts_of(alloc: Global, source: Source<'_>, run: u32) -> Result<Vec<PackedRun>, NoMemory> {
    let mut parts: Vec<PackedRun> = Vec::new(alloc);
    let mut pending: Vec<u32> = Vec::new(alloc);
    pending.push(run)?;
    'parts: for _ in 0..u64::MAX {
        let Some(next) = pending.pop() else {
            break;
        };
        let Some(part) = source.run(next) else {
            break;
        };
        parts.push(part)?;
        if let PackedRun::App(_, count, first) = part {
            push_children(&mut pending, source.packed, first, count)?;
        }
    }
    Ok(parts)
}

fn push_children(
    pending: &mut Vec<u32>,
    packed: &PackedRuns,
    first: u32,
    count: u32,
) -> Result<(), NoMemory> {
    'children: for k in 0..count {
        let place = first.saturating_add(k) as usize;
        if let Some(child) = packed.children.get(place) {
            pending.push(*child)?;
        }
    }
    Ok(())
}

/// Puts a function on what is built, applied to the last trees there.
fn put_application(
    alloc: Global,
    source: Source<'_>,
    built: &mut Vec<Tree>,
    production: u32,
    count: u32,
) -> Result<(), NoMemory> {
    let Some(name) = source.function(production) else {
        // excluded by the forest: its productions are those of the concrete syntax
        return Ok(());
    };
    let name = name.copy(alloc)?;
    let arguments = built.split_off(built.len().saturating_sub(count as usize))?;
    built.push(Tree::App(name, Items::from_vec(arguments)))?;
    Ok(())
}

/// Puts a hole on what is built.
fn put_hole(
    built: &mut Vec<Tree>,
    holes: &mut Vec<(u32, u32)>,
    nonterminal: u32,
) -> Result<(), NoMemory> {
    let number = match u32::try_from(holes.len()) {
        Ok(count) if count < u32::MAX => count + 1,
        _ => return Err(NoMemory),
    };
    holes.push((number, nonterminal))?;
    built.push(Tree::Hole(number))?;
    Ok(())
}

fn put(
    alloc: Global,
    source: Source<'_>,
    built: &mut Vec<Tree>,
    holes: &mut Vec<(u32, u32)>,
    part: PackedRun,
) -> Result<(), NoMemory> {
    match part {
        PackedRun::App(production, count, _) => {
            put_application(alloc, source, built, production, count)
        }
        PackedRun::Literal(node, at) => {
            if let Some(tree) = literal(alloc, source.forest, node, at)? {
                built.push(tree)?;
            }
            Ok(())
        }
        PackedRun::Hole(nonterminal) => put_hole(built, holes, nonterminal),
    }
}

/// The pattern of a run. Its holes are numbered from 1 in the order of the text. The stack does not
/// grow with its depth.
pub fn pattern_of(alloc: Global, source: Source<'_>, run: u32) -> Result<Pattern, NoMemory> {
    let mut parts = parts_of(alloc, source, run)?;
    let mut built: Vec<Tree> = Vec::new(alloc);
    let mut holes: Vec<(u32, u32)> = Vec::new(alloc);
    'parts: for _ in 0..parts.len() {
        let Some(part) = parts.pop() else {
            break;
        };
        put(alloc, source, &mut built, &mut holes, part)?;
    }
    let tree = match built.pop() {
        Some(tree) => tree,
        // excluded by the forest: a run has a part
        None => Tree::Hole(1),
    };
    Ok(Pattern { tree, holes })
}
