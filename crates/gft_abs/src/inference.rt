//! The types of a pattern's parts and holes, by unification.
use crate::lookup::function_named;
use crate::numbers::NONE;
use crate::terms::{Node, Terms};
use gft_core::{Name, NoMemory, Tree};
use gft_pmcfg::{Abstract, Fun};
use indexmap::IndexMap;
use std::alloc::Global;

/// What a pattern breaks before its indices are looked at.
#[derive(Drop)]
pub enum SkeletonErr {
    UnknownFun(Name),
    WrongArity(Name),
    /// The category that was expected, and the one that was found.
    WrongCategory(u32, u32),
    NoMemory,
}

impl From<NoMemory> for SkeletonErr {
    fn from(_error: NoMemory) -> SkeletonErr {
        SkeletonErr::NoMemory
    }
}

/// A hole: its node, the category of the place where it first stands, and the indices of its type
/// once they are known.
#[derive(Drop)]
pub struct Hole {
    pub node: u32,
    pub cat: u32,
    pub indices: Option<Vec<u32>>,
}

/// A pattern as nodes, the arguments of each before it, and its holes in order of first occurrence.
#[derive(Drop)]
pub struct Inference<'a> {
    pub abs: &'a Abstract,
    pub terms: Terms<'a>,
    pub holes: IndexMap<u32, Hole>,
    /// The place in `holes` of each node that is a hole of the pattern.
    places: IndexMap<u32, u32>,
}

impl<'a> Inference<'a> {
    /// No pattern yet. It takes no memory.
    pub fn new(alloc: Global, abs: &'a Abstract) -> Inference<'a> {
        Inference {
            abs,
            terms: Terms::new(alloc, abs.funs.as_slice()),
            holes: IndexMap::new(alloc),
            places: IndexMap::new(alloc),
        }
    }

    /// The function of a number.
    pub fn fun(&self, number: u32) -> Option<&'a Fun> {
        let abs = self.abs;
        abs.funs.get(number as usize)
    }

    /// The category that a tree has by itself; a hole has that of its first occurrence.
    fn found_cat(&self, tree: &Tree, wanted: u32) -> u32 {
        match tree {
            Tree::App(f, _) => match function_named(self.abs.funs.as_slice(), f.as_str()) {
                Some(number) => match self.fun(number) {
                    Some(fun) => fun.result.cat,
                    None => wanted,
                },
                None => wanted,
            },
            Tree::Int(_) => 0,
            Tree::Str(_) => 1,
            Tree::Hole(k) => match self.holes.get(k) {
                Some(hole) => hole.cat,
                None => wanted,
            },
        }
    }

    /// The node of a hole, made where it first stands.
    fn hole(&mut self, k: u32, cat: u32) -> Result<u32, NoMemory> {
        if let Some(hole) = self.holes.get(&k) {
            return Ok(hole.node);
        }
        let node = self.terms.variable()?;
        let place = u32::try_from(self.holes.len()).unwrap_or(NONE);
        self.holes.insert(
            k,
            Hole {
                node,
                cat,
                indices: None,
            },
        )?;
        self.places.insert(node, place)?;
        Ok(node)
    }

    /// The category that an argument must have.
    fn compare(&self, tree: &Tree, wanted: Option<u32>) -> Result<(), SkeletonErr> {
        let Some(wanted) = wanted else {
            return Ok(());
        };
        let found = self.found_cat(tree, wanted);
        if found != wanted {
            return Err(SkeletonErr::WrongCategory(wanted, found));
        }
        Ok(())
    }

    /// The node of a pattern that has to be of a category, where one is given.
    pub fn pattern(&mut self, tree: &'a Tree, wanted: Option<u32>) -> Result<u32, SkeletonErr> {
        pattern_in(self, tree, wanted)
    }
}

/// The function of an application, with as many arguments as it takes.
fn function_of(s: &Inference<'_>, name: &Name, count: usize) -> Result<u32, SkeletonErr> {
    let Some(number) = function_named(s.abs.funs.as_slice(), name.as_str()) else {
        return Err(SkeletonErr::UnknownFun(name.copy(s.terms.alloc())?));
    };
    match s.fun(number) {
        Some(fun) => {
            if fun.args.len() != count {
                return Err(SkeletonErr::WrongArity(name.copy(s.terms.alloc())?));
            }
            Ok(number)
        }
        None => Ok(number),
    }
}

#[cycle(pattern_in)]
fn pattern_in<'a>(
    s: &mut Inference<'a>,
    tree: &'a Tree,
    wanted: Option<u32>,
) -> Result<u32, SkeletonErr> {
    match tree {
        Tree::App(f, trees) => {
            let number = function_of(s, f, trees.len())?;
            s.compare(tree, wanted)?;
            let nodes = patterns_in(s, trees.as_slice(), number)?;
            Ok(s.terms.application(number, nodes.as_slice())?)
        }
        Tree::Int(value) => {
            s.compare(tree, wanted)?;
            Ok(s.terms.integer(*value)?)
        }
        Tree::Str(word) => {
            s.compare(tree, wanted)?;
            Ok(s.terms.word(word)?)
        }
        Tree::Hole(k) => {
            s.compare(tree, wanted)?;
            Ok(s.hole(*k, wanted.unwrap_or(0))?)
        }
    }
}

/// The category of an argument of a function.
fn argument_cat(s: &Inference<'_>, number: u32, k: usize) -> Option<u32> {
    match s.fun(number) {
        Some(fun) => match fun.args.get(k) {
            Some(t) => Some(t.cat),
            None => None,
        },
        None => None,
    }
}

#[cycle(pattern_in)]
fn patterns_in<'a>(
    s: &mut Inference<'a>,
    trees: &'a [Tree],
    number: u32,
) -> Result<Vec<u32>, SkeletonErr> {
    let mut nodes: Vec<u32> = Vec::new(s.terms.alloc());
    'each: for tree in trees {
        let cat = argument_cat(s, number, nodes.len());
        let node = pattern_in(s, tree, cat)?;
        if nodes.push(node).is_err() {
            return Err(SkeletonErr::NoMemory);
        }
    }
    Ok(nodes)
}

/// The arguments of a node.
pub fn arguments_of(terms: &Terms<'_>, first: u32, count: u32) -> Result<Vec<u32>, NoMemory> {
    let mut found = Vec::new(terms.alloc());
    'arguments: for k in 0..count {
        found.push(terms.argument(first.saturating_add(k)))?;
    }
    Ok(found)
}

/// The indices of the type that a node has by its head, none for a literal; a variable has none
/// known.
fn head_indices(s: &mut Inference<'_>, node: u32) -> Result<Vec<u32>, NoMemory> {
    if let Node::App(fun, first, count) = s.terms.node(node) {
        if let Some(fun) = s.fun(fun) {
            let arguments = arguments_of(&s.terms, first, count)?;
            return s.terms.indices(&fun.result, arguments.as_slice());
        }
    }
    Ok(Vec::new(s.terms.alloc()))
}

/// Gives a hole the indices of its type where it has none, and else makes them equal.
fn type_hole(s: &mut Inference<'_>, place: u32, wanted: Vec<u32>) -> Result<bool, NoMemory> {
    let Some((_, hole)) = s.holes.get_index(place as usize) else {
        return Ok(true);
    };
    if let Some(indices) = &hole.indices {
        return s.terms.unify_all(indices.as_slice(), wanted.as_slice());
    }
    if let Some(hole) = s.holes.get_index_mut(place as usize) {
        hole.indices = Some(wanted);
    }
    Ok(true)
}

/// Types an argument. False where it cannot have the type that it must have.
fn type_argument(s: &mut Inference<'_>, node: u32, wanted: Vec<u32>) -> Result<bool, NoMemory> {
    if let Some(place) = s.places.get(&node).copied() {
        return type_hole(s, place, wanted);
    }
    let found = head_indices(s, node)?;
    s.terms.unify_all(found.as_slice(), wanted.as_slice())
}

/// Types the arguments of a node that was made of the pattern.
fn type_node<'a>(s: &mut Inference<'a>, node: u32) -> Result<bool, NoMemory> {
    let Node::App(fun, first, count) = s.terms.node(node) else {
        return Ok(true);
    };
    let Some(fun) = s.fun(fun) else {
        return Ok(true);
    };
    type_arguments(s, fun, first, count)
}

fn type_arguments<'a>(
    s: &mut Inference<'a>,
    fun: &'a Fun,
    first: u32,
    count: u32,
) -> Result<bool, NoMemory> {
    let arguments = arguments_of(&s.terms, first, count)?;
    let mut k = 0usize;
    'arguments: for t in fun.args.as_slice() {
        let wanted = s.terms.indices(t, arguments.as_slice())?;
        let node = arguments.get(k).copied().unwrap_or(NONE);
        if !type_argument(s, node, wanted)? {
            return Ok(false);
        }
        k = k.saturating_add(1);
    }
    Ok(true)
}

impl<'a> Inference<'a> {
    /// Types the whole pattern, subtrees first. False where its indices cannot be made equal. It
    /// does not see where a hole would have to stand within itself.
    pub fn infer(&mut self) -> Result<bool, NoMemory> {
        'nodes: for node in 0..self.terms.len() {
            if !type_node(self, node)? {
                return Ok(false);
            }
        }
        Ok(true)
    }

    /// The nodes, and the holes in order of first occurrence.
    pub fn into_parts(self) -> (Terms<'a>, IndexMap<u32, Hole>) {
        let Inference {
            abs: _,
            terms,
            holes,
            places: _,
        } = self;
        (terms, holes)
    }

    /// The indices of the type that a node has by its head.
    pub fn result_indices(&mut self, node: u32) -> Result<Vec<u32>, NoMemory> {
        head_indices(self, node)
    }
}
