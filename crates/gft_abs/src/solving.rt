//! The most general typed instance of a pattern.
use crate::acyclic::is_acyclic;
use crate::inference::{Inference, SkeletonErr};
use crate::replacing::type_replaced;
use crate::solution::{tree_of, type_of_nodes};
use crate::terms::Node;
use gft_core::{Name, NoMemory, Tree};
use gft_pmcfg::{AType, Abstract};
use indexmap::{IndexMap, IndexSet};
use sqlite_items::Items;
use std::alloc::{AllocError, Global};

/// A pattern that has a type: its most general instance, its type, and the type of each hole, from
/// 1.
#[derive(Drop)]
pub struct Solved {
    pub pattern: Tree,
    pub result: AType,
    pub holes: Vec<AType>,
}

/// Why a pattern has no type. The first three are the first in pre-order, in this order at one
/// subtree; `WrongCategory` has the category that was expected and the one that was found.
/// `IllTyped` has the first subtree in post-order without a type.
#[derive(Drop)]
pub enum SolveErr {
    UnknownFun(Name),
    WrongArity(Name),
    WrongCategory(Name, Name),
    IllTyped(Tree),
    NoMemory,
}

impl From<NoMemory> for SolveErr {
    fn from(_error: NoMemory) -> SolveErr {
        SolveErr::NoMemory
    }
}

impl From<AllocError> for SolveErr {
    fn from(_error: AllocError) -> SolveErr {
        SolveErr::NoMemory
    }
}

/// Holes from 2 on, as many as a category takes indices.
fn fresh_indices(alloc: Global, count: usize) -> Result<Items<Tree>, NoMemory> {
    let mut indices = Items::new(alloc);
    let mut k = 1u32;
    'indices: for _ in 0..count {
        k = match k.checked_add(1) {
            Some(next) => next,
            None => return Err(NoMemory),
        };
        indices.push(Tree::Hole(k))?;
    }
    Ok(indices)
}

/// One hole of a category: its indices are holes of their own, numbered after it.
fn solve_hole(alloc: Global, abs: &Abstract, cat: u32) -> Result<Solved, NoMemory> {
    let context = match abs.cats.get(cat as usize) {
        Some(found) => found.context.as_slice(),
        // excluded by the caller: the category is in range
        None => &[],
    };
    let indices = fresh_indices(alloc, context.len())?;
    let own = fresh_indices(alloc, context.len())?;
    let mut holes: Vec<AType> = Vec::new(alloc);
    holes.push(AType { cat, args: own })?;
    'context: for t in context {
        holes.push(type_replaced(alloc, t, indices.as_slice())?)?;
    }
    Ok(Solved {
        pattern: Tree::Hole(1),
        result: AType { cat, args: indices },
        holes,
    })
}

/// The name of a category.
fn cat_name(alloc: Global, abs: &Abstract, cat: u32) -> Result<Name, SolveErr> {
    match abs.cats.get(cat as usize) {
        Some(found) => Ok(found.name.copy(alloc)?),
        // excluded by the grammar's invariant: categories are in range
        None => Ok(abs.name.copy(alloc)?),
    }
}

fn wrong_category(alloc: Global, abs: &Abstract, expected: u32, found: u32) -> SolveErr {
    let expected = match cat_name(alloc, abs, expected) {
        Ok(name) => name,
        Err(error) => return error,
    };
    match cat_name(alloc, abs, found) {
        Ok(found) => SolveErr::WrongCategory(expected, found),
        Err(error) => error,
    }
}

fn skeleton_error(alloc: Global, abs: &Abstract, error: SkeletonErr) -> SolveErr {
    match error {
        SkeletonErr::UnknownFun(name) => SolveErr::UnknownFun(name),
        SkeletonErr::WrongArity(name) => SolveErr::WrongArity(name),
        SkeletonErr::WrongCategory(expected, found) => {
            wrong_category(alloc, abs, expected, found)
        }
        SkeletonErr::NoMemory => SolveErr::NoMemory,
    }
}

/// Whether a pattern with a skeleton type has a type.
fn has_solution<'a>(alloc: Global, abs: &'a Abstract, tree: &'a Tree) -> Result<bool, NoMemory> {
    let mut s = Inference::new(alloc, abs);
    let root = match s.pattern(tree, None) {
        Ok(root) => root,
        Err(SkeletonErr::NoMemory) => return Err(NoMemory),
        // excluded: the whole has a skeleton type
        Err(_) => return Ok(true),
    };
    if !s.infer()? {
        return Ok(false);
    }
    is_acyclic(&s.terms, root)
}

/// The first subtree in post-order without a type of its own.
#[cycle(first_ill)]
fn first_ill<'a>(
    alloc: Global,
    abs: &'a Abstract,
    tree: &'a Tree,
) -> Result<Option<&'a Tree>, NoMemory> {
    match tree {
        Tree::App(_, trees) => {
            let within = first_ill_of(alloc, abs, trees.as_slice())?;
            if within.is_some() {
                return Ok(within);
            }
            if has_solution(alloc, abs, tree)? {
                return Ok(None);
            }
            Ok(Some(tree))
        }
        Tree::Int(_) => Ok(None),
        Tree::Str(_) => Ok(None),
        Tree::Hole(_) => Ok(None),
    }
}

#[cycle(first_ill)]
fn first_ill_of<'a>(
    alloc: Global,
    abs: &'a Abstract,
    trees: &'a [Tree],
) -> Result<Option<&'a Tree>, NoMemory> {
    'each: for tree in trees {
        let found = first_ill(alloc, abs, tree)?;
        if found.is_some() {
            return Ok(found);
        }
    }
    Ok(None)
}

/// The refusal of a pattern whose indices do not fit.
fn ill_typed(alloc: Global, abs: &Abstract, pattern: &Tree) -> Result<Tree, NoMemory> {
    match first_ill(alloc, abs, pattern)? {
        Some(found) => found.copy(alloc),
        // excluded: the whole pattern has no type
        None => pattern.copy(alloc),
    }
}

/// The place of a hole of the pattern for each variable that stands for itself.
fn holes_by_variable(s: &Inference<'_>) -> Result<IndexMap<u32, u32>, NoMemory> {
    let mut places: IndexMap<u32, u32> = IndexMap::new(s.terms.alloc());
    let mut place = 0u32;
    'holes: for hole in s.holes.values() {
        let root = s.terms.root(hole.node);
        if places.get(&root).is_none() {
            places.insert(root, place)?;
        }
        place = place.saturating_add(1);
    }
    Ok(places)
}

/// The type of the hole that a variable stands for.
fn hole_type(
    s: &Inference<'_>,
    places: &IndexMap<u32, u32>,
    seen: &mut IndexSet<u32>,
    variable: u32,
) -> Result<AType, NoMemory> {
    let place = places.get(&variable).copied().unwrap_or(0);
    let Some((_, hole)) = s.holes.get_index(place as usize) else {
        // excluded: each variable is a hole of the pattern
        return type_of_nodes(&s.terms, seen, 0, &[]);
    };
    match &hole.indices {
        Some(indices) => type_of_nodes(&s.terms, seen, hole.cat, indices.as_slice()),
        None => type_of_nodes(&s.terms, seen, hole.cat, &[]),
    }
}

/// The types of the holes of a solved pattern, in the order of their numbers.
fn hole_types(s: &Inference<'_>, seen: &mut IndexSet<u32>) -> Result<Vec<AType>, NoMemory> {
    let places = holes_by_variable(s)?;
    let mut types: Vec<AType> = Vec::new(s.terms.alloc());
    'holes: for k in 0..seen.len() {
        let Some(variable) = seen.get_index(k).copied() else {
            break;
        };
        types.push(hole_type(s, &places, seen, variable)?)?;
    }
    Ok(types)
}

/// The category of a pattern by its head.
fn result_cat(s: &Inference<'_>, root: u32) -> u32 {
    match s.terms.node(root) {
        Node::App(fun, _, _) => match s.fun(fun) {
            Some(fun) => fun.result.cat,
            None => 0,
        },
        Node::Str(_) => 1,
        _ => 0,
    }
}

/// The solution of a pattern that was typed.
fn solution_of(s: &mut Inference<'_>, root: u32) -> Result<Solved, NoMemory> {
    let indices = s.result_indices(root)?;
    let mut seen: IndexSet<u32> = IndexSet::new(s.terms.alloc());
    let pattern = tree_of(&s.terms, &mut seen, root)?;
    let cat = result_cat(s, root);
    let result = type_of_nodes(&s.terms, &mut seen, cat, indices.as_slice())?;
    let holes = hole_types(s, &mut seen)?;
    Ok(Solved {
        pattern,
        result,
        holes,
    })
}

/// The most general typed instance of a pattern; `cat` is the category of one that is one hole.
/// Time is all but linear in the pattern, the signatures of its functions and the answer; where it
/// is ill-typed, in its size times its depth.
pub fn solve(alloc: Global, abs: &Abstract, pattern: &Tree, cat: u32) -> Result<Solved, SolveErr> {
    if let Tree::Hole(_) = pattern {
        return Ok(solve_hole(alloc, abs, cat)?);
    }
    let mut s = Inference::new(alloc, abs);
    let root = match s.pattern(pattern, None) {
        Ok(root) => root,
        Err(error) => return Err(skeleton_error(alloc, abs, error)),
    };
    if s.infer()? && is_acyclic(&s.terms, root)? {
        return Ok(solution_of(&mut s, root)?);
    }
    Err(SolveErr::IllTyped(ill_typed(alloc, abs, pattern)?))
}
