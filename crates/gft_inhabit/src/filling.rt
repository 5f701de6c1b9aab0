//! Closed instances of patterns.
use crate::search::Search;
use crate::tables::Tables;
use gft_abs::{Hole, Inference, SkeletonErr, replaced, tree_of};
use gft_core::{NoMemory, Token, Tree};
use gft_pmcfg::{Abstract, Concrete, Grammar};
use indexmap::{IndexMap, IndexSet};
use std::alloc::Global;

/// The nonterminal of each hole, and how deep it stands at most.
#[derive(Drop)]
struct Places {
    nonterminals: IndexMap<u32, u32>,
    levels: IndexMap<u32, u32>,
}

fn nonterminals_of(alloc: Global, holes: &[(u32, u32)]) -> Result<IndexMap<u32, u32>, NoMemory> {
    let mut found: IndexMap<u32, u32> = IndexMap::new(alloc);
    'holes: for (hole, nonterminal) in holes {
        found.insert(*hole, *nonterminal)?;
    }
    Ok(found)
}

/// Notes how deep each hole stands; false where the tree is deeper than allowed.
#[cycle(levels)]
fn levels(
    tree: &Tree,
    level: u32,
    depth: u32,
    found: &mut IndexMap<u32, u32>,
) -> Result<bool, NoMemory> {
    if level > depth {
        return Ok(false);
    }
    match tree {
        Tree::App(_, trees) => {
            all_levels(trees.as_slice(), level.saturating_add(1), depth, found)
        }
        Tree::Int(_) => Ok(true),
        Tree::Str(_) => Ok(true),
        Tree::Hole(hole) => {
            let before = found.get(hole).copied().unwrap_or(0);
            found.insert(*hole, before.max(level))?;
            Ok(true)
        }
    }
}

#[cycle(levels)]
fn all_levels(
    trees: &[Tree],
    level: u32,
    depth: u32,
    found: &mut IndexMap<u32, u32>,
) -> Result<bool, NoMemory> {
    'each: for tree in trees {
        if !levels(tree, level, depth, found)? {
            return Ok(false);
        }
    }
    Ok(true)
}

/// How deep the tree of a hole may be.
fn room(places: &Places, hole: u32, depth: u32) -> u32 {
    let level = places.levels.get(&hole).copied().unwrap_or(1);
    depth.saturating_sub(level).saturating_add(1)
}

/// Whether each hole by itself has a run within its depth.
fn is_possible(tables: &Tables, places: &Places, depth: u32) -> bool {
    'holes: for (hole, nonterminal) in places.nonterminals.iter() {
        if !tables.has_run_within(*nonterminal, room(places, *hole, depth)) {
            return false;
        }
    }
    true
}

/// The places of a pattern's holes. None where some hole by itself cannot be filled, or the pattern
/// is too deep.
fn places_of(
    alloc: Global,
    tables: &Tables,
    pattern: &Tree,
    holes: &[(u32, u32)],
    depth: u32,
) -> Result<Option<Places>, NoMemory> {
    let mut found: IndexMap<u32, u32> = IndexMap::new(alloc);
    if !levels(pattern, 1, depth, &mut found)? {
        return Ok(None);
    }
    let places = Places {
        nonterminals: nonterminals_of(alloc, holes)?,
        levels: found,
    };
    if is_possible(tables, &places, depth) {
        return Ok(Some(places));
    }
    Ok(None)
}

/// The category of a nonterminal.
fn cat_of(c: &Concrete, nonterminal: u32) -> u32 {
    let after = c
        .infos
        .as_slice()
        .partition_point(|info| info.first <= nonterminal);
    u32::try_from(after.saturating_sub(1)).unwrap_or(0)
}

/// Fresh variables for the indices of a category.
fn fresh_indices(s: &mut Inference<'_>, cat: u32) -> Result<Vec<u32>, NoMemory> {
    let mut indices: Vec<u32> = Vec::new(s.terms.alloc());
    let abs = s.abs;
    if let Some(cat) = abs.cats.get(cat as usize) {
        'context: for _ in cat.context.as_slice() {
            indices.push(s.terms.variable()?)?;
        }
    }
    Ok(indices)
}

/// The node of a pattern whose types fit. None where they do not.
fn typed<'a>(
    s: &mut Inference<'a>,
    c: &Concrete,
    pattern: &'a Tree,
    places: &Places,
) -> Result<Option<u32>, NoMemory> {
    let root = match s.pattern(pattern, None) {
        Ok(root) => root,
        Err(SkeletonErr::NoMemory) => return Err(NoMemory),
        Err(_) => return Ok(None),
    };
    if let Tree::Hole(hole) = pattern {
        let nonterminal = places.nonterminals.get(hole).copied().unwrap_or(0);
        let indices = fresh_indices(s, cat_of(c, nonterminal))?;
        if let Some(found) = s.holes.get_mut(hole) {
            found.indices = Some(indices);
        }
        return Ok(Some(root));
    }
    if s.infer()? {
        return Ok(Some(root));
    }
    Ok(None)
}

/// Adds the goal of a hole.
fn add_goal(
    search: &mut Search<'_>,
    places: &Places,
    number: u32,
    hole: &Hole,
    depth: u32,
) -> Result<(), NoMemory> {
    let Some(nonterminal) = places.nonterminals.get(&number).copied() else {
        // excluded by the caller: each hole is listed
        return Ok(());
    };
    let room = room(places, number, depth);
    match &hole.indices {
        Some(indices) => search.add(hole.node, nonterminal, room, indices.as_slice()),
        None => search.add(hole.node, nonterminal, room, &[]),
    }
}

/// The search for the holes of a typed pattern, the last hole first.
fn search_of<'a>(
    alloc: Global,
    tables: &'a Tables,
    c: &'a Concrete,
    s: Inference<'a>,
    places: &Places,
    depth: u32,
    asks: bool,
) -> Result<Search<'a>, NoMemory> {
    let (terms, holes) = s.into_parts();
    let mut search = Search::new(alloc, tables, c.prods.as_slice(), terms, asks);
    'holes: for (number, hole) in holes.iter() {
        add_goal(&mut search, places, *number, hole, depth)?;
    }
    Ok(search)
}

/// A literal for each variable that is left: they stand where any literal may.
fn literals(
    alloc: Global,
    search: &Search<'_>,
    seen: &IndexSet<u32>,
) -> Result<Vec<Tree>, NoMemory> {
    let mut found: Vec<Tree> = Vec::new(alloc);
    'variables: for variable in seen.iter() {
        found.push(literal(alloc, search.is_text(*variable))?)?;
    }
    Ok(found)
}

fn literal(alloc: Global, is_text: bool) -> Result<Tree, NoMemory> {
    if is_text {
        if let Some(word) = Token::new(alloc, "x")? {
            return Ok(Tree::Str(word));
        }
    }
    Ok(Tree::Int(0))
}

/// Whether a pattern has a closed well-typed instance as `fill` gives it, over tables of the
/// concrete syntax. Where no category of the grammar takes indices, time is the size of the
/// pattern.
pub fn can_fill(
    alloc: Global,
    tables: &Tables,
    abs: &Abstract,
    c: &Concrete,
    pattern: &Tree,
    holes: &[(u32, u32)],
    depth: u32,
) -> Result<bool, NoMemory> {
    let Some(places) = places_of(alloc, tables, pattern, holes, depth)? else {
        return Ok(false);
    };
    if tables.is_plain() {
        return Ok(true);
    }
    let mut s = Inference::new(alloc, abs);
    let Some(_) = typed(&mut s, c, pattern, &places)? else {
        return Ok(false);
    };
    let mut search = search_of(alloc, tables, c, s, &places, depth, true)?;
    search.run()
}

/// The closed tree of a node that was filled.
fn closed(alloc: Global, search: &Search<'_>, root: u32) -> Result<Tree, NoMemory> {
    let mut seen: IndexSet<u32> = IndexSet::new(alloc);
    let tree = tree_of(&search.terms, &mut seen, root)?;
    let literals = literals(alloc, search, &seen)?;
    replaced(alloc, &tree, literals.as_slice())
}

fn filled(
    alloc: Global,
    tables: &Tables,
    abs: &Abstract,
    c: &Concrete,
    pattern: &Tree,
    holes: &[(u32, u32)],
    depth: u32,
) -> Result<Option<Tree>, NoMemory> {
    let Some(places) = places_of(alloc, tables, pattern, holes, depth)? else {
        return Ok(None);
    };
    let mut s = Inference::new(alloc, abs);
    let Some(root) = typed(&mut s, c, pattern, &places)? else {
        return Ok(None);
    };
    let mut search = search_of(alloc, tables, c, s, &places, depth, false)?;
    if search.run()? {
        return Ok(Some(closed(alloc, &search, root)?));
    }
    Ok(None)
}

/// A closed well-typed instance of the pattern within the depth whose subtree at each hole has a
/// run without holes to its nonterminal; None exactly where there is none. `holes` has each hole
/// once, with its nonterminal.
pub fn fill(
    alloc: Global,
    g: &Grammar,
    lang: u32,
    pattern: &Tree,
    holes: &Vec<(u32, u32)>,
    depth: u32,
) -> Result<Option<Tree>, NoMemory> {
    let Some(c) = g.concretes.get(lang as usize) else {
        // excluded by the caller: the language is in range
        return Ok(None);
    };
    let tables = Tables::new(alloc, c, &g.abs)?;
    filled(alloc, &tables, &g.abs, c, pattern, holes.as_slice(), depth)
}
