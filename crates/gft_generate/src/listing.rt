//! The trees of a category: counted, then made, then put in order.
use crate::counting::count;
use crate::goals::Part;
use crate::literals::Literals;
use crate::space::Space;
use crate::tables::Tables;
use crate::tally::{MOST, Tally};
use crate::walk::Walk;
use gft_core::{NoMemory, Tree};
use gft_pmcfg::Abstract;
use gft_tree::print;
use indexmap::IndexMap;
use std::alloc::Global;

/// The trees by their texts.
type Texts = IndexMap<String, Tree>;

fn add(alloc: Global, found: &mut Texts, tree: Tree) -> Result<(), NoMemory> {
    let text = print(alloc, &tree)?;
    let text = String::from_str(alloc, text.as_str())?;
    found.insert(text, tree)?;
    Ok(())
}

/// The trees in byte order of their texts.
fn in_order(found: Texts, alloc: Global) -> Result<Vec<Tree>, NoMemory> {
    let mut found = found;
    found.sort_keys()?;
    let mut trees = Vec::new(alloc);
    'trees: for (_, tree) in found {
        trees.push(tree)?;
    }
    Ok(trees)
}

/// All trees of a node, which is the goal of a part that was counted.
fn walked(
    alloc: Global,
    space: &mut Space<'_>,
    tally: &Tally,
    root: u32,
    part: Part,
) -> Result<Vec<Tree>, NoMemory> {
    let mut found = IndexMap::new(alloc);
    let mut walk = Walk::new(alloc, root, part)?;
    // there are not more than were counted
    'trees: for _ in 0..MOST {
        match walk.next(space, tally)? {
            None => break,
            Some(tree) => add(alloc, &mut found, tree)?,
        }
    }
    in_order(found, alloc)
}

/// All trees of the category within the depth. None where there are too many.
fn counted(
    alloc: Global,
    tables: &Tables,
    abs: &Abstract,
    tally: &mut Tally,
    cat: u32,
    depth: u32,
) -> Result<Option<Vec<Tree>>, NoMemory> {
    let mut space = Space::new(alloc, tables, abs);
    let Some((root, part)) = space.add_root(cat, depth)? else {
        return Ok(Some(Vec::new(alloc)));
    };
    if tally.count(&mut space, part)? > MOST {
        return Ok(None);
    }
    Ok(Some(walked(alloc, &mut space, tally, root, part)?))
}

/// Whether there are too many trees within a depth, of which there may be others further down.
fn is_over(
    alloc: Global,
    tables: &Tables,
    abs: &Abstract,
    tally: &mut Tally,
    cat: u32,
    depth: u32,
) -> Result<bool, NoMemory> {
    let mut space = Space::new(alloc, tables, abs);
    let Some((_, part)) = space.add_root(cat, depth)? else {
        return Ok(false);
    };
    Ok(tally.count(&mut space, part)? > MOST)
}

/// All trees within the depth. Where there are too many, those of a small depth show it: the depths
/// are tried one after another, and what was counted for one is known for the next.
fn deepened(
    alloc: Global,
    tables: &Tables,
    abs: &Abstract,
    cat: u32,
    depth: u32,
) -> Result<Option<Vec<Tree>>, NoMemory> {
    let mut tally = Tally::new(alloc);
    let within = tables.depths.within(cat, depth);
    'depths: for less in 1..within {
        if is_over(alloc, tables, abs, &mut tally, cat, less)? {
            return Ok(None);
        }
    }
    counted(alloc, tables, abs, &mut tally, cat, within)
}

/// The closed trees of a category that have a type and at most this depth, and whose literals are
/// 0, `"x"` and those that stand in types: each once, in byte order of their texts. None exactly
/// where there are over 100,000; they are counted before one is made. The category is in range.
/// Beside the counting, the time is that of the trees.
pub fn trees(
    alloc: Global,
    abs: &Abstract,
    cat: u32,
    depth: u32,
) -> Result<Option<Vec<Tree>>, NoMemory> {
    let literals = Literals::of(alloc, abs)?;
    match count(alloc, abs, &literals, cat, depth)? {
        None => {
            let tables = Tables::of(alloc, abs, literals, depth)?;
            deepened(alloc, &tables, abs, cat, depth)
        }
        Some(many) => {
            if many > MOST {
                return Ok(None);
            }
            let tables = Tables::of(alloc, abs, literals, depth)?;
            let mut tally = Tally::new(alloc);
            counted(alloc, &tables, abs, &mut tally, cat, depth)
        }
    }
}
