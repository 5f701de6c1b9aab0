//! Trees and types made of nodes, with variables numbered by first occurrence.
use crate::numbers::NONE;
use crate::terms::{Node, Terms};
use gft_core::{NoMemory, Tree};
use gft_pmcfg::AType;
use indexmap::IndexSet;
use sqlite_items::Items;

/// The nodes of a tree, each before its arguments, of which the last comes first.
fn nodes_of(terms: &Terms<'_>, node: u32) -> Result<Vec<u32>, NoMemory> {
    let mut found: Vec<u32> = Vec::new(terms.alloc());
    let mut pending: Vec<u32> = Vec::new(terms.alloc());
    pending.push(node)?;
    'nodes: for _ in 0..u64::MAX {
        let Some(next) = pending.pop() else {
            break;
        };
        let next = terms.root(next);
        found.push(next)?;
        if let Node::App(_, first, count) = terms.node(next) {
            'arguments: for k in 0..count {
                pending.push(terms.argument(first.saturating_add(k)))?;
            }
        }
    }
    Ok(found)
}

/// Puts an application on what is built.
fn put_application(
    terms: &Terms<'_>,
    built: &mut Vec<Tree>,
    fun: u32,
    count: u32,
) -> Result<(), NoMemory> {
    let Some(name) = terms.name(fun) else {
        // excluded by the grammar's invariant: each function of a type is there
        built.push(Tree::Hole(NONE))?;
        return Ok(());
    };
    let name = name.copy(terms.alloc())?;
    let arguments = built.split_off(built.len().saturating_sub(count as usize))?;
    built.push(Tree::App(name, Items::from_vec(arguments)))?;
    Ok(())
}

/// The number of a variable, from 1, by first occurrence.
fn number_of(seen: &mut IndexSet<u32>, variable: u32) -> Result<u32, NoMemory> {
    let (place, _) = seen.insert_full(variable)?;
    match u32::try_from(place) {
        Ok(place) if place < NONE => Ok(place + 1),
        _ => Err(NoMemory),
    }
}

/// Puts a node on what is built.
fn put(
    terms: &Terms<'_>,
    seen: &mut IndexSet<u32>,
    built: &mut Vec<Tree>,
    node: u32,
) -> Result<(), NoMemory> {
    match terms.node(node) {
        Node::App(fun, _, count) => return put_application(terms, built, fun, count),
        Node::Int(value) => built.push(Tree::Int(value))?,
        Node::Str(word) => {
            if let Some(word) = terms.word_at(word) {
                let word = word.copy(terms.alloc())?;
                built.push(Tree::Str(word))?;
            }
        }
        Node::Var => {
            let number = number_of(seen, node)?;
            built.push(Tree::Hole(number))?;
        }
    }
    Ok(())
}

/// The tree of a node. Its variables become holes, numbered from 1 in the order in which they are
/// seen.
pub fn tree_of(terms: &Terms<'_>, seen: &mut IndexSet<u32>, node: u32) -> Result<Tree, NoMemory> {
    let nodes = nodes_of(terms, node)?;
    let mut built: Vec<Tree> = Vec::new(terms.alloc());
    'nodes: for next in nodes.as_slice().iter().rev() {
        put(terms, seen, &mut built, *next)?;
    }
    match built.pop() {
        Some(tree) => Ok(tree),
        // excluded: there is a node for the tree itself
        None => Ok(Tree::Hole(NONE)),
    }
}

/// The type of these indices.
pub fn type_of_nodes(
    terms: &Terms<'_>,
    seen: &mut IndexSet<u32>,
    cat: u32,
    indices: &[u32],
) -> Result<AType, NoMemory> {
    let mut args = Items::new(terms.alloc());
    'indices: for node in indices {
        args.push(tree_of(terms, seen, *node)?)?;
    }
    Ok(AType { cat, args })
}
