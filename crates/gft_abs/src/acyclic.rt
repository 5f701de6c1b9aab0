//! Whether joined nodes stand for finite trees.
use crate::numbers::{at, filled, put};
use crate::terms::{Node, Terms};
use gft_core::NoMemory;

/// Where a walk is: what was met and not left (1) or left (2), and the nodes on the way with the
/// next argument of each.
#[derive(Drop)]
struct Walk {
    state: Vec<u32>,
    way: Vec<(u32, u32)>,
}

/// How many arguments a node has.
fn arguments(terms: &Terms<'_>, node: u32) -> u32 {
    match terms.node(node) {
        Node::App(_, _, count) => count,
        _ => 0,
    }
}

/// The argument of a node, as the node that stands for it.
fn argument(terms: &Terms<'_>, node: u32, k: u32) -> u32 {
    match terms.node(node) {
        Node::App(_, first, _) => terms.root(terms.argument(first.saturating_add(k))),
        _ => node,
    }
}

/// One step of the walk. False where a node is met that was not left.
fn step(terms: &Terms<'_>, walk: &mut Walk, node: u32, k: u32) -> Result<bool, NoMemory> {
    if k >= arguments(terms, node) {
        put(&mut walk.state, node, 2);
        return Ok(true);
    }
    walk.way.push((node, k.saturating_add(1)))?;
    let next = argument(terms, node, k);
    match at(walk.state.as_slice(), next) {
        0 => {
            put(&mut walk.state, next, 1);
            walk.way.push((next, 0))?;
            Ok(true)
        }
        1 => Ok(false),
        _ => Ok(true),
    }
}

/// Whether a node stands for a finite tree, once trees are put in for its variables. Linear time.
pub fn is_acyclic(terms: &Terms<'_>, node: u32) -> Result<bool, NoMemory> {
    let root = terms.root(node);
    let mut walk = Walk {
        state: filled(terms.alloc(), terms.len(), 0)?,
        way: Vec::new(terms.alloc()),
    };
    put(&mut walk.state, root, 1);
    walk.way.push((root, 0))?;
    'steps: for _ in 0..u64::MAX {
        let Some((node, k)) = walk.way.pop() else {
            return Ok(true);
        };
        if !step(terms, &mut walk, node, k)? {
            return Ok(false);
        }
    }
    Ok(true)
}
