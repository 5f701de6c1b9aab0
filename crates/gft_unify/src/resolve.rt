//! Trees with their bindings followed to their ends.
ghost use Rattle.std.specs.Prelude.{◌≡◌, IfOk};
ghost use Rattle.gft_unify.specs.Bindings.{IsAcyclic, trees_of};
ghost use Rattle.gft_unify.specs.Resolution.{AreNodesOf, resolved};

use crate::build::{arguments_of, build, push_all};
use crate::store::Store;
use gft_core::{NoMemory, Tree};
use std::alloc::Global;

/// The nodes of the tree with its bindings followed, each before its arguments.
fn nodes<'a>(alloc: Global, store: &Store<'a>, tree: &'a Tree) -> Result<Vec<&'a Tree>, NoMemory>
    requires { IsAcyclic store.now }
    ensures { IfOk result (λ found. AreNodesOf tree.now store.now (trees_of found.items)) }
{
    let mut found = Vec::new(alloc);
    let mut pending = Vec::new(alloc);
    pending.push(tree)?;
    'nodes: while let Some(next) = pending.pop() {
        let node = store.walk(next);
        found.push(node)?;
        push_all(&mut pending, arguments_of(node))?;
    }
    Ok(found)
}

/// The tree with its bindings followed to their ends, in memory of its own. Time and memory are
/// those of what it gives.
pub fn resolve<'a>(alloc: Global, store: &Store<'a>, tree: &'a Tree) -> Result<Tree, NoMemory>
    requires { IsAcyclic store.now }
    ensures { IfOk result (λ t. t ≡ resolved store.now tree.now) }
{
    let nodes = nodes(alloc, store, tree)?;
    build(alloc, nodes)
}
