//! Trees put together from their nodes by a loop, so that the stack does not grow with their depth.
ghost use Rattle.std.specs.Prelude.{◌≡◌, ◌∷◌, ◌++◌, [], IfOk, OnOk, length};
ghost use Rattle.gft_unify.specs.Bindings.{trees_of};
ghost use Rattle.gft_unify.specs.Building.{arguments_of, applied, place, built_on, Builds};

use gft_core::{Name, NoMemory, Tree};
use sqlite_items::Items;
use std::alloc::Global;

/// The arguments of an application, none of another tree.
pub fn arguments_of(tree: &Tree) -> &[Tree]
    ensures { result.now ≡ arguments_of tree.now }
{
    match tree {
        Tree::App(_, arguments) => arguments.as_slice(),
        Tree::Int(_) => &[],
        Tree::Str(_) => &[],
        Tree::Hole(_) => &[],
    }
}

/// Adds each tree to those that are still to be visited.
pub fn push_all<'a>(pending: &mut Vec<&'a Tree>, trees: &'a [Tree]) -> Result<(), NoMemory>
    ensures { OnOk result (trees_of pending.new.items ≡ trees_of pending.old.items ++ trees.now) }
{
    'each: for tree in trees {
        pending.push(tree)?;
    }
    Ok(())
}

/// Puts a whole tree on what is built.
fn push(built: &mut Vec<Tree>, tree: Tree) -> Result<(), NoMemory>
    ensures { OnOk result (built.new.items ≡ built.old.items ++ tree ∷ []) }
{
    built.push(tree)?;
    Ok(())
}

/// Puts the function on what is built, applied to the last `count` trees there.
fn push_application(
    alloc: Global,
    built: &mut Vec<Tree>,
    function: &Name,
    count: usize,
) -> Result<(), NoMemory>
    ensures { OnOk result (built.new.items ≡ applied function.now count built.old.items) }
{
    let function = function.copy(alloc)?;
    let arguments = built.split_off(built.len().saturating_sub(count))?;
    built.push(Tree::App(function, Items::from_vec(arguments)))?;
    Ok(())
}

/// Puts a node on what is built.
fn put(alloc: Global, node: &Tree, built: &mut Vec<Tree>) -> Result<(), NoMemory>
    ensures { OnOk result (built.new.items ≡ place node.now built.old.items) }
{
    match node {
        Tree::App(function, arguments) => {
            push_application(alloc, built, function, arguments.len())
        }
        Tree::Int(value) => push(built, Tree::Int(*value)),
        Tree::Str(word) => push(built, Tree::Str(word.copy(alloc)?)),
        Tree::Hole(hole) => push(built, Tree::Hole(*hole)),
    }
}

/// The one tree of the nodes, of which the last is put first.
pub fn build<'a>(alloc: Global, nodes: Vec<&'a Tree>) -> Result<Tree, NoMemory>
    requires { length (built_on (trees_of nodes.items) []) ≡ 1 }
    ensures { IfOk result (λ tree. Builds tree (trees_of nodes.entry.items)) }
{
    let mut nodes = nodes;
    let mut built = Vec::new(alloc);
    'nodes: while let Some(node) = nodes.pop() {
        put(alloc, node, &mut built)?;
    }
    match built.pop() {
        Some(tree) => Ok(tree),
        None => unreachable!(),
    }
}
