//! Holes renamed by first occurrence.
ghost use Rattle.std.specs.Prelude.{◌≡◌, ℕ, List, ◌++◌, map, IfOk, OnOk};
ghost use Rattle.gft_tree.specs.Trees.{holes_of, all_of, firsts_after, placed, numbered};

use crate::seen::Seen;
use gft_core::{NoMemory, Tree};
use sqlite_items::Items;
use std::alloc::Global;

#[cycle(renumber)]
fn renumber(alloc: Global, seen: &mut Seen, tree: &Tree) -> Result<Tree, NoMemory>
    ensures seen { OnOk result (seen.new ≡ firsts_after seen.old (holes_of tree.now)) }
    ensures tree { IfOk result (λ t. (more : List ℕ) → t ≡ placed (seen.new ++ more) tree.now) }
{
    match tree {
        Tree::App(function, arguments) => {
            let arguments = renumber_all(alloc, seen, arguments.as_slice())?;
            Ok(Tree::App(function.copy(alloc)?, arguments))
        }
        Tree::Int(value) => Ok(Tree::Int(*value)),
        Tree::Str(word) => Ok(Tree::Str(word.copy(alloc)?)),
        Tree::Hole(number) => Ok(Tree::Hole(seen.place(*number)?)),
    }
}

#[cycle(renumber)]
fn renumber_all(alloc: Global, seen: &mut Seen, trees: &[Tree]) -> Result<Items<Tree>, NoMemory>
    ensures seen { OnOk result (seen.new ≡ firsts_after seen.old (all_of (map holes_of trees.now))) }
    ensures trees { IfOk result (λ ts. (more : List ℕ) → ts ≡ map (placed (seen.new ++ more)) trees.now) }
{
    let mut renumbered = Items::new(alloc);
    'each: for tree in trees {
        renumbered.push(renumber(alloc, seen, tree)?)?;
    }
    Ok(renumbered)
}

/// The tree with its holes renamed by first occurrence, from 1: equal holes stay equal and
/// different ones different. The stack that it takes grows with the tree's depth.
pub fn number_holes(alloc: Global, tree: &Tree) -> Result<Tree, NoMemory>
    ensures { IfOk result (λ t. t ≡ numbered tree.now) }
{
    let mut seen = Seen::new(alloc);
    renumber(alloc, &mut seen, tree)
}
