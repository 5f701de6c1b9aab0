//! The depth of a tree.
ghost use Rattle.std.specs.Prelude.{◌≡◌, ◌+◌, ◌^◌, ◌<◌, map, min};
ghost use Rattle.gft_tree.specs.Trees.{depth_of, greatest};

use gft_core::Tree;

#[cycle(height)]
fn height(tree: &Tree) -> u64
    ensures { result ≡ min (depth_of tree.now) u64.MAX }
{
    match tree {
        Tree::App(_, arguments) => highest(arguments.as_slice()).saturating_add(1),
        Tree::Int(_) => 1,
        Tree::Str(_) => 1,
        Tree::Hole(_) => 1,
    }
}

#[cycle(height)]
fn highest(trees: &[Tree]) -> u64
    ensures { result ≡ min (greatest (map depth_of trees.now)) u64.MAX }
{
    let mut most = 0u64;
    'each: for tree in trees {
        most = most.max(height(tree));
    }
    most
}

/// The depth of a tree: a constant, a literal and a hole have 1, an application one more than its
/// deepest argument. It takes no memory but stack, which grows with the depth.
pub fn depth(tree: &Tree) -> u64
    requires { depth_of tree.now < 2 ^ 64 }
    ensures { result ≡ depth_of tree.now }
{
    height(tree)
}
