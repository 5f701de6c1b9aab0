//! Two trees compared at their heads.
ghost use Rattle.std.specs.Prelude.{◌≡◌, ◌↔◌, IsTrue};
ghost use Rattle.gft_core.specs.declared.tree.Tree.{Tree};
ghost use Rattle.gft_unify.specs.Comparison.{IsComparison};

use gft_core::{Name, Token, Tree, same};

/// What is to be done with two trees that have to become equal.
#[derive(Drop)]
pub enum Comparison<'a> {
    /// Nothing: they are equal.
    Same,
    /// One is the hole of this number, and this is the other.
    Bind(u32, &'a Tree),
    /// They are the holes of these numbers, which differ.
    Join(u32, u32),
    /// They are applications of one function to as many arguments, which have to become equal.
    Descend(&'a [Tree], &'a [Tree]),
    /// Their heads keep them apart.
    Clash,
}

/// Whether two names have equal bytes.
fn same_name(a: &Name, b: &Name) -> bool
    ensures { IsTrue result ↔ (a.now ≡ b.now) }
{
    a.as_str() == b.as_str()
}

/// Compares two holes.
fn compare_holes<'a>(left: &'a Tree, hole: u32, right: &'a Tree, other: u32) -> Comparison<'a>
    requires left { left.now ≡ Tree.Hole hole }
    requires right { right.now ≡ Tree.Hole other }
    ensures { IsComparison left.now right.now result }
{
    if hole == other {
        return Comparison::Same;
    }
    Comparison::Join(hole, other)
}

/// Compares a hole with a tree.
fn compare_hole<'a>(left: &'a Tree, hole: u32, right: &'a Tree) -> Comparison<'a>
    requires { left.now ≡ Tree.Hole hole }
    ensures { IsComparison left.now right.now result }
{
    match right {
        Tree::App(_, _) => Comparison::Bind(hole, right),
        Tree::Int(_) => Comparison::Bind(hole, right),
        Tree::Str(_) => Comparison::Bind(hole, right),
        Tree::Hole(other) => compare_holes(left, hole, right, *other),
    }
}

/// Compares the application of a function with a tree.
fn compare_application<'a>(
    left: &'a Tree,
    function: &Name,
    arguments: &'a [Tree],
    right: &'a Tree,
) -> Comparison<'a>
    requires { left.now ≡ Tree.App function.now arguments.now }
    ensures { IsComparison left.now right.now result }
{
    match right {
        Tree::App(other, others) => {
            if arguments.len() == others.len() && same_name(function, other) {
                return Comparison::Descend(arguments, others.as_slice());
            }
            Comparison::Clash
        }
        Tree::Int(_) => Comparison::Clash,
        Tree::Str(_) => Comparison::Clash,
        Tree::Hole(hole) => Comparison::Bind(*hole, left),
    }
}

/// Compares an integer with a tree.
fn compare_integer<'a>(left: &'a Tree, value: u128, right: &'a Tree) -> Comparison<'a>
    requires { left.now ≡ Tree.Int value }
    ensures { IsComparison left.now right.now result }
{
    match right {
        Tree::App(_, _) => Comparison::Clash,
        Tree::Int(other) => {
            if value == *other {
                return Comparison::Same;
            }
            Comparison::Clash
        }
        Tree::Str(_) => Comparison::Clash,
        Tree::Hole(hole) => Comparison::Bind(*hole, left),
    }
}

/// Compares a string with a tree.
fn compare_string<'a>(left: &'a Tree, word: &Token, right: &'a Tree) -> Comparison<'a>
    requires { left.now ≡ Tree.Str word.now }
    ensures { IsComparison left.now right.now result }
{
    match right {
        Tree::App(_, _) => Comparison::Clash,
        Tree::Int(_) => Comparison::Clash,
        Tree::Str(other) => {
            if same(word, other) {
                return Comparison::Same;
            }
            Comparison::Clash
        }
        Tree::Hole(hole) => Comparison::Bind(*hole, left),
    }
}

/// Compares two trees at their heads. It takes no memory, and time in the length of their names.
pub fn compare<'a>(left: &'a Tree, right: &'a Tree) -> Comparison<'a>
    ensures { IsComparison left.now right.now result }
{
    match left {
        Tree::App(function, arguments) => {
            compare_application(left, function, arguments.as_slice(), right)
        }
        Tree::Int(value) => compare_integer(left, *value, right),
        Tree::Str(word) => compare_string(left, word, right),
        Tree::Hole(hole) => compare_hole(left, *hole, right),
    }
}
