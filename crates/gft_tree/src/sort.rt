//! How the text of a tree begins.
ghost use Rattle.std.specs.Prelude.{◌≡◌};
ghost use Rattle.std.specs.Ordering.{nat_cmp};
ghost use Rattle.gft_core.specs.declared.tree.Tree.TheVariants as tree;
ghost use Rattle.gft_tree.specs.Order.{Leads, rank_of, shown, sort_of};

use gft_core::{Name, Tree};
use std::cmp::Ordering;

/// The sorts of a first byte: a quote, a parenthesis, a digit, a question mark, a letter.
#[derive(Clone, Copy)]
pub enum Sort {
    Word,
    Parenthesis,
    Digit,
    Mark,
    Letter,
}

impl Sort {
    /// The sort's place in the order of the bytes.
    fn rank(self) -> u8
        ensures { result ≡ rank_of self }
    {
        match self {
            Sort::Word => 0,
            Sort::Parenthesis => 1,
            Sort::Digit => 2,
            Sort::Mark => 3,
            Sort::Letter => 4,
        }
    }

    /// How texts that begin with these sorts compare; texts of one sort are equal so far.
    pub fn order(self, other: Sort) -> Ordering
        ensures { result ≡ nat_cmp (rank_of self) (rank_of other) }
    {
        self.rank().cmp(&other.rank())
    }
}

/// The sort of an application's first byte: a parenthesis where it is an argument with arguments.
fn application_sort(function: &Name, arguments: &[Tree], inner: bool) -> Sort
    ensures sort { result ≡ sort_of inner (tree.App function.now arguments.now) }
    ensures leads { Leads result (shown inner (tree.App function.now arguments.now)) }
{
    let _name = function.as_str();
    if arguments.is_empty() {
        return Sort::Letter;
    }
    if inner {
        return Sort::Parenthesis;
    }
    Sort::Letter
}

/// The sort of a number's first byte.
fn integer_sort(_value: u128, _inner: bool) -> Sort
    ensures sort { result ≡ sort_of _inner (tree.Int _value) }
    ensures leads { Leads result (shown _inner (tree.Int _value)) }
{
    Sort::Digit
}

/// The sort of a tree's first byte, where it is an argument or not.
pub fn sort_of(tree: &Tree, inner: bool) -> Sort
    ensures sort { result ≡ sort_of inner tree.now }
    ensures leads { Leads result (shown inner tree.now) }
{
    match tree {
        Tree::App(function, arguments) => application_sort(function, arguments.as_slice(), inner),
        Tree::Int(value) => integer_sort(*value, inner),
        Tree::Str(_) => Sort::Word,
        Tree::Hole(_) => Sort::Mark,
    }
}
