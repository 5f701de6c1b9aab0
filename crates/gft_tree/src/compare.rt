//! Trees compared by their texts.
ghost use Rattle.std.specs.Prelude.{◌≡◌, ◌∷◌, ◌++◌, map, true, false};
ghost use Rattle.std.specs.Fmt.{decimal};
ghost use Rattle.gft_core.specs.declared.tree.Tree.TheVariants as form;
ghost use Rattle.gft_tree.specs.declared.sort.Sort.TheVariants.{Word, Digit, Mark};
ghost use Rattle.gft_tree.specs.declared.order.After.TheVariants.{End};
ghost use Rattle.gft_tree.specs.Order.{Orders, after_of, shown, text_cmp};
ghost use Rattle.gft_tree.specs.Order as spec;
ghost use Rattle.gft_tree.specs.Trees.{as_arguments, printed, quoted, text_of};

use crate::order::{After, bytes_cmp};
use crate::sort::sort_of;
use gft_core::{Name, Token, Tree};
use itoa::Buffer;
use std::cmp::Ordering;

/// Two numbers in decimal.
fn numbers(one: u128, other: u128, after_one: After, after_other: After) -> Ordering
    ensures { Orders result (decimal one) (decimal other) after_one after_other }
{
    let mut first = Buffer::new();
    let mut second = Buffer::new();
    let first = first.format(one).as_bytes();
    let second = second.format(other).as_bytes();
    bytes_cmp(first, second, after_one, after_other)
}

/// Two names.
fn names(one: &Name, other: &Name, after_one: After, after_other: After) -> Ordering
    ensures { Orders result one.now other.now after_one after_other }
{
    let (one, other) = (one.as_str(), other.as_str());
    bytes_cmp(one.as_bytes(), other.as_bytes(), after_one, after_other)
}

/// Two words in quotes.
fn words(one: &Token, other: &Token, after_one: After, after_other: After) -> Ordering
    ensures { Orders result (quoted one.now) (quoted other.now) after_one after_other }
{
    let (one, other) = (one.as_str(), other.as_str());
    bytes_cmp(one.as_bytes(), other.as_bytes(), After::Quote, After::Quote)
}

/// A number against a tree that is one.
fn with_integer(value: u128, tree: &Tree, inner: bool, after: After, after_tree: After) -> Ordering
    requires { spec.sort_of inner tree.now ≡ Digit }
    ensures { Orders result (decimal value) (shown inner tree.now) after after_tree }
{
    match tree {
        Tree::Int(other) => numbers(value, *other, after, after_tree),
        Tree::App(..) => unreachable!(),
        Tree::Str(_) => unreachable!(),
        Tree::Hole(_) => unreachable!(),
    }
}

/// A word against a tree that is one.
fn with_word(word: &Token, tree: &Tree, inner: bool, after: After, after_tree: After) -> Ordering
    requires { spec.sort_of inner tree.now ≡ Word }
    ensures { Orders result (quoted word.now) (shown inner tree.now) after after_tree }
{
    match tree {
        Tree::Str(other) => words(word, other, after, after_tree),
        Tree::App(..) => unreachable!(),
        Tree::Int(_) => unreachable!(),
        Tree::Hole(_) => unreachable!(),
    }
}

/// A hole against a tree that is one.
fn with_hole(number: u32, tree: &Tree, inner: bool, after: After, after_tree: After) -> Ordering
    requires { spec.sort_of inner tree.now ≡ Mark }
    ensures { Orders result (63 ∷ decimal number) (shown inner tree.now) after after_tree }
{
    match tree {
        Tree::Hole(other) => numbers(number as u128, *other as u128, after, after_tree),
        Tree::App(..) => unreachable!(),
        Tree::Int(_) => unreachable!(),
        Tree::Str(_) => unreachable!(),
    }
}

/// What follows before these arguments.
fn behind(rest: &[Tree], closed: bool) -> After
    ensures { result ≡ spec.behind rest.now closed }
{
    if !rest.is_empty() {
        return After::Space;
    }
    if closed { After::Close } else { After::End }
}

/// Arguments of which one list ended: what follows, against a space.
fn ended(one: usize, other: usize, closed: bool) -> Ordering
    ensures { result ≡ spec.ended one other closed }
{
    if one == other {
        return Ordering::Equal;
    }
    let shorter = if closed {
        Ordering::Greater
    } else {
        Ordering::Less
    };
    if one < other {
        shorter
    } else {
        shorter.reverse()
    }
}

/// Two arguments.
#[cycle(argument)]
fn argument(one: &Tree, other: &Tree, after_one: After, after_other: After) -> Ordering
    ensures { Orders result (shown true one.now) (shown true other.now) after_one after_other }
{
    let order = sort_of(one, true).order(sort_of(other, true));
    if order.is_ne() {
        return order;
    }
    match one {
        Tree::App(name, arguments) => {
            with_application(name, arguments.as_slice(), other, after_one, after_other)
        }
        Tree::Int(value) => with_integer(*value, other, true, after_one, after_other),
        Tree::Str(word) => with_word(word, other, true, after_one, after_other),
        Tree::Hole(number) => with_hole(*number, other, true, after_one, after_other),
    }
}

/// An application as an argument against a tree of the same sort.
#[cycle(argument)]
fn with_application(
    name: &Name,
    arguments: &[Tree],
    tree: &Tree,
    after: After,
    after_tree: After,
) -> Ordering
    requires { spec.sort_of true (form.App name.now arguments.now) ≡ spec.sort_of true tree.now }
    ensures { Orders result (shown true (form.App name.now arguments.now)) (shown true tree.now)
        after after_tree }
{
    match tree {
        Tree::App(other, others) => {
            if arguments.is_empty() {
                return names(name, other, after, after_tree);
            }
            applications(name, arguments, other, others.as_slice(), true)
        }
        Tree::Int(_) => unreachable!(),
        Tree::Str(_) => unreachable!(),
        Tree::Hole(_) => unreachable!(),
    }
}

/// Two applications, both in parentheses or both alone.
#[cycle(argument)]
fn applications(name: &Name, xs: &[Tree], other: &Name, ys: &[Tree], closed: bool) -> Ordering
    ensures { Orders result (name.now ++ as_arguments (map printed xs.now)) (other.now ++ as_arguments (map printed ys.now))
        (after_of closed) (after_of closed) }
{
    let order = names(name, other, behind(xs, closed), behind(ys, closed));
    if order.is_ne() {
        return order;
    }
    arguments(xs, ys, closed)
}

#[cycle(argument)]
fn arguments(xs: &[Tree], ys: &[Tree], closed: bool) -> Ordering
    ensures { Orders result (as_arguments (map printed xs.now)) (as_arguments (map printed ys.now))
        (after_of closed) (after_of closed) }
{
    let shorter = xs.len().min(ys.len());
    'each: for i in 0..shorter {
        let after_one = behind(&xs[i + 1..], closed);
        let after_other = behind(&ys[i + 1..], closed);
        let order = argument(&xs[i], &ys[i], after_one, after_other);
        if order.is_ne() {
            return order;
        }
    }
    ended(xs.len(), ys.len(), closed)
}

/// Two trees that are no arguments, where one is no application.
fn alone(one: &Tree, other: &Tree) -> Ordering
    ensures { Orders result (shown false one.now) (shown false other.now) End End }
{
    let order = sort_of(one, false).order(sort_of(other, false));
    if order.is_ne() {
        return order;
    }
    match one {
        Tree::App(name, arguments) => with_application_alone(name, arguments.as_slice(), other),
        Tree::Int(value) => with_integer(*value, other, false, After::End, After::End),
        Tree::Str(word) => with_word(word, other, false, After::End, After::End),
        Tree::Hole(number) => with_hole(*number, other, false, After::End, After::End),
    }
}

fn with_application_alone(name: &Name, arguments: &[Tree], tree: &Tree) -> Ordering
    requires { spec.sort_of false (form.App name.now arguments.now) ≡ spec.sort_of false tree.now }
    ensures { Orders result (shown false (form.App name.now arguments.now)) (shown false tree.now)
        End End }
{
    match tree {
        Tree::App(other, others) => {
            applications(name, arguments, other, others.as_slice(), false)
        }
        Tree::Int(_) => unreachable!(),
        Tree::Str(_) => unreachable!(),
        Tree::Hole(_) => unreachable!(),
    }
}

/// The order of two trees is that of their texts, byte by byte. It takes no memory but stack, which
/// grows with the trees' depth; nothing is printed.
pub fn cmp_text(a: &Tree, b: &Tree) -> Ordering
    ensures { result ≡ text_cmp (text_of a.now) (text_of b.now) }
{
    alone(a, b)
}
