//! Equality of trees and types, with arguments standing for their variables. Nothing is built.
use gft_core::{Token, Tree};
use gft_pmcfg::AType;

/// What stands for variable k, from 1. None where there are fewer arguments.
pub fn standing(arguments: &[Tree], k: u32) -> Option<&Tree> {
    match k.checked_sub(1) {
        Some(at) => arguments.get(at as usize),
        None => None,
    }
}

fn is_integer(tree: &Tree, value: u128) -> bool {
    match tree {
        Tree::Int(other) => *other == value,
        _ => false,
    }
}

fn is_word(tree: &Tree, word: &Token) -> bool {
    match tree {
        Tree::Str(other) => other.as_str() == word.as_str(),
        _ => false,
    }
}

fn is_variable(tree: &Tree, k: u32) -> bool {
    match tree {
        Tree::Hole(other) => *other == k,
        _ => false,
    }
}

/// Whether two trees are equal.
#[cycle(same)]
pub fn same(a: &Tree, b: &Tree) -> bool {
    match a {
        Tree::App(f, xs) => match b {
            Tree::App(g, ys) => {
                f.as_str() == g.as_str() && all_same(xs.as_slice(), ys.as_slice())
            }
            _ => false,
        },
        Tree::Int(value) => is_integer(b, *value),
        Tree::Str(word) => is_word(b, word),
        Tree::Hole(k) => is_variable(b, *k),
    }
}

#[cycle(same)]
fn all_same(xs: &[Tree], ys: &[Tree]) -> bool {
    if xs.len() != ys.len() {
        return false;
    }
    'each: for i in 0..xs.len() {
        if !same(&xs[i], &ys[i]) {
            return false;
        }
    }
    true
}

/// Whether a tree with its variables replaced is the other tree.
#[cycle(becomes)]
fn becomes(a: &Tree, arguments: &[Tree], b: &Tree) -> bool {
    match a {
        Tree::App(f, xs) => match b {
            Tree::App(g, ys) => {
                f.as_str() == g.as_str() && all_become(xs.as_slice(), arguments, ys.as_slice())
            }
            _ => false,
        },
        Tree::Int(value) => is_integer(b, *value),
        Tree::Str(word) => is_word(b, word),
        Tree::Hole(k) => match standing(arguments, *k) {
            Some(argument) => same(argument, b),
            None => is_variable(b, *k),
        },
    }
}

#[cycle(becomes)]
fn all_become(xs: &[Tree], arguments: &[Tree], ys: &[Tree]) -> bool {
    if xs.len() != ys.len() {
        return false;
    }
    'each: for i in 0..xs.len() {
        if !becomes(&xs[i], arguments, &ys[i]) {
            return false;
        }
    }
    true
}

/// Whether two trees are equal once the variables of each are replaced by arguments of its own.
#[cycle(meets)]
fn meets(a: &Tree, of_a: &[Tree], b: &Tree, of_b: &[Tree]) -> bool {
    match a {
        Tree::App(f, xs) => match b {
            Tree::App(g, ys) => {
                f.as_str() == g.as_str() && all_meet(xs.as_slice(), of_a, ys.as_slice(), of_b)
            }
            Tree::Int(_) => false,
            Tree::Str(_) => false,
            Tree::Hole(k) => match standing(of_b, *k) {
                Some(argument) => becomes(a, of_a, argument),
                None => false,
            },
        },
        Tree::Int(_) => becomes(b, of_b, a),
        Tree::Str(_) => becomes(b, of_b, a),
        Tree::Hole(k) => match standing(of_a, *k) {
            Some(argument) => becomes(b, of_b, argument),
            None => becomes(b, of_b, a),
        },
    }
}

#[cycle(meets)]
fn all_meet(xs: &[Tree], of_x: &[Tree], ys: &[Tree], of_y: &[Tree]) -> bool {
    if xs.len() != ys.len() {
        return false;
    }
    'each: for i in 0..xs.len() {
        if !meets(&xs[i], of_x, &ys[i], of_y) {
            return false;
        }
    }
    true
}

/// The type that a tree has by its head.
#[derive(Clone, Copy)]
pub enum Told<'a> {
    /// It is not known.
    Nothing,
    /// The category of literals.
    Literal(u32),
    /// This type.
    Plain(&'a AType),
    /// This type, with its variables replaced by the arguments.
    Applied(&'a AType, &'a [Tree]),
}

/// Whether a type with its variables replaced is what is told of a tree; so it is where nothing is
/// told.
pub fn fits(wanted: &AType, arguments: &[Tree], told: Told<'_>) -> bool {
    match told {
        Told::Nothing => true,
        Told::Literal(cat) => wanted.cat == cat && wanted.args.is_empty(),
        Told::Plain(found) => {
            wanted.cat == found.cat
                && all_become(wanted.args.as_slice(), arguments, found.args.as_slice())
        }
        Told::Applied(found, others) => {
            wanted.cat == found.cat
                && all_meet(
                    wanted.args.as_slice(),
                    arguments,
                    found.args.as_slice(),
                    others,
                )
        }
    }
}
