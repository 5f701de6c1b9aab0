//! Whether two abstract syntaxes are equal. Nothing is built.
use gft_core::Tree;
use gft_pmcfg::{AType, Abstract, Cat, Fun};

fn is_integer(tree: &Tree, value: u128) -> bool {
    match tree {
        Tree::Int(other) => *other == value,
        _ => false,
    }
}

fn is_word(tree: &Tree, word: &str) -> bool {
    match tree {
        Tree::Str(other) => other.as_str() == word,
        _ => false,
    }
}

fn is_variable(tree: &Tree, k: u32) -> bool {
    match tree {
        Tree::Hole(other) => *other == k,
        _ => false,
    }
}

/// Whether two indices are equal.
#[cycle(same)]
fn is_same_tree(a: &Tree, b: &Tree) -> bool {
    match a {
        Tree::App(f, xs) => match b {
            Tree::App(g, ys) => {
                f.as_str() == g.as_str() && are_same_trees(xs.as_slice(), ys.as_slice())
            }
            _ => false,
        },
        Tree::Int(value) => is_integer(b, *value),
        Tree::Str(word) => is_word(b, word.as_str()),
        Tree::Hole(k) => is_variable(b, *k),
    }
}

#[cycle(same)]
fn are_same_trees(xs: &[Tree], ys: &[Tree]) -> bool {
    if xs.len() != ys.len() {
        return false;
    }
    'each: for i in 0..xs.len() {
        if !is_same_tree(&xs[i], &ys[i]) {
            return false;
        }
    }
    true
}

fn is_same_type(a: &AType, b: &AType) -> bool {
    a.cat == b.cat && are_same_trees(a.args.as_slice(), b.args.as_slice())
}

fn are_same_types(a: &[AType], b: &[AType]) -> bool {
    if a.len() != b.len() {
        return false;
    }
    'each: for i in 0..a.len() {
        if !is_same_type(&a[i], &b[i]) {
            return false;
        }
    }
    true
}

fn is_same_category(a: &Cat, b: &Cat) -> bool {
    a.name.as_str() == b.name.as_str() && are_same_types(a.context.as_slice(), b.context.as_slice())
}

fn is_same_function(a: &Fun, b: &Fun) -> bool {
    a.name.as_str() == b.name.as_str()
        && is_same_type(&a.result, &b.result)
        && are_same_types(a.args.as_slice(), b.args.as_slice())
}

fn are_same_categories(a: &[Cat], b: &[Cat]) -> bool {
    if a.len() != b.len() {
        return false;
    }
    'each: for i in 0..a.len() {
        if !is_same_category(&a[i], &b[i]) {
            return false;
        }
    }
    true
}

fn are_same_functions(a: &[Fun], b: &[Fun]) -> bool {
    if a.len() != b.len() {
        return false;
    }
    'each: for i in 0..a.len() {
        if !is_same_function(&a[i], &b[i]) {
            return false;
        }
    }
    true
}

/// Whether two abstract syntaxes have one name, one start category, and equal categories and
/// functions. Names of variables do not count, as there are none. It takes no memory.
pub fn is_same_abstract(a: &Abstract, b: &Abstract) -> bool {
    a.name.as_str() == b.name.as_str()
        && a.start == b.start
        && are_same_categories(a.cats.as_slice(), b.cats.as_slice())
        && are_same_functions(a.funs.as_slice(), b.funs.as_slice())
}
