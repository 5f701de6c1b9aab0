//! The texts of types, categories and functions.
use gft_core::{Name, NoMemory, Text, Tree};
use gft_pmcfg::{AType, Abstract, Cat, Fun};
use std::alloc::Global;

/// Adds a word in quotes, with a backslash before a quote and a backslash.
fn push_quoted(out: &mut String, word: &str) -> Result<(), NoMemory> {
    out.push('"')?;
    'characters: for c in word.chars() {
        if c == '"' || c == '\\' {
            out.push('\\')?;
        }
        out.push(c)?;
    }
    out.push('"')?;
    Ok(())
}

#[cycle(push)]
fn push_tree(out: &mut String, tree: &Tree) -> Result<(), NoMemory> {
    match tree {
        Tree::App(f, arguments) => {
            out.push_str(f.as_str())?;
            push_indices(out, arguments.as_slice())
        }
        Tree::Int(value) => {
            write!(out, "{}", *value)?;
            Ok(())
        }
        Tree::Str(word) => push_quoted(out, word.as_str()),
        Tree::Hole(k) => {
            write!(out, "x{}", *k)?;
            Ok(())
        }
    }
}

fn has_arguments(tree: &Tree) -> bool {
    match tree {
        Tree::App(_, arguments) => !arguments.is_empty(),
        _ => false,
    }
}

#[cycle(push)]
fn push_index(out: &mut String, tree: &Tree) -> Result<(), NoMemory> {
    if !has_arguments(tree) {
        return push_tree(out, tree);
    }
    out.push('(')?;
    push_tree(out, tree)?;
    out.push(')')?;
    Ok(())
}

/// Adds each index with a space before it.
#[cycle(push)]
pub fn push_indices(out: &mut String, trees: &[Tree]) -> Result<(), NoMemory> {
    'each: for tree in trees {
        out.push(' ')?;
        push_index(out, tree)?;
    }
    Ok(())
}

/// Adds a type.
fn push_type(out: &mut String, abs: &Abstract, t: &AType) -> Result<(), NoMemory> {
    if let Some(cat) = abs.cats.get(t.cat as usize) {
        out.push_str(cat.name.as_str())?;
    }
    push_indices(out, t.args.as_slice())
}

/// The text of a type: its category and its indices, in which `x1` is the first argument.
pub fn show_type(alloc: Global, abs: &Abstract, t: &AType) -> Result<Text, NoMemory> {
    let mut out = String::new(alloc);
    push_type(&mut out, abs, t)?;
    Text::from_str(alloc, out.as_str())
}

/// Adds `(xK : T)`.
fn push_named(out: &mut String, abs: &Abstract, k: usize, t: &AType) -> Result<(), NoMemory> {
    write!(out, "(x{} : ", k)?;
    push_type(out, abs, t)?;
    out.push(')')?;
    Ok(())
}

fn push_category(out: &mut String, abs: &Abstract, cat: &Cat) -> Result<(), NoMemory> {
    out.push_str("cat ")?;
    out.push_str(cat.name.as_str())?;
    let mut k = 0usize;
    'each: for t in cat.context.as_slice() {
        k = k.saturating_add(1);
        out.push(' ')?;
        push_named(out, abs, k, t)?;
    }
    Ok(())
}

/// The line of a category: `cat C (x1 : A) (x2 : B x1)`; the empty text where there is none of this
/// number.
pub fn show_category(alloc: Global, abs: &Abstract, cat: u32) -> Result<Text, NoMemory> {
    let mut out = String::new(alloc);
    if let Some(cat) = abs.cats.get(cat as usize) {
        push_category(&mut out, abs, cat)?;
    }
    Text::from_str(alloc, out.as_str())
}

/// Marks the variables of a tree.
#[cycle(mark)]
fn mark(used: &mut Vec<bool>, tree: &Tree) {
    match tree {
        Tree::App(_, arguments) => mark_all(used, arguments.as_slice()),
        Tree::Int(_) => {}
        Tree::Str(_) => {}
        Tree::Hole(k) => {
            if let Some(place) = used.get_mut(*k as usize) {
                *place = true;
            }
        }
    }
}

#[cycle(mark)]
fn mark_all(used: &mut Vec<bool>, trees: &[Tree]) {
    'each: for tree in trees {
        mark(used, tree);
    }
}

/// For each argument, from 1, whether a type uses it.
fn used_arguments(alloc: Global, fun: &Fun) -> Result<Vec<bool>, NoMemory> {
    let mut used = Vec::new(alloc);
    used.push(false)?;
    'flags: for _ in fun.args.as_slice() {
        used.push(false)?;
    }
    'types: for t in fun.args.as_slice() {
        mark_all(&mut used, t.args.as_slice());
    }
    mark_all(&mut used, fun.result.args.as_slice());
    Ok(used)
}

fn push_function(
    out: &mut String,
    abs: &Abstract,
    fun: &Fun,
    used: &Vec<bool>,
) -> Result<(), NoMemory> {
    out.push_str("fun ")?;
    out.push_str(fun.name.as_str())?;
    out.push_str(" : ")?;
    let mut k = 0usize;
    'each: for t in fun.args.as_slice() {
        k = k.saturating_add(1);
        if used.get(k).copied().unwrap_or(false) {
            push_named(out, abs, k, t)?;
        } else {
            push_type(out, abs, t)?;
        }
        out.push_str(" -> ")?;
    }
    push_type(out, abs, &fun.result)
}

/// The line of a function: `fun f : A -> (x2 : B) -> C x2`, an argument named exactly where a later
/// type uses it; the empty text where there is none of this number.
pub fn show_function(alloc: Global, abs: &Abstract, fun: u32) -> Result<Text, NoMemory> {
    let mut out = String::new(alloc);
    if let Some(fun) = abs.funs.get(fun as usize) {
        let used = used_arguments(alloc, fun)?;
        push_function(&mut out, abs, fun, &used)?;
    }
    Text::from_str(alloc, out.as_str())
}

/// The text of a category's name applied to indices.
pub fn show_applied(alloc: Global, name: &str, indices: &[Tree]) -> Result<Text, NoMemory> {
    let mut out = String::from_str(alloc, name)?;
    push_indices(&mut out, indices)?;
    Text::from_str(alloc, out.as_str())
}

/// The text of a name.
pub fn name_text(alloc: Global, name: &Name) -> Result<Text, NoMemory> {
    Text::from_str(alloc, name.as_str())
}
