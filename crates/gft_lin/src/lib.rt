//! The strings of a tree, by the productions of a concrete syntax.
#![tactic(auto)]

mod functions;
mod index;
mod language;
mod lines;
mod members;
mod parts;
mod value;
mod walk;

pub use functions::functions_of;
use gft_core::{NoMemory, Text, Token, Tree};
use gft_pmcfg::{Abstract, Coerced, Grammar};
pub use index::Index;
use language::Language;
use std::alloc::Global;

/// The distinct strings of a tree, in byte order of their texts. `cat` is the category of a tree
/// that is one hole. The time grows with the values of the subtrees, each of which is made once.
pub fn strings(
    alloc: Global,
    g: &Grammar,
    lang: u32,
    cat: u32,
    tree: &Tree,
) -> Result<Vec<Vec<Token>>, NoMemory> {
    match g.concretes.get(lang as usize) {
        None => Ok(Vec::new(alloc)), // a language is in range
        Some(c) => {
            let language = Language::plain(&g.abs, c);
            lines::lines(alloc, &language, cat, tree)
        }
    }
}

/// The string cells of each distinct value of a tree, in the order of the cases and then of the
/// texts of the cells. `cat` is the category of a tree that is one hole.
pub fn cells_of(
    alloc: Global,
    g: &Grammar,
    lang: u32,
    cat: u32,
    tree: &Tree,
) -> Result<Vec<Vec<Vec<Token>>>, NoMemory> {
    match g.concretes.get(lang as usize) {
        None => Ok(Vec::new(alloc)), // a language is in range
        Some(c) => {
            let language = Language::plain(&g.abs, c);
            lines::cells(alloc, &language, cat, tree)
        }
    }
}

/// What `strings` gives for the concrete syntax in which each production stands once for each
/// choice of members of its groups.
pub fn strings_of(
    alloc: Global,
    c: &Coerced,
    abs: &Abstract,
    cat: u32,
    tree: &Tree,
) -> Result<Vec<Vec<Token>>, NoMemory> {
    let language = Language::shared(abs, c);
    lines::lines(alloc, &language, cat, tree)
}

/// The distinct texts of the strings of a tree, in byte order: those of `strings_of`, each as one
/// text.
pub fn texts_of(
    alloc: Global,
    c: &Coerced,
    abs: &Abstract,
    cat: u32,
    tree: &Tree,
) -> Result<Vec<Text>, NoMemory> {
    let language = Language::shared(abs, c);
    lines::texts_of(alloc, &language, cat, tree)
}

/// What `texts_of` gives for the tree with these functions, each after those of its arguments, over
/// the index of the concrete syntax. None where some part has no production or several, so that
/// only `texts_of` says the tree. The time is that of the tree and of the words of the texts times
/// the depth.
pub fn texts_of_functions(
    alloc: Global,
    c: &Coerced,
    index: &Index,
    functions: &[u32],
) -> Result<Option<Vec<Text>>, NoMemory> {
    lines::texts_of_parts(alloc, c, index, functions)
}

/// The distinct texts of a tree with brackets that show which words are of which part of it, in
/// byte order. A bracket has the part's head (a function's name, a literal's text, or a hole), then
/// its words and inner brackets. `cat` is the category of a tree that is one hole.
pub fn bracketed(
    alloc: Global,
    g: &Grammar,
    lang: u32,
    cat: u32,
    tree: &Tree,
) -> Result<Vec<Text>, NoMemory> {
    match g.concretes.get(lang as usize) {
        None => Ok(Vec::new(alloc)), // a language is in range
        Some(c) => {
            let language = Language::plain(&g.abs, c).bracketed();
            lines::texts_of(alloc, &language, cat, tree)
        }
    }
}

/// What `bracketed` gives for the concrete syntax in which each production stands once for each
/// choice of members of its groups.
pub fn bracketed_of(
    alloc: Global,
    c: &Coerced,
    abs: &Abstract,
    cat: u32,
    tree: &Tree,
) -> Result<Vec<Text>, NoMemory> {
    let language = Language::shared(abs, c).bracketed();
    lines::texts_of(alloc, &language, cat, tree)
}
