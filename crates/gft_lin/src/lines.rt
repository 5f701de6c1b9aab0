//! The strings and the cells of a tree, from the texts of its values.
use crate::index::Index;
use crate::language::Language;
use crate::parts::strings_of_parts;
use crate::value::{Value, put};
use crate::walk::values;
use gft_core::{NoMemory, Text, Token, Tree, words};
use gft_pmcfg::Coerced;
use std::alloc::Global;

/// Adds the one component of each value of a literal's category.
fn add_components(alloc: Global, value: &Value, all: &mut Vec<String>) -> Result<(), NoMemory> {
    for text in value.components.as_slice() {
        all.push(String::from_str(alloc, text.as_str())?)?;
    }
    Ok(())
}

/// Adds the texts of the strings of the value at this place.
fn add_texts(
    alloc: Global,
    language: &Language<'_>,
    found: &[Vec<Value>],
    value: &Value,
    place: usize,
    all: &mut Vec<String>,
) -> Result<(), NoMemory> {
    if value.nonterminal < 2 {
        return add_components(alloc, value, all);
    }
    for seq in language.refs(alloc, value.nonterminal)?.as_slice() {
        all.push(put(alloc, seq, found, &[place])?)?;
    }
    Ok(())
}

/// The texts of the strings of the values, each once and in order.
fn texts(
    alloc: Global,
    language: &Language<'_>,
    found: &[Vec<Value>],
) -> Result<Vec<String>, NoMemory> {
    let mut all = Vec::new(alloc);
    for values in found {
        let mut place = 0usize;
        for value in values.as_slice() {
            add_texts(alloc, language, found, value, place, &mut all)?;
            place = place.saturating_add(1);
        }
    }
    distinct(all)
}

/// Each text once, in order.
fn distinct(mut all: Vec<String>) -> Result<Vec<String>, NoMemory> {
    if all.len() > 1 {
        all.sort()?;
        all.dedup();
    }
    Ok(all)
}

fn as_texts(alloc: Global, all: &[String]) -> Result<Vec<Text>, NoMemory> {
    let mut answer = Vec::new(alloc);
    for text in all {
        answer.push(Text::from_str(alloc, text.as_str())?)?;
    }
    Ok(answer)
}

/// The distinct texts of the strings of a tree, in byte order.
pub fn texts_of(
    alloc: Global,
    language: &Language<'_>,
    cat: u32,
    tree: &Tree,
) -> Result<Vec<Text>, NoMemory> {
    let mut found = Vec::new(alloc);
    found.push(values(alloc, language, cat, tree)?)?;
    as_texts(alloc, texts(alloc, language, found.as_slice())?.as_slice())
}

/// The distinct texts of the strings of the tree with these functions, in byte order. None where
/// some part has no production or several.
pub fn texts_of_parts(
    alloc: Global,
    c: &Coerced,
    index: &Index,
    functions: &[u32],
) -> Result<Option<Vec<Text>>, NoMemory> {
    match strings_of_parts(alloc, c, index, functions)? {
        None => Ok(None),
        Some(all) => Ok(Some(as_texts(alloc, distinct(all)?.as_slice())?)),
    }
}

/// The distinct strings of a tree, in byte order of their texts.
pub fn lines(
    alloc: Global,
    language: &Language<'_>,
    cat: u32,
    tree: &Tree,
) -> Result<Vec<Vec<Token>>, NoMemory> {
    let mut found = Vec::new(alloc);
    found.push(values(alloc, language, cat, tree)?)?;
    let mut answer = Vec::new(alloc);
    for text in texts(alloc, language, found.as_slice())?.as_slice() {
        answer.push(words(alloc, text.as_str())?)?;
    }
    Ok(answer)
}

fn cells_of_value(alloc: Global, value: &Value) -> Result<Vec<Vec<Token>>, NoMemory> {
    let mut cells = Vec::new(alloc);
    for text in value.components.as_slice() {
        cells.push(words(alloc, text.as_str())?)?;
    }
    Ok(cells)
}

/// The cells of each distinct value of a tree, by case and then by the texts of the cells.
pub fn cells(
    alloc: Global,
    language: &Language<'_>,
    cat: u32,
    tree: &Tree,
) -> Result<Vec<Vec<Vec<Token>>>, NoMemory> {
    let mut answer = Vec::new(alloc);
    for value in values(alloc, language, cat, tree)?.as_slice() {
        answer.push(cells_of_value(alloc, value)?)?;
    }
    Ok(answer)
}
