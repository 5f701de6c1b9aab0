//! Values of trees: a nonterminal with the texts of its components.
use gft_core::{NoMemory, Sym};
use std::alloc::Global;

/// A nonterminal with its components, each the text of its words. Values are in order by their case
/// and then by the texts.
#[derive(PartialEq, Eq, PartialOrd, Ord, Drop)]
pub struct Value {
    pub nonterminal: u32,
    pub components: Vec<String>,
}

/// Appends a text, after a space where both are not empty.
pub fn append(text: &mut String, more: &str) -> Result<(), NoMemory> {
    if more.is_empty() {
        return Ok(());
    }
    if !text.is_empty() {
        text.push(' ')?;
    }
    text.push_str(more)?;
    Ok(())
}

/// The text of a component of an argument; `picks` has the place of each argument's value.
fn component<'a>(kids: &'a [Vec<Value>], picks: &[usize], argument: u32, number: u32) -> &'a str {
    match (kids.get(argument as usize), picks.get(argument as usize)) {
        (Some(kid), Some(pick)) => match kid.get(*pick) {
            Some(value) => match value.components.get(number as usize) {
                Some(text) => text.as_str(),
                None => "", // excluded by the ranges of a grammar
            },
            None => "", // a pick is the place of a value
        },
        _ => "", // excluded by the ranges of a grammar
    }
}

/// The text that a sequence gives where the arguments have the picked ones of these values.
pub fn put(
    alloc: Global,
    seq: &[Sym],
    kids: &[Vec<Value>],
    picks: &[usize],
) -> Result<String, NoMemory> {
    let mut text = String::new(alloc);
    for symbol in seq {
        match symbol {
            Sym::Tok(token) => append(&mut text, token.as_str())?,
            Sym::Arg(argument, number) => {
                append(&mut text, component(kids, picks, *argument, *number))?;
            }
        }
    }
    Ok(text)
}

/// The text in brackets: a bracket, the head of the part of the tree that it is of, the text, a
/// bracket.
fn in_brackets(alloc: Global, head: &str, text: &str) -> Result<String, NoMemory> {
    let mut whole = String::new(alloc);
    whole.push('(')?;
    whole.push_str(head)?;
    append(&mut whole, text)?;
    whole.push(')')?;
    Ok(whole)
}

/// The text of a part of a tree with this head, in brackets where these are asked for.
pub fn headed(
    alloc: Global,
    is_bracketed: bool,
    head: &str,
    text: String,
) -> Result<String, NoMemory> {
    if !is_bracketed {
        return Ok(text);
    }
    in_brackets(alloc, head, text.as_str())
}

impl Value {
    /// The value whose one component is this text.
    pub fn of_text(alloc: Global, nonterminal: u32, text: String) -> Result<Value, NoMemory> {
        let mut components = Vec::new(alloc);
        components.push(text)?;
        Ok(Value {
            nonterminal,
            components,
        })
    }
}

/// Each value once, in order.
pub fn distinct(mut all: Vec<Value>) -> Result<Vec<Value>, NoMemory> {
    if all.len() > 1 {
        all.sort()?;
        all.dedup();
    }
    Ok(all)
}
