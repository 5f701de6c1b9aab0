//! The distinct values of a tree: those of its subtrees first.
use crate::language::{Found, Language};
use crate::value::{Value, distinct, headed, put};
use gft_core::{Name, NoMemory, Token, Tree};
use gft_pmcfg::AType;
use gft_tree::print;
use std::alloc::Global;

/// The one value of a literal.
fn literal(alloc: Global, nonterminal: u32, text: String) -> Result<Vec<Value>, NoMemory> {
    let mut all = Vec::new(alloc);
    all.push(Value::of_text(alloc, nonterminal, text)?)?;
    Ok(all)
}

fn number_text(alloc: Global, value: u128) -> Result<String, NoMemory> {
    let mut text = String::new(alloc);
    write!(text, "{value}")?;
    Ok(text)
}

fn hole_text(alloc: Global, number: u32) -> Result<String, NoMemory> {
    let mut text = String::new(alloc);
    write!(text, "?{number}")?;
    Ok(text)
}

/// The value of a literal of the category, written so in a tree.
fn word(
    alloc: Global,
    language: &Language<'_>,
    cat: u32,
    head: &str,
    text: String,
) -> Result<Vec<Value>, NoMemory> {
    literal(
        alloc,
        cat,
        headed(alloc, language.is_bracketed, head, text)?,
    )
}

fn integer(alloc: Global, language: &Language<'_>, value: u128) -> Result<Vec<Value>, NoMemory> {
    let head = number_text(alloc, value)?;
    word(
        alloc,
        language,
        0,
        head.as_str(),
        number_text(alloc, value)?,
    )
}

fn string(alloc: Global, language: &Language<'_>, token: &Token) -> Result<Vec<Value>, NoMemory> {
    let text = String::from_str(alloc, token.as_str())?;
    if !language.is_bracketed {
        return literal(alloc, 1, text);
    }
    let head = print(alloc, &Tree::Str(token.copy(alloc)?))?;
    word(alloc, language, 1, head.as_str(), text)
}

/// The value that a result gives where the arguments have the picked ones of these values; `head`
/// is that of the tree.
fn value_of(
    alloc: Global,
    language: &Language<'_>,
    head: &str,
    found: Found<'_>,
    kids: &[Vec<Value>],
    picks: &[usize],
) -> Result<Value, NoMemory> {
    let mut components = Vec::new(alloc);
    for seq in found.seqs {
        let text = put(alloc, seq.get().as_slice(), kids, picks)?;
        components.push(headed(alloc, language.is_bracketed, head, text)?)?;
    }
    Ok(Value {
        nonterminal: found.result,
        components,
    })
}

/// The values of a hole of the category.
fn hole(
    alloc: Global,
    language: &Language<'_>,
    cat: u32,
    number: u32,
) -> Result<Vec<Value>, NoMemory> {
    let head = hole_text(alloc, number)?;
    let text = hole_text(alloc, number)?;
    if cat < 2 {
        return word(alloc, language, cat, head.as_str(), text);
    }
    let mut kids = Vec::new(alloc);
    kids.push(literal(alloc, cat, text)?)?;
    let mut all = Vec::new(alloc);
    for found in language.defs(alloc, cat)?.as_slice() {
        all.push(value_of(
            alloc,
            language,
            head.as_str(),
            *found,
            kids.as_slice(),
            &[0],
        )?)?;
    }
    distinct(all)
}

/// How many choices of a value for each argument there are.
fn choices(kids: &[Vec<Value>]) -> u64 {
    let mut count = 1u64;
    for kid in kids {
        count = count.saturating_mul(kid.len() as u64);
    }
    count
}

/// The choice of this number: for each argument the place of one of its values.
fn picks_of(alloc: Global, kids: &[Vec<Value>], number: u64) -> Result<Vec<usize>, NoMemory> {
    let mut picks = Vec::new(alloc);
    let mut left = number;
    for kid in kids {
        let count = kid.len() as u64;
        if count == 0 {
            return Ok(picks); // there is then no choice
        }
        picks.push((left % count) as usize)?;
        left /= count;
    }
    Ok(picks)
}

/// The nonterminals of the picked values.
fn nonterminals(alloc: Global, kids: &[Vec<Value>], picks: &[usize]) -> Result<Vec<u32>, NoMemory> {
    let mut all = Vec::new(alloc);
    for (kid, pick) in kids.iter().zip(picks) {
        match kid.get(*pick) {
            None => {} // a pick is the place of a value
            Some(value) => all.push(value.nonterminal)?,
        }
    }
    Ok(all)
}

/// Adds the values of a function, by its name and number, whose arguments have the picked ones of
/// these values.
fn add_results(
    alloc: Global,
    language: &Language<'_>,
    head: &str,
    fun: u32,
    kids: &[Vec<Value>],
    picks: &[usize],
    all: &mut Vec<Value>,
) -> Result<(), NoMemory> {
    let args = nonterminals(alloc, kids, picks)?;
    for found in language.results(alloc, fun, args.as_slice())?.as_slice() {
        all.push(value_of(alloc, language, head, *found, kids, picks)?)?;
    }
    Ok(())
}

/// The values of a function whose arguments have each one of these.
fn applied(
    alloc: Global,
    language: &Language<'_>,
    head: &str,
    fun: u32,
    kids: &[Vec<Value>],
) -> Result<Vec<Value>, NoMemory> {
    let mut all = Vec::new(alloc);
    for number in 0..choices(kids) {
        let picks = picks_of(alloc, kids, number)?;
        add_results(alloc, language, head, fun, kids, picks.as_slice(), &mut all)?;
    }
    distinct(all)
}

/// The values of each argument.
#[cycle(values)]
fn values_of_all(
    alloc: Global,
    language: &Language<'_>,
    types: &[AType],
    trees: &[Tree],
) -> Result<Vec<Vec<Value>>, NoMemory> {
    let mut all = Vec::new(alloc);
    let mut place = 0usize;
    'each: for tree in trees {
        match types.get(place) {
            None => {} // a tree has a skeleton type
            Some(atype) => all.push(values(alloc, language, atype.cat, tree)?)?,
        }
        place = place.saturating_add(1);
    }
    Ok(all)
}

#[cycle(values)]
fn values_of_application(
    alloc: Global,
    language: &Language<'_>,
    name: &Name,
    trees: &[Tree],
) -> Result<Vec<Value>, NoMemory> {
    match language.function(name) {
        None => Ok(Vec::new(alloc)), // a tree has a skeleton type
        Some((fun, signature)) => {
            let kids = values_of_all(alloc, language, signature.args.as_slice(), trees)?;
            applied(alloc, language, name.as_str(), fun, kids.as_slice())
        }
    }
}

/// The distinct values of a tree, in order; `cat` is its category. The stack that it takes grows
/// with the tree's depth.
#[cycle(values)]
pub fn values(
    alloc: Global,
    language: &Language<'_>,
    cat: u32,
    tree: &Tree,
) -> Result<Vec<Value>, NoMemory> {
    match tree {
        Tree::Int(value) => integer(alloc, language, *value),
        Tree::Str(token) => string(alloc, language, token),
        Tree::Hole(number) => hole(alloc, language, cat, *number),
        Tree::App(name, trees) => { values_of_application(alloc, language, name, trees.as_slice()) }
    }
}
