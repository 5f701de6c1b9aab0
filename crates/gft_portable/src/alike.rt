//! Productions that could become one: of a function, with the same result and sequences.
use crate::productions::{Language, Production};
use crate::rows::of_function;
use gft_core::NoMemory;
use std::alloc::Global;

/// What a production has besides its arguments, and its place. Only productions that are alike in
/// their function, result and sequences can become one.
#[derive(PartialEq, Eq, PartialOrd, Ord, Drop)]
struct Kind {
    result: u32,
    seqs: Vec<u32>,
    place: usize,
}

fn numbers_of(alloc: Global, language: &Language, one: Production) -> Result<Vec<u32>, NoMemory> {
    let mut seqs = Vec::new(alloc);
    seqs.extend_from_slice(language.sequence_numbers(one))?;
    Ok(seqs)
}

/// The kinds of productions of one function, the first of which stands at a place; in order.
fn kinds(
    alloc: Global,
    language: &Language,
    of: &[Production],
    from: usize,
) -> Result<Vec<Kind>, NoMemory> {
    let mut kinds = Vec::new(alloc);
    let mut place = from;
    for one in of {
        kinds.push(Kind {
            result: one.result,
            seqs: numbers_of(alloc, language, *one)?,
            place,
        })?;
        place = place.saturating_add(1);
    }
    kinds.sort()?;
    Ok(kinds)
}

fn is_alike(one: Option<&Kind>, other: &Kind) -> bool {
    match one {
        None => false,
        Some(one) => one.result == other.result && one.seqs == other.seqs,
    }
}

/// Adds the places of the productions of one function that are alike, the first production of the
/// function standing at a place.
fn add_alike(
    alloc: Global,
    language: &Language,
    of: &[Production],
    from: usize,
    alike: &mut Vec<usize>,
) -> Result<(), NoMemory> {
    let kinds = kinds(alloc, language, of, from)?;
    let kinds = kinds.as_slice();
    let mut before = None;
    for number in 0..kinds.len() {
        let kind = &kinds[number];
        if is_alike(before, kind) || is_alike(kinds.get(number.saturating_add(1)), kind) {
            alike.push(kind.place)?;
        }
        before = Some(kind);
    }
    Ok(())
}

/// Whether productions of a function may be alike: it has several, and they have arguments.
fn may_be_alike(language: &Language, of: &[Production]) -> bool {
    match of.first() {
        None => false,
        Some(first) => of.len() > 1 && !language.arguments(*first).is_empty(),
    }
}

fn productions_at(
    alloc: Global,
    all: &[Production],
    places: &[usize],
) -> Result<Vec<Production>, NoMemory> {
    let mut prods = Vec::new(alloc);
    for place in places {
        if let Some(one) = all.get(*place) {
            prods.push(*one)?;
        }
    }
    Ok(prods)
}

/// The productions that are like another one, in the order of the file.
pub fn alike(alloc: Global, language: &Language) -> Result<Vec<Production>, NoMemory> {
    let all = language.prods.as_slice();
    let mut places = Vec::new(alloc);
    let mut from = 0usize;
    for _ in 0..all.len() {
        let of = of_function(all, from);
        if of.is_empty() {
            break;
        }
        if may_be_alike(language, of) {
            add_alike(alloc, language, of, from, &mut places)?;
        }
        from = from.saturating_add(of.len());
    }
    places.sort_unstable();
    productions_at(alloc, all, places.as_slice())
}
