//! The refusals of a slice.
use crate::profile::{first_outside, first_too_deep};
use crate::spelling::spelling;
use gft_core::{NoMemory, Place, Text};
use gft_rules::{Refusal, Rule, Stop};
use gft_syntax::SourceToken;
use sqlite_items::Items;
use std::alloc::Global;

/// The refusal with one name.
fn named(alloc: Global, rule: Rule, place: Place, name: Text) -> Result<Refusal, NoMemory> {
    let mut names = Items::new(alloc);
    names.push(name)?;
    Ok(Refusal {
        rule,
        place: Some(place),
        names,
    })
}

/// The slice begins with the token, and is not in the grammar.
fn syntax(alloc: Global, first: &SourceToken) -> Result<Refusal, NoMemory> {
    let spelling = spelling(alloc, &first.form)?;
    named(alloc, Rule::Syntax, first.place, spelling)
}

/// A construct that is out of the profile.
fn outside(alloc: Global, word: &str, place: Place) -> Result<Refusal, NoMemory> {
    let word = Text::from_str(alloc, word)?;
    named(alloc, Rule::OutOfProfile, place, word)
}

/// A `-` where a pattern may stand. No word that is out of the profile comes before it, since none
/// goes on with a form.
pub(crate) fn negated_pattern(alloc: Global, place: Place) -> Result<Refusal, NoMemory> {
    outside(alloc, "negated pattern", place)
}

/// A bracket or a term that is too deep.
pub(crate) fn too_deep(alloc: Global, place: Place) -> Refusal {
    Refusal {
        rule: Rule::TooDeep,
        place: Some(place),
        names: Items::new(alloc),
    }
}

/// The rule that a slice breaks whatever it is: a word out of the profile, or brackets too deep.
pub(crate) fn broken_anyway(
    alloc: Global,
    tokens: &[SourceToken],
    from: u32,
    to: u32,
) -> Result<(), Stop> {
    if let Some((word, place)) = first_outside(tokens, from, to) {
        return Err(Stop::Refused(outside(alloc, word, place)?));
    }
    if let Some(place) = first_too_deep(tokens, from, to) {
        return Err(Stop::Refused(too_deep(alloc, place)));
    }
    Ok(())
}

/// The number of a token, of which there are fewer than 2^32.
pub(crate) fn token_number(at: usize) -> Result<u32, NoMemory> {
    match u32::try_from(at) {
        Ok(at) => Ok(at),
        Err(_) => Err(NoMemory),
    }
}

/// The refusal, or why there is none.
fn stop_of(refusal: Result<Refusal, NoMemory>) -> Stop {
    match refusal {
        Ok(refusal) => Stop::Refused(refusal),
        Err(NoMemory) => Stop::NoMemory,
    }
}

/// The refusal of the slice from one token up to another, which is not in the grammar: its first
/// word that is out of the profile, else the first bracket too many that is open at once, else its
/// syntax at its first token, where an empty slice has the token after it. One walk over the slice,
/// or two.
pub fn underivable(
    alloc: Global,
    tokens: &Vec<SourceToken>,
    from: usize,
    to: usize,
    first: &SourceToken,
) -> Stop {
    let (Ok(from), Ok(to)) = (token_number(from), token_number(to)) else {
        return Stop::NoMemory;
    };
    match broken_anyway(alloc, tokens.as_slice(), from, to) {
        Err(stop) => stop,
        Ok(()) => stop_of(syntax(alloc, first)),
    }
}
