//! What the variables of a string pattern have where it matches a text.
use crate::matching::Matcher;
use crate::measure::variables;
use gft_core::{Name, NoMemory, Text};
use gft_syntax::Pattern;
use std::alloc::Global;

/// The part of a text that a variable has: from which character to which.
#[derive(Clone, Copy, Debug, PartialEq, Eq)]
pub struct Span {
    pub from: usize,
    pub to: usize,
}

/// What the variables of the pattern have, in the order in which they first stand in it, where it
/// matches the whole text, each left part as short as it can be. None where it does not match.
/// Where at most one side of each sequence has texts of different lengths, the time is that of one
/// walk over both.
pub fn match_spans(
    alloc: Global,
    pattern: &Pattern,
    text: &[char],
) -> Result<Option<Vec<Span>>, NoMemory> {
    let mut matcher = Matcher::new(alloc, text);
    if !matcher.matches(pattern, 0, text.len())? {
        return Ok(None);
    }
    Ok(Some(matcher.into_found()))
}

/// The characters of a text.
fn characters(alloc: Global, text: &str) -> Result<Vec<char>, NoMemory> {
    let mut all = Vec::new(alloc);
    for c in text.chars() {
        all.push(c)?;
    }
    Ok(all)
}

/// The text from one character to another.
fn part_of(alloc: Global, text: &[char], span: Span) -> Result<Text, NoMemory> {
    let mut part = String::new(alloc);
    if let Some(characters) = text.get(span.from..span.to) {
        for c in characters {
            part.push(*c)?;
        }
    }
    Text::from_str(alloc, part.as_str())
}

/// Each variable with its part of the text.
fn named(
    alloc: Global,
    names: &[&Name],
    text: &[char],
    spans: &[Span],
) -> Result<Vec<(Name, Text)>, NoMemory> {
    let mut all = Vec::new(alloc);
    for (name, span) in names.iter().zip(spans) {
        let part = part_of(alloc, text, *span)?;
        all.push((name.copy(alloc)?, part))?;
    }
    Ok(all)
}

/// The variables of a string pattern with what they have where it matches the whole text, each left
/// part as short as it can be. None where it does not match.
pub fn match_str(
    alloc: Global,
    p: &Pattern,
    text: &str,
) -> Result<Option<Vec<(Name, Text)>>, NoMemory> {
    let characters = characters(alloc, text)?;
    let Some(spans) = match_spans(alloc, p, characters.as_slice())? else {
        return Ok(None);
    };
    let mut names = Vec::new(alloc);
    variables(p, &mut names)?;
    let all = named(
        alloc,
        names.as_slice(),
        characters.as_slice(),
        spans.as_slice(),
    )?;
    Ok(Some(all))
}
