//! The judgements of a body, slice by slice.
use crate::cut::Slices;
use gft_core::{NoMemory, Place, Shared, Text};
use gft_parse_term::{parse_judgement, unfinished};
use gft_rules::{Refusal, Rule, Stop};
use gft_syntax::{Judgement, Keyword, SourceToken};
use sqlite_items::Items;
use std::alloc::Global;

/// The keyword of the judgement.
fn keyword_of(judgement: &Judgement) -> Keyword {
    match judgement {
        Judgement::Cat(_, _) => Keyword::Cat,
        Judgement::ListCat(_, _, _, _) => Keyword::Cat,
        Judgement::Fun(_, _) => Keyword::Fun,
        Judgement::Flag(_, _) => Keyword::Flags,
        Judgement::Lincat(_, _) => Keyword::Lincat,
        Judgement::Lin(_, _, _) => Keyword::Lin,
        Judgement::Lindef(_, _, _) => Keyword::Lindef,
        Judgement::Linref(_, _, _) => Keyword::Linref,
        Judgement::ParamName(_) => Keyword::Param,
        Judgement::Param(_, _) => Keyword::Param,
        Judgement::OperType(_, _) => Keyword::Oper,
        Judgement::OperTyped(_, _, _) => Keyword::Oper,
        Judgement::Oper(_, _, _) => Keyword::Oper,
    }
}

/// Adds the judgement of a slice, if it is not empty, and gives the keyword of the next slice.
fn add(
    alloc: Global,
    tokens: &Vec<SourceToken>,
    judgements: &mut Items<Shared<Judgement>>,
    from: usize,
    to: usize,
    before: Option<Keyword>,
) -> Result<Option<Keyword>, Stop> {
    if from >= to || to > tokens.len() {
        return Ok(before);
    }
    let judgement = parse_judgement(alloc, tokens, from, to, before)?;
    let keyword = keyword_of(&judgement);
    judgements.push(Shared::new(alloc, judgement)?)?;
    Ok(Some(keyword))
}

/// The file ends where the place is, before it may.
pub(crate) fn ends_early(alloc: Global, place: Place) -> Result<Refusal, NoMemory> {
    let mut names = Items::new(alloc);
    names.push(Text::from_str(alloc, "end")?)?;
    Ok(Refusal {
        rule: Rule::Syntax,
        place: Some(place),
        names,
    })
}

/// The refusal of the last slice of a body that is not closed.
fn unclosed(
    alloc: Global,
    tokens: &Vec<SourceToken>,
    from: usize,
    before: Option<Keyword>,
) -> Result<(), Stop> {
    if from < tokens.len() {
        unfinished(alloc, tokens, from, tokens.len(), before)?;
    }
    match tokens.as_slice().last() {
        Some(token) => Err(Stop::Refused(ends_early(alloc, token.place)?)),
        // excluded by the body's own bracket, which is a token
        None => Ok(()),
    }
}

/// The judgements of the slices of a body, whose tokens begin at `from`, or the refusal of the
/// first faulty slice.
pub(crate) fn judgements(
    alloc: Global,
    tokens: &Vec<SourceToken>,
    from: usize,
    slices: &Slices,
) -> Result<Items<Shared<Judgement>>, Stop> {
    let mut judgements = Items::new(alloc);
    let mut first = from;
    let mut before = None;
    let closed = if slices.closed {
        slices.ends.len()
    } else {
        slices.ends.len().saturating_sub(1)
    };
    for end in slices.ends.iter().take(closed) {
        before = add(alloc, tokens, &mut judgements, first, *end, before)?;
        first = end.saturating_add(1);
    }
    if !slices.closed {
        unclosed(alloc, tokens, first, before)?;
    }
    Ok(judgements)
}
