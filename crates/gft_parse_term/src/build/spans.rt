//! Names, variables and places out of tokens.
use crate::plan::Span;
use gft_core::{Name, NoMemory, Place};
use gft_syntax::{Bind, PlacedName, SourceToken, Symbol, TokenForm};
use sqlite_items::Items;
use std::alloc::Global;

/// Where the token stands.
pub(crate) fn place(tokens: &[SourceToken], at: u32) -> Place {
    match tokens.get(at as usize) {
        Some(token) => token.place,
        // excluded by the reader, whose tokens stand in the list
        None => Place {
            file: 0,
            line: 1,
            col: 1,
        },
    }
}

/// The name that the token is, if it is one.
fn identifier(tokens: &[SourceToken], at: u32) -> Option<&Name> {
    match tokens.get(at as usize) {
        None => None,
        Some(token) => match &token.form {
            TokenForm::Identifier(name) => Some(name),
            _ => None,
        },
    }
}

/// The name that the token is, if it is one.
pub(crate) fn name(
    alloc: Global,
    tokens: &[SourceToken],
    at: u32,
) -> Result<Option<Name>, NoMemory> {
    match identifier(tokens, at) {
        None => Ok(None),
        Some(name) => Ok(Some(name.copy(alloc)?)),
    }
}

/// The name that the token is, if it is one, with its place.
pub(crate) fn placed_name(
    alloc: Global,
    tokens: &[SourceToken],
    at: u32,
) -> Result<Option<PlacedName>, NoMemory> {
    match identifier(tokens, at) {
        None => Ok(None),
        Some(name) => Ok(Some(PlacedName {
            name: name.copy(alloc)?,
            place: place(tokens, at),
        })),
    }
}

/// The names among the tokens.
pub(crate) fn names(
    alloc: Global,
    tokens: &[SourceToken],
    span: Span,
) -> Result<Items<Name>, NoMemory> {
    let mut names = Items::new(alloc);
    for at in span.first..span.end {
        if let Some(name) = name(alloc, tokens, at)? {
            names.push(name)?;
        }
    }
    Ok(names)
}

/// The names among the tokens, with their places.
pub(crate) fn placed_names(
    alloc: Global,
    tokens: &[SourceToken],
    span: Span,
) -> Result<Items<PlacedName>, NoMemory> {
    let mut names = Items::new(alloc);
    for at in span.first..span.end {
        if let Some(name) = placed_name(alloc, tokens, at)? {
            names.push(name)?;
        }
    }
    Ok(names)
}

/// The variable that the token is, or the `_` that binds nothing, if it is one of them.
fn bind(alloc: Global, token: &SourceToken) -> Result<Option<Bind>, NoMemory> {
    match &token.form {
        TokenForm::Identifier(name) => { Ok(Some(Bind::Variable(name.copy(alloc)?, token.place))) }
        TokenForm::Symbol(Symbol::Underscore) => Ok(Some(Bind::Nothing(token.place))),
        _ => Ok(None),
    }
}

/// The variables and `_` among the tokens.
pub(crate) fn binds(
    alloc: Global,
    tokens: &[SourceToken],
    span: Span,
) -> Result<Items<Bind>, NoMemory> {
    let mut binds = Items::new(alloc);
    for at in span.first..span.end {
        let Some(token) = tokens.get(at as usize) else {
            break;
        };
        if let Some(bind) = bind(alloc, token)? {
            binds.push(bind)?;
        }
    }
    Ok(binds)
}
