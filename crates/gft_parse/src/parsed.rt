//! Modules.
use crate::body::{ends_early, judgements};
use crate::cursor::{Cursor, Halt};
use crate::cut::{Slices, cut};
use crate::header::{begun_module, filled};
use gft_core::{NoMemory, Place};
use gft_parse_term::underivable;
use gft_rules::Stop;
use gft_syntax::{Module, SourceToken, Symbol, TokenForm};
use std::alloc::Global;

/// Whether the token is the symbol.
fn is_symbol(token: &SourceToken, symbol: Symbol) -> bool {
    match &token.form {
        TokenForm::Symbol(found) => *found == symbol,
        _ => false,
    }
}

/// The number of the body's `{`, if there is one.
fn body_bracket(tokens: &[SourceToken]) -> Option<usize> {
    for at in 0..tokens.len() {
        if is_symbol(&tokens[at], Symbol::LeftBrace) {
            return Some(at);
        }
    }
    None
}

/// The module that the tokens up to `end` begin.
fn begun(
    alloc: Global,
    tokens: &[SourceToken],
    end: usize,
    has_body: bool,
) -> Result<Module, Halt> {
    let mut cursor = Cursor { tokens, at: 0, end };
    begun_module(alloc, &mut cursor, has_body)
}

/// The first slice, or its refusal.
fn first_slice(
    alloc: Global,
    tokens: &Vec<SourceToken>,
    first: &SourceToken,
    end: usize,
    has_body: bool,
) -> Result<Module, Stop> {
    match begun(alloc, tokens.as_slice(), end, has_body) {
        Ok(module) => Ok(module),
        Err(Halt::NoMemory) => Err(Stop::NoMemory),
        Err(Halt::Underivable) => Err(underivable(alloc, tokens, 0, end, first)),
    }
}

/// The refusal of the tokens behind a body that ends at `close`: only a `;` may stand there.
fn last_slice(alloc: Global, tokens: &Vec<SourceToken>, close: usize) -> Result<(), Stop> {
    let from = close.saturating_add(1);
    let Some(first) = tokens.get(from) else {
        return Ok(());
    };
    if from.saturating_add(1) == tokens.len() && is_symbol(first, Symbol::Semicolon) {
        return Ok(());
    }
    Err(underivable(alloc, tokens, from, tokens.len(), first))
}

/// The refusal of the tokens behind the body, where it is closed.
fn behind_body(alloc: Global, tokens: &Vec<SourceToken>, slices: &Slices) -> Result<(), Stop> {
    match slices.ends.as_slice().last() {
        Some(close) => last_slice(alloc, tokens, *close),
        None => Ok(()),
    }
}

/// The module with the body whose tokens begin behind the bracket.
fn with_body(
    alloc: Global,
    tokens: &Vec<SourceToken>,
    first: &SourceToken,
    bracket: usize,
) -> Result<Module, Stop> {
    let module = first_slice(alloc, tokens, first, bracket, true)?;
    let from = bracket.saturating_add(1);
    let slices = cut(alloc, tokens.as_slice(), from)?;
    let judgements = judgements(alloc, tokens, from, &slices)?;
    behind_body(alloc, tokens, &slices)?;
    Ok(filled(module, judgements))
}

/// The module that the tokens of a file spell, or the refusal of the first faulty slice. The file
/// is the number that places have. Each token is read once or twice; the stack that reading takes
/// does not grow with them.
pub fn parse_module(alloc: Global, file: u32, tokens: &Vec<SourceToken>) -> Result<Module, Stop> {
    let Some(first) = tokens.as_slice().first() else {
        let place = Place {
            file,
            line: 1,
            col: 1,
        };
        return Err(Stop::Refused(ends_early(alloc, place)?));
    };
    match body_bracket(tokens.as_slice()) {
        Some(bracket) => with_body(alloc, tokens, first, bracket),
        None => first_slice(alloc, tokens, first, tokens.len(), false),
    }
}
