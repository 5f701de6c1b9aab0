//! Forms of patterns by their first tokens.
use super::frame::{Frame, Parts, Turn, no_parts, whole};
use crate::halt::Halt;
use crate::labels::{close_record, labels, open_record};
use crate::level::PatternLevel;
use crate::plan::PatternStep;
use crate::reader::Reader;
use gft_syntax::{Symbol, TokenForm};

/// Whether a pattern of the tightest level begins with the symbol.
fn opens(symbol: Symbol) -> bool {
    match symbol {
        Symbol::Underscore | Symbol::Question => true,
        Symbol::LeftBrace | Symbol::Less | Symbol::LeftParenthesis => true,
        _ => false,
    }
}

/// Whether a pattern of the tightest level begins with the form.
fn begins(form: Option<&TokenForm>) -> bool {
    match form {
        None => false,
        Some(TokenForm::Identifier(_)) => true,
        Some(TokenForm::Number(_, _)) => true,
        Some(TokenForm::Quoted(_, _)) => true,
        Some(TokenForm::Reserved(_)) => false,
        Some(TokenForm::Symbol(symbol)) => opens(*symbol),
    }
}

/// Whether a pattern of the tightest level begins with the next token, where one may; a `-` there
/// is refused.
pub(crate) fn may_begin(reader: &Reader<'_>) -> Result<bool, Halt> {
    if reader.is_symbol(0, Symbol::Minus) {
        return Err(Halt::Negated(reader.at));
    }
    Ok(begins(reader.ahead(0)))
}

/// A name, a text, a number, `_` or `?`.
fn one_token(reader: &mut Reader<'_>, start: u32) -> Result<Turn, Halt> {
    reader.pass();
    whole(reader, PatternStep::Token, PatternLevel::Patt4, start, 0)
}

/// `}`, or x, `=`
pub(crate) fn next_field(reader: &mut Reader<'_>, parts: Parts) -> Result<Turn, Halt> {
    if reader.accept(Symbol::RightBrace) {
        return close_fields(reader, parts);
    }
    let names = labels(reader)?;
    reader.symbol(Symbol::Equals)?;
    Ok(Turn::Within(Frame::Fields(parts, names), PatternLevel::Patt))
}

/// The fields are read.
pub(crate) fn close_fields(reader: &mut Reader<'_>, parts: Parts) -> Result<Turn, Halt> {
    close_record(reader)?;
    let step = PatternStep::Fields(parts.count);
    whole(reader, step, PatternLevel::Patt4, parts.start, parts.height)
}

/// The next argument of a constructor, or the constructor with its arguments.
pub(crate) fn next_argument(
    reader: &mut Reader<'_>,
    frame: Frame,
    step: PatternStep,
    parts: Parts,
) -> Result<Turn, Halt> {
    if may_begin(reader)? {
        return Ok(Turn::Within(frame, PatternLevel::Patt4));
    }
    whole(reader, step, PatternLevel::Patt2, parts.start, parts.height)
}

/// I `.` I, and arguments
fn qualified(reader: &mut Reader<'_>, start: u32) -> Result<Turn, Halt> {
    reader.pass();
    reader.symbol(Symbol::Dot)?;
    reader.name()?;
    let parts = no_parts(start);
    next_argument(
        reader,
        Frame::Qualified(parts),
        PatternStep::Qualified(0),
        parts,
    )
}

/// A name where a constructor may have arguments.
fn with_name(reader: &mut Reader<'_>, start: u32) -> Result<Turn, Halt> {
    if reader.is_symbol(1, Symbol::Dot) {
        return qualified(reader, start);
    }
    reader.pass();
    if reader.accept(Symbol::At) {
        return Ok(Turn::Within(Frame::As(start), PatternLevel::Patt4));
    }
    if may_begin(reader)? {
        return Ok(Turn::Within(Frame::Constructor(no_parts(start)), PatternLevel::Patt4));
    }
    whole(reader, PatternStep::Token, PatternLevel::Patt4, start, 0)
}

/// A pattern that begins with a symbol.
fn with_symbol(reader: &mut Reader<'_>, symbol: Symbol, start: u32) -> Result<Turn, Halt> {
    match symbol {
        Symbol::LeftBrace => {
            reader.pass();
            open_record(reader)?;
            next_field(reader, no_parts(start))
        }
        Symbol::Less => {
            reader.pass();
            Ok(Turn::Within(Frame::Tuple(no_parts(start)), PatternLevel::Patt))
        }
        Symbol::LeftParenthesis => {
            reader.pass();
            Ok(Turn::Within(Frame::InParentheses(start), PatternLevel::Patt))
        }
        _ => one_token(reader, start),
    }
}

/// Begins a pattern of the level.
pub(crate) fn begin(reader: &mut Reader<'_>, awaited: PatternLevel) -> Result<Turn, Halt> {
    if !may_begin(reader)? {
        return Err(Halt::Underivable);
    }
    let start = reader.at;
    if PatternLevel::Patt2.fits(awaited) && reader.is_name(0) {
        return with_name(reader, start);
    }
    match reader.symbol_ahead(0) {
        None => one_token(reader, start),
        Some(symbol) => with_symbol(reader, symbol, start),
    }
}
