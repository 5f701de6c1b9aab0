//! Forms of terms by their first tokens.
use super::branches::next_branch;
use super::frame::{
    Branches, BranchesOf, FieldsAre, Frame, Locals, LocalsOf, Members, MembersOf, Turn, whole,
};
use super::locals::next_local;
use super::members::next_member;
use crate::halt::Halt;
use crate::labels::open_record;
use crate::level::Level;
use crate::plan::TermStep;
use crate::reader::Reader;
use gft_syntax::{Reserved, Symbol, TokenForm};

/// Whether the reserved word is a sort.
fn is_sort(word: Reserved) -> bool {
    match word {
        Reserved::Str | Reserved::TypeWord | Reserved::ParamTypeWord => true,
        Reserved::Ints | Reserved::Predef => true,
        _ => false,
    }
}

/// Whether a term of the tightest level begins with the symbol.
fn opens(symbol: Symbol) -> bool {
    match symbol {
        Symbol::LeftBrace | Symbol::LeftBracket => true,
        Symbol::Less | Symbol::LeftParenthesis => true,
        _ => false,
    }
}

/// Whether a term of the tightest level begins with the next token.
pub(crate) fn begins_tightest(reader: &Reader<'_>) -> bool {
    match reader.ahead(0) {
        None => false,
        Some(TokenForm::Identifier(_)) => true,
        Some(TokenForm::Number(_, _)) => true,
        Some(TokenForm::Quoted(_, _)) => true,
        Some(TokenForm::Reserved(word)) => is_sort(*word),
        Some(TokenForm::Symbol(symbol)) => opens(*symbol),
    }
}

/// A name, a text, a number or a sort.
fn one_token(reader: &mut Reader<'_>, start: u32) -> Result<Turn, Halt> {
    if !begins_tightest(reader) {
        return Err(Halt::Underivable);
    }
    reader.pass();
    whole(reader, TermStep::Token, Level::Exp6, start, 0)
}

/// Whether a text or a name comes next.
fn may_stand_in_brackets(reader: &Reader<'_>) -> bool {
    matches!(reader.ahead(0), Some(TokenForm::Quoted(_, _))) || reader.is_name(0)
}

/// `[]`, `["s"]` or `[C]`
fn in_brackets(reader: &mut Reader<'_>, start: u32) -> Result<Turn, Halt> {
    reader.pass();
    if reader.accept(Symbol::RightBracket) {
        return whole(reader, TermStep::Empty, Level::Exp6, start, 0);
    }
    if !may_stand_in_brackets(reader) {
        return Err(Halt::Underivable);
    }
    reader.pass();
    reader.symbol(Symbol::RightBracket)?;
    whole(reader, TermStep::Bracketed, Level::Exp6, start, 0)
}

/// Whether the brace behind `table` begins a record, over which the table is.
fn begins_record(reader: &Reader<'_>) -> bool {
    if reader.is_symbol(1, Symbol::RightBrace) {
        return reader.is_symbol(2, Symbol::LeftBrace) || reader.is_symbol(2, Symbol::LeftBracket);
    }
    reader.is_name(1)
        && match reader.symbol_ahead(2) {
            Some(Symbol::Comma) | Some(Symbol::Colon) | Some(Symbol::Equals) => true,
            _ => false,
        }
}

/// `table {`, or `table` and a term
fn table(reader: &mut Reader<'_>, start: u32) -> Result<Turn, Halt> {
    reader.pass();
    if !reader.is_symbol(0, Symbol::LeftBrace) || begins_record(reader) {
        return Ok(Turn::Within(Frame::Table(start), Level::Exp6));
    }
    reader.pass();
    let branches = Branches {
        of: BranchesOf::Table,
        start,
        count: 0,
        height: 0,
    };
    next_branch(reader, branches)
}

/// `variants {`
fn variants(reader: &mut Reader<'_>, start: u32) -> Result<Turn, Halt> {
    reader.pass();
    reader.symbol(Symbol::LeftBrace)?;
    let members = Members {
        of: MembersOf::Variants,
        start,
        count: 0,
        height: 0,
    };
    next_member(reader, members)
}

/// Locals of which none is read.
fn no_locals(of: LocalsOf) -> Locals {
    Locals {
        of,
        count: 0,
        height: 0,
    }
}

/// `let` or `let {`
fn let_in(reader: &mut Reader<'_>, start: u32) -> Result<Turn, Halt> {
    reader.pass();
    if reader.accept(Symbol::LeftBrace) {
        return next_local(reader, no_locals(LocalsOf::LetBraces(start)));
    }
    next_local(reader, no_locals(LocalsOf::Let(start)))
}

/// `{`
fn record(reader: &mut Reader<'_>, start: u32) -> Result<Turn, Halt> {
    reader.pass();
    open_record(reader)?;
    next_local(reader, no_locals(LocalsOf::Record(FieldsAre::Open, start)))
}

/// `\` Bind, `->`
fn function(reader: &mut Reader<'_>, start: u32) -> Result<Turn, Halt> {
    reader.pass();
    let binds = reader.binds()?;
    reader.symbol(Symbol::Arrow)?;
    Ok(Turn::Within(Frame::Function(binds, start), Level::Exp))
}

/// `\\` Bind, `=>`
fn table_function(reader: &mut Reader<'_>, start: u32) -> Result<Turn, Halt> {
    reader.pass();
    let binds = reader.binds()?;
    reader.symbol(Symbol::DoubleArrow)?;
    Ok(Turn::Within(Frame::TableFunction(binds, start), Level::Exp))
}

/// `(` Bind, `:`
fn domain(reader: &mut Reader<'_>, start: u32) -> Result<Turn, Halt> {
    reader.pass();
    let binds = reader.binds()?;
    reader.symbol(Symbol::Colon)?;
    Ok(Turn::Within(Frame::Domain(binds, start), Level::Exp))
}

/// A term that begins with a symbol, at the tightest level.
fn with_symbol(reader: &mut Reader<'_>, symbol: Symbol, start: u32) -> Result<Turn, Halt> {
    match symbol {
        Symbol::LeftBrace => record(reader, start),
        Symbol::LeftBracket => in_brackets(reader, start),
        Symbol::Less => {
            reader.pass();
            Ok(Turn::Within(Frame::InAngles(start), Level::Exp))
        }
        Symbol::LeftParenthesis => {
            reader.pass();
            Ok(Turn::Within(Frame::InParentheses(start), Level::Exp))
        }
        _ => Err(Halt::Underivable),
    }
}

/// A term of the tightest level.
fn begin_exp6(reader: &mut Reader<'_>, start: u32) -> Result<Turn, Halt> {
    match reader.symbol_ahead(0) {
        None => one_token(reader, start),
        Some(symbol) => with_symbol(reader, symbol, start),
    }
}

/// A term of the level of selections or of a tighter one.
fn begin_exp3(reader: &mut Reader<'_>, awaited: Level, start: u32) -> Result<Turn, Halt> {
    if Level::Exp3.fits(awaited) && reader.is_word(Reserved::Table) {
        return table(reader, start);
    }
    if Level::Exp4.fits(awaited) && reader.is_word(Reserved::Variants) {
        return variants(reader, start);
    }
    if Level::Exp4.fits(awaited) && reader.accept_word(Reserved::Case) {
        return Ok(Turn::Within(Frame::Case(start), Level::Exp));
    }
    begin_exp6(reader, start)
}

/// A term of the loosest level.
fn begin_exp(reader: &mut Reader<'_>, start: u32) -> Result<Turn, Halt> {
    if reader.is_word(Reserved::Let) {
        return let_in(reader, start);
    }
    if reader.begins_binds() {
        return domain(reader, start);
    }
    match reader.symbol_ahead(0) {
        Some(Symbol::Backslash) => function(reader, start),
        Some(Symbol::DoubleBackslash) => table_function(reader, start),
        _ => begin_exp3(reader, Level::Exp, start),
    }
}

/// Begins a term of the level.
pub(crate) fn begin(reader: &mut Reader<'_>, awaited: Level) -> Result<Turn, Halt> {
    let start = reader.at;
    if Level::Exp.fits(awaited) {
        return begin_exp(reader, start);
    }
    begin_exp3(reader, awaited, start)
}
