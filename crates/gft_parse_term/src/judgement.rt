//! Judgements by their keyword.
use crate::halt::Halt;
use crate::level::Level;
use crate::plan::{Defined, Span, Step, Whole};
use crate::reader::Reader;
use crate::term::{begins_tightest, term};
use gft_syntax::{Keyword, Reserved, Symbol, TokenForm};

/// The largest number of a category of lists.
const LARGEST_LIST: u128 = 16;

/// `(` Bind, `:` Exp `)`
fn bound_context(reader: &mut Reader<'_>) -> Result<(), Halt> {
    reader.pass();
    let binds = reader.binds()?;
    reader.symbol(Symbol::Colon)?;
    term(reader, Level::Exp)?;
    reader.symbol(Symbol::RightParenthesis)?;
    reader.put(Step::Context(binds))
}

/// Ctx
fn context(reader: &mut Reader<'_>) -> Result<(), Halt> {
    if reader.begins_binds() {
        return bound_context(reader);
    }
    let first = reader.at;
    let none = reader.since(first);
    term(reader, Level::Exp6)?;
    reader.put(Step::Context(none))
}

/// Ctx*, and how many there are.
fn contexts(reader: &mut Reader<'_>) -> Result<u32, Halt> {
    let mut count: u32 = 0;
    for _ in 0..u64::MAX {
        if !begins_tightest(reader) {
            break;
        }
        context(reader)?;
        count = count.saturating_add(1);
    }
    Ok(count)
}

/// The number that comes next, if it is one.
fn number_ahead(reader: &Reader<'_>) -> Option<u128> {
    match reader.ahead(0) {
        Some(TokenForm::Number(value, _)) => Some(*value),
        _ => None,
    }
}

/// `{` number `}`, or nothing, which is 0
fn list_size(reader: &mut Reader<'_>) -> Result<u128, Halt> {
    if !reader.accept(Symbol::LeftBrace) {
        return Ok(0);
    }
    let Some(size) = number_ahead(reader) else {
        return Err(Halt::Underivable);
    };
    if size > LARGEST_LIST {
        return Err(Halt::Underivable);
    }
    reader.pass();
    reader.symbol(Symbol::RightBrace)?;
    Ok(size)
}

/// I Ctx*, or `[` I `]` with a number
fn category(reader: &mut Reader<'_>) -> Result<Whole, Halt> {
    let start = reader.at;
    if reader.accept(Symbol::LeftBracket) {
        reader.name()?;
        reader.symbol(Symbol::RightBracket)?;
        return Ok(Whole::ListCat(start, list_size(reader)?));
    }
    let name = reader.name()?;
    Ok(Whole::Cat(name, contexts(reader)?))
}

/// I, `:` Exp
fn function(reader: &mut Reader<'_>) -> Result<Whole, Halt> {
    let names = reader.names()?;
    reader.symbol(Symbol::Colon)?;
    term(reader, Level::Exp)?;
    Ok(Whole::Fun(names))
}

/// Whether a name, a number or a text comes next.
fn is_setting(reader: &Reader<'_>) -> bool {
    match reader.ahead(0) {
        Some(TokenForm::Identifier(_)) => true,
        Some(TokenForm::Number(_, _)) => true,
        Some(TokenForm::Quoted(_, _)) => true,
        _ => false,
    }
}

/// I `=` and a name, a number or a text
fn flag(reader: &mut Reader<'_>) -> Result<Whole, Halt> {
    let name = reader.name()?;
    reader.symbol(Symbol::Equals)?;
    if !is_setting(reader) {
        return Err(Halt::Underivable);
    }
    let value = reader.at;
    reader.pass();
    Ok(Whole::Flag(name, value))
}

/// I or `[` I `]`
fn linearized_name(reader: &mut Reader<'_>) -> Result<(), Halt> {
    let is_list = reader.accept(Symbol::LeftBracket);
    reader.name()?;
    if is_list {
        reader.symbol(Symbol::RightBracket)?;
    }
    Ok(())
}

/// LName,
fn linearized_names(reader: &mut Reader<'_>) -> Result<Span, Halt> {
    let first = reader.at;
    linearized_name(reader)?;
    for _ in 0..u64::MAX {
        if !reader.accept(Symbol::Comma) {
            break;
        }
        linearized_name(reader)?;
    }
    Ok(reader.since(first))
}

/// LName, `=` Exp
fn linearization_type(reader: &mut Reader<'_>) -> Result<Whole, Halt> {
    let names = linearized_names(reader)?;
    reader.symbol(Symbol::Equals)?;
    term(reader, Level::Exp)?;
    Ok(Whole::Lincat(names))
}

/// LName, Arg* `=` Exp
fn linearization(reader: &mut Reader<'_>) -> Result<(Span, Span), Halt> {
    let names = linearized_names(reader)?;
    let arguments = reader.arguments();
    reader.symbol(Symbol::Equals)?;
    term(reader, Level::Exp)?;
    Ok((names, arguments))
}

/// Con: I Ctx*
fn constructor(reader: &mut Reader<'_>) -> Result<(), Halt> {
    let name = reader.name()?;
    let arguments = contexts(reader)?;
    reader.put(Step::Constructor(name, arguments))
}

/// Con with `|` between, and how many there are.
fn constructors(reader: &mut Reader<'_>) -> Result<u32, Halt> {
    constructor(reader)?;
    let mut count: u32 = 1;
    for _ in 0..u64::MAX {
        if !reader.accept(Symbol::Bar) {
            break;
        }
        constructor(reader)?;
        count = count.saturating_add(1);
    }
    Ok(count)
}

/// I, or I `=` and constructors
fn parameter(reader: &mut Reader<'_>) -> Result<Whole, Halt> {
    let name = reader.name()?;
    if reader.is_at_end() {
        return Ok(Whole::ParamName(name));
    }
    reader.symbol(Symbol::Equals)?;
    Ok(Whole::Param(name, constructors(reader)?))
}

/// I, `:` Exp `=` Exp
fn alternative(reader: &mut Reader<'_>) -> Result<(), Halt> {
    let names = reader.names()?;
    reader.symbol(Symbol::Colon)?;
    term(reader, Level::Exp)?;
    reader.symbol(Symbol::Equals)?;
    term(reader, Level::Exp)?;
    reader.put(Step::Alternative(names))
}

/// `{` alternatives `}`, and how many there are.
fn alternatives(reader: &mut Reader<'_>) -> Result<u32, Halt> {
    reader.symbol(Symbol::LeftBrace)?;
    let mut count: u32 = 0;
    for _ in 0..u64::MAX {
        if reader.is_symbol(0, Symbol::RightBrace) {
            break;
        }
        alternative(reader)?;
        count = count.saturating_add(1);
        if !reader.accept(Symbol::Semicolon) {
            break;
        }
    }
    reader.symbol(Symbol::RightBrace)?;
    Ok(count)
}

/// Exp, or `overload` and alternatives
fn definition(reader: &mut Reader<'_>) -> Result<Defined, Halt> {
    if reader.accept_word(Reserved::Overload) {
        return Ok(Defined::Overload(alternatives(reader)?));
    }
    term(reader, Level::Exp)?;
    Ok(Defined::Term)
}

/// Exp behind I, `:`, and a definition if there is one
fn typed_oper(reader: &mut Reader<'_>, names: Span) -> Result<Whole, Halt> {
    term(reader, Level::Exp)?;
    if reader.is_at_end() {
        return Ok(Whole::OperType(names));
    }
    reader.symbol(Symbol::Equals)?;
    Ok(Whole::OperTyped(names, definition(reader)?))
}

/// I, with a type, a definition or both
fn oper(reader: &mut Reader<'_>) -> Result<Whole, Halt> {
    let names = reader.names()?;
    if reader.accept(Symbol::Colon) {
        return typed_oper(reader, names);
    }
    let arguments = reader.arguments();
    reader.symbol(Symbol::Equals)?;
    Ok(Whole::Oper(names, arguments, definition(reader)?))
}

/// The keyword that the reserved word is.
fn keyword_of(word: Reserved) -> Option<Keyword> {
    match word {
        Reserved::Cat => Some(Keyword::Cat),
        Reserved::Fun => Some(Keyword::Fun),
        Reserved::Flags => Some(Keyword::Flags),
        Reserved::Lincat => Some(Keyword::Lincat),
        Reserved::Lin => Some(Keyword::Lin),
        Reserved::Lindef => Some(Keyword::Lindef),
        Reserved::Linref => Some(Keyword::Linref),
        Reserved::Param => Some(Keyword::Param),
        Reserved::Oper => Some(Keyword::Oper),
        _ => None,
    }
}

/// The keyword with which a slice begins.
fn own_keyword(reader: &Reader<'_>) -> Option<Keyword> {
    match reader.ahead(0) {
        Some(TokenForm::Reserved(word)) => keyword_of(*word),
        _ => None,
    }
}

/// The keyword of a slice, its own or that of the slice before; its own is passed.
fn keyword(reader: &mut Reader<'_>, before: Option<Keyword>) -> Result<Keyword, Halt> {
    if let Some(keyword) = own_keyword(reader) {
        reader.pass();
        return Ok(keyword);
    }
    match before {
        Some(keyword) => Ok(keyword),
        None => Err(Halt::Underivable),
    }
}

/// What stands behind the keyword.
fn behind(reader: &mut Reader<'_>, keyword: Keyword) -> Result<Whole, Halt> {
    match keyword {
        Keyword::Cat => category(reader),
        Keyword::Fun => function(reader),
        Keyword::Flags => flag(reader),
        Keyword::Lincat => linearization_type(reader),
        Keyword::Lin => {
            let (names, arguments) = linearization(reader)?;
            Ok(Whole::Lin(names, arguments))
        }
        Keyword::Lindef => {
            let (names, arguments) = linearization(reader)?;
            Ok(Whole::Lindef(names, arguments))
        }
        Keyword::Linref => {
            let (names, arguments) = linearization(reader)?;
            Ok(Whole::Linref(names, arguments))
        }
        Keyword::Param => parameter(reader),
        Keyword::Oper => oper(reader),
    }
}

/// The judgement that all tokens of the slice are.
pub(crate) fn judgement(reader: &mut Reader<'_>, before: Option<Keyword>) -> Result<Whole, Halt> {
    let keyword = keyword(reader, before)?;
    let whole = behind(reader, keyword)?;
    if reader.is_at_end() {
        Ok(whole)
    } else {
        Err(Halt::Underivable)
    }
}
