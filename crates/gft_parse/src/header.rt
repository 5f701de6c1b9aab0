//! Headers of modules.
use crate::cursor::{Cursor, Halt};
use crate::inherited::{inherited, inherited_list};
use crate::opened::{opens, substitutions};
use gft_core::Shared;
use gft_syntax::{
    Body, Header, Inherited, Judgement, Module, Opened, PlacedName, Reserved, Rest, Symbol,
};
use sqlite_items::Items;
use std::alloc::Global;

/// A body of which no judgement is read.
fn begun_body(alloc: Global, opened: Items<Opened>) -> Body {
    Body {
        opened,
        judgements: Items::new(alloc),
    }
}

/// `of` I
fn of_name(alloc: Global, cursor: &mut Cursor<'_>) -> Result<PlacedName, Halt> {
    cursor.word(Reserved::Of)?;
    cursor.name(alloc)
}

/// I `of` I behind `instance`
fn instance(alloc: Global, cursor: &mut Cursor<'_>) -> Result<Header, Halt> {
    let name = cursor.name(alloc)?;
    Ok(Header::Instance(name, of_name(alloc, cursor)?))
}

/// I `of` I behind `concrete`
fn concrete(alloc: Global, cursor: &mut Cursor<'_>) -> Result<Header, Halt> {
    let name = cursor.name(alloc)?;
    Ok(Header::Concrete(name, of_name(alloc, cursor)?))
}

/// `concrete` I `of` I behind `incomplete`
fn incomplete(alloc: Global, cursor: &mut Cursor<'_>) -> Result<Header, Halt> {
    cursor.word(Reserved::Concrete)?;
    let name = cursor.name(alloc)?;
    Ok(Header::Incomplete(name, of_name(alloc, cursor)?))
}

/// Header
fn header(alloc: Global, cursor: &mut Cursor<'_>) -> Result<Header, Halt> {
    let Some(word) = cursor.next_word() else {
        return Err(Halt::Underivable);
    };
    cursor.pass();
    match word {
        Reserved::Abstract => Ok(Header::Abstract(cursor.name(alloc)?)),
        Reserved::Resource => Ok(Header::Resource(cursor.name(alloc)?)),
        Reserved::Interface => Ok(Header::Interface(cursor.name(alloc)?)),
        Reserved::Instance => instance(alloc, cursor),
        Reserved::Concrete => concrete(alloc, cursor),
        Reserved::Incomplete => incomplete(alloc, cursor),
        _ => Err(Halt::Underivable),
    }
}

/// What a functor's module opens in a body of its own, behind `**`, where it has one.
fn functor_body(
    alloc: Global,
    cursor: &mut Cursor<'_>,
    has_body: bool,
) -> Result<Option<Body>, Halt> {
    if !has_body {
        return Ok(None);
    }
    cursor.symbol(Symbol::DoubleStar)?;
    let opened = opens(alloc, cursor)?;
    Ok(Some(begun_body(alloc, opened)))
}

/// `with` Sub, behind what is inherited and the functor
fn with(
    alloc: Global,
    cursor: &mut Cursor<'_>,
    has_body: bool,
    inherits: Items<Inherited>,
    functor: Inherited,
) -> Result<Rest, Halt> {
    let substitutions = substitutions(alloc, cursor)?;
    let body = functor_body(alloc, cursor, has_body)?;
    Ok(Rest::With(inherits, functor, substitutions, body))
}

/// The only module of a list behind which `with` stands, as a functor.
fn functor_alone(
    alloc: Global,
    cursor: &mut Cursor<'_>,
    has_body: bool,
    first: Items<Inherited>,
) -> Result<Rest, Halt> {
    let mut first = first;
    let Some(functor) = first.pop() else {
        return Err(Halt::Underivable);
    };
    if !first.is_empty() {
        return Err(Halt::Underivable);
    }
    with(alloc, cursor, has_body, first, functor)
}

/// Whether the part before a body's `{` ends before the next token, or goes on with `open`.
fn begins_body(cursor: &Cursor<'_>, has_body: bool) -> bool {
    has_body && (cursor.is_at_end() || cursor.is_word(Reserved::OpenWord))
}

/// What stands behind `Inh, **`
fn behind_stars(
    alloc: Global,
    cursor: &mut Cursor<'_>,
    has_body: bool,
    inherits: Items<Inherited>,
) -> Result<Rest, Halt> {
    if begins_body(cursor, has_body) {
        let opened = opens(alloc, cursor)?;
        return Ok(Rest::Own(inherits, begun_body(alloc, opened)));
    }
    let functor = inherited(alloc, cursor)?;
    with(alloc, cursor, has_body, inherits, functor)
}

/// What stands behind `Inh,`
fn behind_inherited(
    alloc: Global,
    cursor: &mut Cursor<'_>,
    has_body: bool,
    inherits: Items<Inherited>,
) -> Result<Rest, Halt> {
    if cursor.is_word(Reserved::With) {
        return functor_alone(alloc, cursor, has_body, inherits);
    }
    if cursor.accept(Symbol::DoubleStar) {
        return behind_stars(alloc, cursor, has_body, inherits);
    }
    if has_body {
        return Err(Halt::Underivable);
    }
    Ok(Rest::Inherits(inherits))
}

/// Rest, up to the body's `{` where there is one
fn rest(alloc: Global, cursor: &mut Cursor<'_>, has_body: bool) -> Result<Rest, Halt> {
    if begins_body(cursor, has_body) {
        let opened = opens(alloc, cursor)?;
        return Ok(Rest::Own(Items::new(alloc), begun_body(alloc, opened)));
    }
    let inherits = inherited_list(alloc, cursor)?;
    behind_inherited(alloc, cursor, has_body, inherits)
}

/// The module that all tokens of the slice begin, with no judgements yet. A file without a body may
/// end with `;`.
pub(crate) fn begun_module(
    alloc: Global,
    cursor: &mut Cursor<'_>,
    has_body: bool,
) -> Result<Module, Halt> {
    let header = header(alloc, cursor)?;
    cursor.symbol(Symbol::Equals)?;
    let rest = rest(alloc, cursor, has_body)?;
    if !has_body {
        cursor.accept(Symbol::Semicolon);
    }
    if cursor.is_at_end() {
        Ok(Module { header, rest })
    } else {
        Err(Halt::Underivable)
    }
}

/// The body with the judgements.
fn filled_body(body: Body, judgements: Items<Shared<Judgement>>) -> Body {
    Body {
        opened: body.opened,
        judgements,
    }
}

/// What follows `=`, with the judgements of its body.
fn filled_rest(rest: Rest, judgements: Items<Shared<Judgement>>) -> Rest {
    match rest {
        Rest::Own(inherits, body) => Rest::Own(inherits, filled_body(body, judgements)),
        Rest::Inherits(inherits) => Rest::Inherits(inherits),
        Rest::With(inherits, functor, substitutions, body) => match body {
            None => Rest::With(inherits, functor, substitutions, None),
            Some(body) => {
                let body = filled_body(body, judgements);
                Rest::With(inherits, functor, substitutions, Some(body))
            }
        },
    }
}

/// The module with the judgements of its body.
pub(crate) fn filled(module: Module, judgements: Items<Shared<Judgement>>) -> Module {
    Module {
        header: module.header,
        rest: filled_rest(module.rest, judgements),
    }
}
