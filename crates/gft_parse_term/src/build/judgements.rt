//! Judgements out of what their steps built.
use super::Built;
use super::lists::last;
use super::spans::{binds, place, placed_name, placed_names};
use crate::plan::{Defined, Span, Whole};
use gft_core::{Name, NoMemory, Place};
use gft_syntax::{
    Definition, Judgement, PlacedName, Reference, Setting, SourceToken, Symbol, Term, TokenForm,
};
use sqlite_items::Items;
use std::alloc::Global;

/// A judgement that declares nothing.
fn empty(alloc: Global, place: Place) -> Judgement {
    Judgement::Fun(Items::new(alloc), Term::Empty(place))
}

/// The name of the lists of a category, if it is one.
fn list_name(alloc: Global, category: &Name) -> Result<Option<Name>, NoMemory> {
    let mut text = String::from_str(alloc, "List")?;
    text.push_str(category.as_str())?;
    Name::new(alloc, text.as_str())
}

/// Whether the token is `[`.
fn is_bracket(tokens: &[SourceToken], at: u32) -> bool {
    match tokens.get(at as usize) {
        None => false,
        Some(token) => match &token.form {
            TokenForm::Symbol(symbol) => *symbol == Symbol::LeftBracket,
            _ => false,
        },
    }
}

/// The name of a linearization that the token is the last of, or the C of `[C]`, if it is one.
fn linearized_name(
    alloc: Global,
    tokens: &[SourceToken],
    at: u32,
) -> Result<Option<PlacedName>, NoMemory> {
    let Some(written) = placed_name(alloc, tokens, at)? else {
        return Ok(None);
    };
    let before = at.saturating_sub(1);
    if !is_bracket(tokens, before) {
        return Ok(Some(written));
    }
    match list_name(alloc, &written.name)? {
        // excluded by names, of which each is one with `List` before it too
        None => Ok(Some(written)),
        Some(name) => Ok(Some(PlacedName {
            name,
            place: place(tokens, before),
        })),
    }
}

/// LName,
fn linearized_names(
    alloc: Global,
    tokens: &[SourceToken],
    span: Span,
) -> Result<Items<PlacedName>, NoMemory> {
    let mut names = Items::new(alloc);
    for at in span.first..span.end {
        if let Some(name) = linearized_name(alloc, tokens, at)? {
            names.push(name)?;
        }
    }
    Ok(names)
}

fn category(
    alloc: Global,
    tokens: &[SourceToken],
    built: &mut Built,
    name: u32,
    count: u32,
) -> Result<Judgement, NoMemory> {
    let contexts = last(&mut built.contexts, count)?;
    match placed_name(alloc, tokens, name)? {
        Some(name) => Ok(Judgement::Cat(name, contexts)),
        // excluded by the reader
        None => Ok(empty(alloc, place(tokens, name))),
    }
}

fn list_category(
    alloc: Global,
    tokens: &[SourceToken],
    bracket: u32,
    size: u128,
) -> Result<Judgement, NoMemory> {
    let at = bracket.saturating_add(1);
    let bracket = place(tokens, bracket);
    let Some(written) = placed_name(alloc, tokens, at)? else {
        // excluded by the reader
        return Ok(empty(alloc, bracket));
    };
    let category = Reference::Written(written.name.copy(alloc)?);
    Ok(Judgement::ListCat(written, category, size, bracket))
}

fn setting(alloc: Global, token: &SourceToken) -> Result<Option<Setting>, NoMemory> {
    match &token.form {
        TokenForm::Identifier(name) => Ok(Some(Setting::Name(name.copy(alloc)?))),
        TokenForm::Number(value, _) => Ok(Some(Setting::Number(*value))),
        TokenForm::Quoted(text, _) => Ok(Some(Setting::Text(text.copy(alloc)?))),
        _ => Ok(None),
    }
}

fn setting_at(alloc: Global, tokens: &[SourceToken], at: u32) -> Result<Option<Setting>, NoMemory> {
    match tokens.get(at as usize) {
        None => Ok(None),
        Some(token) => setting(alloc, token),
    }
}

fn flag(
    alloc: Global,
    tokens: &[SourceToken],
    name: u32,
    value: u32,
) -> Result<Judgement, NoMemory> {
    let place = place(tokens, name);
    // excluded by the reader, where the tokens are no name and no value
    let Some(name) = placed_name(alloc, tokens, name)? else {
        return Ok(empty(alloc, place));
    };
    let Some(value) = setting_at(alloc, tokens, value)? else {
        return Ok(empty(alloc, place));
    };
    Ok(Judgement::Flag(name, value))
}

fn parameter_name(alloc: Global, tokens: &[SourceToken], name: u32) -> Result<Judgement, NoMemory> {
    match placed_name(alloc, tokens, name)? {
        Some(name) => Ok(Judgement::ParamName(name)),
        // excluded by the reader
        None => Ok(empty(alloc, place(tokens, name))),
    }
}

fn parameter(
    alloc: Global,
    tokens: &[SourceToken],
    built: &mut Built,
    name: u32,
    count: u32,
) -> Result<Judgement, NoMemory> {
    let constructors = last(&mut built.constructors, count)?;
    match placed_name(alloc, tokens, name)? {
        Some(name) => Ok(Judgement::Param(name, constructors)),
        // excluded by the reader
        None => Ok(empty(alloc, place(tokens, name))),
    }
}

fn definition(built: &mut Built, defined: Defined) -> Result<Definition, NoMemory> {
    match defined {
        Defined::Term => Ok(Definition::Term(built.terms.pop())),
        Defined::Overload(count) => {
            Ok(Definition::Overload(last(&mut built.alternatives, count)?))
        }
    }
}

fn typed_oper(
    alloc: Global,
    tokens: &[SourceToken],
    built: &mut Built,
    names: Span,
    defined: Defined,
) -> Result<Judgement, NoMemory> {
    let names = placed_names(alloc, tokens, names)?;
    let definition = definition(built, defined)?;
    let of_type = built.terms.pop();
    Ok(Judgement::OperTyped(names, of_type, definition))
}

fn oper(
    alloc: Global,
    tokens: &[SourceToken],
    built: &mut Built,
    names: Span,
    arguments: Span,
    defined: Defined,
) -> Result<Judgement, NoMemory> {
    let names = placed_names(alloc, tokens, names)?;
    let arguments = binds(alloc, tokens, arguments)?;
    Ok(Judgement::Oper(names, arguments, definition(built, defined)?))
}

/// The judgement of the form.
pub(crate) fn whole(
    alloc: Global,
    tokens: &[SourceToken],
    built: &mut Built,
    form: Whole,
) -> Result<Judgement, NoMemory> {
    match form {
        Whole::Cat(name, count) => category(alloc, tokens, built, name, count),
        Whole::ListCat(bracket, size) => list_category(alloc, tokens, bracket, size),
        Whole::Fun(names) => {
            let names = placed_names(alloc, tokens, names)?;
            Ok(Judgement::Fun(names, built.terms.pop()))
        }
        Whole::Flag(name, value) => flag(alloc, tokens, name, value),
        Whole::Lincat(names) => {
            let names = linearized_names(alloc, tokens, names)?;
            Ok(Judgement::Lincat(names, built.terms.pop()))
        }
        Whole::Lin(names, arguments) => {
            let names = linearized_names(alloc, tokens, names)?;
            let arguments = binds(alloc, tokens, arguments)?;
            Ok(Judgement::Lin(names, arguments, built.terms.pop()))
        }
        Whole::Lindef(names, arguments) => {
            let names = linearized_names(alloc, tokens, names)?;
            let arguments = binds(alloc, tokens, arguments)?;
            Ok(Judgement::Lindef(names, arguments, built.terms.pop()))
        }
        Whole::Linref(names, arguments) => {
            let names = linearized_names(alloc, tokens, names)?;
            let arguments = binds(alloc, tokens, arguments)?;
            Ok(Judgement::Linref(names, arguments, built.terms.pop()))
        }
        Whole::ParamName(name) => parameter_name(alloc, tokens, name),
        Whole::Param(name, count) => parameter(alloc, tokens, built, name, count),
        Whole::OperType(names) => {
            let names = placed_names(alloc, tokens, names)?;
            Ok(Judgement::OperType(names, built.terms.pop()))
        }
        Whole::OperTyped(names, defined) => typed_oper(alloc, tokens, built, names, defined),
        Whole::Oper(names, arguments, defined) => {
            oper(alloc, tokens, built, names, arguments, defined)
        }
    }
}
