//! Types and indices read from terms: subterms before what they stand in, heads first.
use crate::form::{alien, head_of, innermost, is_application, is_predefined};
use crate::names::name_of;
use crate::reader::{Applied, Head, Reader};
use gft_core::{Name, Place, Text, Token, Tree};
use gft_pmcfg::AType;
use gft_rules::{Rule, Stop};
use gft_syntax::{Reference, Term, Whole, place_of};

/// The type of a function: its arguments' types go to the reader one after the other, then that of
/// its result.
#[cycle(reading)]
pub fn function<'r, 'a>(r: &mut Reader<'r, 'a>, term: &'a Term) -> Result<(), Stop> {
    match term {
        Term::Arrow(binds, domain, codomain, _) => {
            let t = argument(r, domain.get())?;
            r.bind(binds.as_slice(), t)?;
            function(r, codomain.get())
        }
        _ => {
            let t = plain_type(r, term)?;
            r.give(t)?;
            Ok(())
        }
    }
}

/// The type of an argument, which is no function type.
#[cycle(reading)]
pub fn argument<'r, 'a>(r: &mut Reader<'r, 'a>, term: &'a Term) -> Result<AType, Stop> {
    match term {
        Term::Arrow(_, _, _, place) => {
            function(r, term)?;
            Err(r.nameless(Rule::HigherOrder, *place))
        }
        _ => plain_type(r, term),
    }
}

/// A type without arrows.
#[cycle(reading)]
fn plain_type<'r, 'a>(r: &mut Reader<'r, 'a>, term: &'a Term) -> Result<AType, Stop> {
    match head_of(term) {
        Term::Var(reference, place) => indexed(r, term, reference, *place),
        Term::ListCat(reference, place) => indexed(r, term, reference, *place),
        _ => {
            arrow_head(r, term)?;
            Err(other_type(r, term))
        }
    }
}

/// The faults within an arrow at the head of applications.
#[cycle(reading)]
fn arrow_head<'r, 'a>(r: &mut Reader<'r, 'a>, term: &'a Term) -> Result<(), Stop> {
    match term {
        Term::App(f, _, _) => arrow_end(r, f.get()),
        _ => Ok(()),
    }
}

/// The faults within an arrow, or within one at the head of applications.
#[cycle(reading)]
fn arrow_end<'r, 'a>(r: &mut Reader<'r, 'a>, term: &'a Term) -> Result<(), Stop> {
    match term {
        Term::App(f, _, _) => arrow_end(r, f.get()),
        Term::Arrow(_, _, _, _) => function(r, term),
        _ => Ok(()),
    }
}

/// The refusal of a form that no type has.
fn other_type(r: &Reader<'_, '_>, term: &Term) -> Stop {
    if let Some(place) = alien(head_of(term)) {
        return r.nameless(Rule::NotAbstract, place);
    }
    r.nameless(Rule::NotAbstract, innermost(term))
}

/// A category with its indices.
#[cycle(reading)]
fn indexed<'r, 'a>(
    r: &mut Reader<'r, 'a>,
    term: &'a Term,
    reference: &Reference,
    place: Place,
) -> Result<AType, Stop> {
    if is_predefined(reference) {
        return Err(r.nameless(Rule::NotAbstract, place));
    }
    let name = name_of(reference);
    let Some(cat) = r.category(reference)? else {
        return Err(r.named(Rule::UnknownCat, place, name.as_str()));
    };
    let applied = Applied::Category(cat);
    let base = r.base();
    arguments(r, term, applied, base)?;
    r.count(applied, base, place_of(term), name)?;
    let args = r.take(base)?;
    Ok(AType { cat, args })
}

/// The arguments of applications, the first first.
#[cycle(reading)]
fn arguments<'r, 'a>(
    r: &mut Reader<'r, 'a>,
    term: &'a Term,
    applied: Applied,
    base: usize,
) -> Result<(), Stop> {
    match term {
        Term::App(f, a, _) => {
            arguments(r, f.get(), applied, base)?;
            index(r, a.get())?;
            r.compare(applied, base, place_of(a.get()))
        }
        _ => Ok(()),
    }
}

/// An index, which goes to the reader's trees.
#[cycle(reading)]
fn index<'r, 'a>(r: &mut Reader<'r, 'a>, term: &'a Term) -> Result<(), Stop> {
    match head_of(term) {
        Term::Var(Reference::Whole(whole), place) => application(r, term, whole, *place),
        Term::Var(reference, place) => variable(r, term, name_of(reference), *place),
        Term::ListCat(_, place) => Err(r.nameless(Rule::NotAbstract, *place)),
        _ => nameless_index(r, term),
    }
}

/// An index that does not begin with a name.
#[cycle(reading)]
fn nameless_index<'r, 'a>(r: &mut Reader<'r, 'a>, term: &'a Term) -> Result<(), Stop> {
    match term {
        Term::Num(value, _) => {
            r.push(Tree::Int(*value))?;
            Ok(())
        }
        Term::Lit(text, place) => word(r, text, *place),
        _ => {
            arrow_end(r, term)?;
            Err(other_index(r, term))
        }
    }
}

/// The refusal of a form that no index has.
fn other_index(r: &mut Reader<'_, '_>, term: &Term) -> Stop {
    match head_of(term) {
        Term::Arrow(_, _, _, place) => r.nameless(Rule::NotAbstract, *place),
        Term::Lit(text, place) => match word(r, text, *place) {
            Ok(()) => r.nameless(Rule::NotAbstract, innermost(term)),
            Err(stop) => stop,
        },
        _ => other_type(r, term),
    }
}

/// A text in quotes, which must be one word.
fn word(r: &mut Reader<'_, '_>, text: &Text, place: Place) -> Result<(), Stop> {
    match Token::new(r.alloc(), text.as_str())? {
        Some(word) => {
            r.push(Tree::Str(word))?;
            Ok(())
        }
        None => Err(r.nameless(Rule::NotAbstract, place)),
    }
}

/// A variable, which takes no arguments.
#[cycle(reading)]
fn variable<'r, 'a>(
    r: &mut Reader<'r, 'a>,
    term: &'a Term,
    name: &Name,
    place: Place,
) -> Result<(), Stop> {
    let Some(number) = r.variable(name.as_str()) else {
        // excluded by the resolution of names: what is no variable has a whole name
        return Err(r.nameless(Rule::NotAbstract, place));
    };
    let base = r.base();
    arguments(r, term, Applied::Variable, base)?;
    if is_application(term) {
        return Err(r.named(Rule::Arity, place_of(term), name.as_str()));
    }
    r.push(Tree::Hole(number))?;
    Ok(())
}

/// A function with its arguments.
#[cycle(reading)]
fn application<'r, 'a>(
    r: &mut Reader<'r, 'a>,
    term: &'a Term,
    whole: &Whole,
    place: Place,
) -> Result<(), Stop> {
    let applied = match r.function(whole) {
        Head::Function(number) => Applied::Function(number),
        Head::LeftOut => Applied::Variable,
        Head::Other => return Err(r.nameless(Rule::NotAbstract, place)),
    };
    let base = r.base();
    arguments(r, term, applied, base)?;
    r.count(applied, base, place_of(term), &whole.name)?;
    let args = r.take(base)?;
    let name = whole.name.copy(r.alloc())?;
    r.push(Tree::App(name, args))?;
    Ok(())
}
