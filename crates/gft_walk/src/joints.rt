//! Terms and patterns out of their walked parts.
use crate::parts::{copy_binds, copy_module, copy_names};
use gft_core::{Name, NoMemory, Place};
use gft_syntax::{Bind, Case, Local, Pattern, Reference, Term};
use sqlite_items::{Boxed, Items};
use std::alloc::Global;

/// What a walk makes of a term, in a box: a walk that is deep keeps little on the stack.
pub type Walked = Result<Boxed<Term>, NoMemory>;

/// What a walk makes of a pattern.
pub type WalkedPattern = Result<Pattern, NoMemory>;

/// The forms of two parts.
#[derive(Clone, Copy)]
pub enum Joint {
    Alt,
    TabType,
    Concat,
    Glue,
    Select,
    Extend,
    Pair,
    App,
    Typed,
}

/// A term that is walked.
pub fn boxed(alloc: Global, term: Term) -> Walked {
    Ok(Boxed::new(alloc, term)?)
}

/// Both of two walked terms.
pub fn both(a: Walked, b: Walked) -> Result<(Boxed<Term>, Boxed<Term>), NoMemory> {
    let a = a?;
    let b = b?;
    Ok((a, b))
}

fn join(joint: Joint, a: Boxed<Term>, b: Boxed<Term>, place: Place) -> Term {
    match joint {
        Joint::Alt => Term::Alt(a, b, place),
        Joint::TabType => Term::TabType(a, b, place),
        Joint::Concat => Term::Concat(a, b, place),
        Joint::Glue => Term::Glue(a, b, place),
        Joint::Select => Term::Select(a, b, place),
        Joint::Extend => Term::Extend(a, b, place),
        Joint::Pair => Term::Pair(a, b, place),
        Joint::App => Term::App(a, b, place),
        Joint::Typed => Term::Typed(a, b, place),
    }
}

/// A term of two parts.
pub fn joined(alloc: Global, joint: Joint, a: Walked, b: Walked, place: Place) -> Walked {
    let (a, b) = both(a, b)?;
    boxed(alloc, join(joint, a, b, place))
}

/// A lambda.
pub fn lambda(alloc: Global, binds: &[Bind], body: Walked, place: Place) -> Walked {
    let body = body?;
    let binds = copy_binds(alloc, binds)?;
    boxed(alloc, Term::Fun(binds, body, place))
}

/// A lambda over a table's values.
pub fn table_lambda(alloc: Global, binds: &[Bind], body: Walked, place: Place) -> Walked {
    let body = body?;
    let binds = copy_binds(alloc, binds)?;
    boxed(alloc, Term::TabFun(binds, body, place))
}

/// A function type.
pub fn arrow(alloc: Global, binds: &[Bind], a: Walked, b: Walked, place: Place) -> Walked {
    let (a, b) = both(a, b)?;
    let binds = copy_binds(alloc, binds)?;
    boxed(alloc, Term::Arrow(binds, a, b, place))
}

/// A `let`.
pub fn let_in(
    alloc: Global,
    locals: Result<Items<Local<Term>>, NoMemory>,
    body: Walked,
    place: Place,
) -> Walked {
    let body = body?;
    let locals = locals?;
    boxed(alloc, Term::Let(locals, body, place))
}

/// A table of branches without the type that it is over.
pub fn table(alloc: Global, cases: Result<Items<Case<Term>>, NoMemory>, place: Place) -> Walked {
    let cases = cases?;
    boxed(alloc, Term::TableOf(None, cases, place))
}

/// A table of branches.
pub fn table_of(
    alloc: Global,
    over: Walked,
    cases: Result<Items<Case<Term>>, NoMemory>,
    place: Place,
) -> Walked {
    let over = over?;
    let cases = cases?;
    boxed(alloc, Term::TableOf(Some(over), cases, place))
}

/// A table of values.
pub fn table_list(
    alloc: Global,
    over: Walked,
    items: Result<Items<Term>, NoMemory>,
    place: Place,
) -> Walked {
    let over = over?;
    let items = items?;
    boxed(alloc, Term::TableList(over, items, place))
}

/// A `case`.
pub fn case_of(
    alloc: Global,
    of: Walked,
    cases: Result<Items<Case<Term>>, NoMemory>,
    place: Place,
) -> Walked {
    let of = of?;
    let cases = cases?;
    boxed(alloc, Term::CaseOf(of, cases, place))
}

/// Variants.
pub fn variants(alloc: Global, members: Result<Items<Term>, NoMemory>, place: Place) -> Walked {
    let members = members?;
    boxed(alloc, Term::Variants(members, place))
}

/// A projection.
pub fn projection(alloc: Global, of: Walked, label: &Name, place: Place) -> Walked {
    let of = of?;
    let label = label.copy(alloc)?;
    boxed(alloc, Term::Proj(of, label, place))
}

/// A record or a record type.
pub fn fields(alloc: Global, locals: Result<Items<Local<Term>>, NoMemory>, place: Place) -> Walked {
    let locals = locals?;
    boxed(alloc, Term::Fields(locals, place))
}

/// A tuple.
pub fn tuple(alloc: Global, parts: Result<Items<Term>, NoMemory>, place: Place) -> Walked {
    let parts = parts?;
    boxed(alloc, Term::Tuple(parts, place))
}

/// A branch.
pub fn case(pattern: WalkedPattern, body: Walked) -> Result<Case<Term>, NoMemory> {
    let body = body?;
    let pattern = pattern?;
    Ok(Case {
        pattern,
        body: body.into_inner(),
    })
}

/// A local without a type.
pub fn value_local(alloc: Global, names: &[Name], value: Walked) -> Result<Local<Term>, NoMemory> {
    let value = value?;
    let names = copy_names(alloc, names)?;
    Ok(Local::Value(names, value.into_inner()))
}

/// A label with its type.
pub fn label_local(
    alloc: Global,
    names: &[Name],
    of_type: Walked,
) -> Result<Local<Term>, NoMemory> {
    let of_type = of_type?;
    let names = copy_names(alloc, names)?;
    Ok(Local::Label(names, of_type.into_inner()))
}

/// A local with a type.
pub fn typed_local(
    alloc: Global,
    names: &[Name],
    of_type: Walked,
    value: Walked,
) -> Result<Local<Term>, NoMemory> {
    let (of_type, value) = both(of_type, value)?;
    let names = copy_names(alloc, names)?;
    Ok(Local::TypedValue(names, of_type.into_inner(), value.into_inner()))
}

fn boxed_pattern(alloc: Global, pattern: Pattern) -> Result<Boxed<Pattern>, NoMemory> {
    Ok(Boxed::new(alloc, pattern)?)
}

/// An alternative of patterns.
pub fn or(alloc: Global, a: WalkedPattern, b: WalkedPattern, place: Place) -> WalkedPattern {
    let a = boxed_pattern(alloc, a?)?;
    let b = boxed_pattern(alloc, b?)?;
    Ok(Pattern::Or(a, b, place))
}

/// A sequence of patterns.
pub fn seq(alloc: Global, a: WalkedPattern, b: WalkedPattern, place: Place) -> WalkedPattern {
    let a = boxed_pattern(alloc, a?)?;
    let b = boxed_pattern(alloc, b?)?;
    Ok(Pattern::Seq(a, b, place))
}

/// A constructor with its parts.
pub fn constructed(
    alloc: Global,
    module: &Option<Name>,
    head: Result<Reference, NoMemory>,
    parts: Result<Items<Pattern>, NoMemory>,
    place: Place,
) -> WalkedPattern {
    let head = head?;
    let parts = parts?;
    Ok(Pattern::Con(copy_module(alloc, module)?, head, parts, place))
}

/// A pattern any number of times.
pub fn star(alloc: Global, inner: WalkedPattern, place: Place) -> WalkedPattern {
    let inner = boxed_pattern(alloc, inner?)?;
    Ok(Pattern::Star(inner, place))
}

/// A variable for all that a pattern matches.
pub fn named(
    alloc: Global,
    name: &Name,
    seen: Result<(), NoMemory>,
    inner: WalkedPattern,
    place: Place,
) -> WalkedPattern {
    seen?;
    let inner = boxed_pattern(alloc, inner?)?;
    Ok(Pattern::As(name.copy(alloc)?, inner, place))
}
