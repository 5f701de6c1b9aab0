//! Terms and their locals and branches out of the terms built last.
use super::lists::last;
use super::spans::{binds, name, names, place};
use crate::plan::{Infix, LocalStep, Span, TermStep};
use gft_core::{NoMemory, Place};
use gft_syntax::{
    Bind, Case, Local, Pattern, Reference, Reserved, Sort, SourceToken, Term, TokenForm,
};
use sqlite_items::{Boxed, Items};
use std::alloc::Global;

/// Terms, locals and branches that are part of no term yet, the last on top.
#[derive(Drop)]
pub(crate) struct Terms {
    alloc: Global,
    terms: Vec<Term>,
    locals: Vec<Local<Term>>,
    cases: Vec<Case<Term>>,
}

/// The sort that the reserved word is.
fn sort_of(word: Reserved) -> Option<Sort> {
    match word {
        Reserved::Str => Some(Sort::Str),
        Reserved::TypeWord => Some(Sort::TypeSort),
        Reserved::ParamTypeWord => Some(Sort::ParamSort),
        Reserved::Ints => Some(Sort::Ints),
        Reserved::Predef => Some(Sort::Predef),
        _ => None,
    }
}

impl Terms {
    /// No terms and no locals.
    pub fn new(alloc: Global) -> Terms {
        Terms {
            alloc,
            terms: Vec::new(alloc),
            locals: Vec::new(alloc),
            cases: Vec::new(alloc),
        }
    }

    /// The last term.
    pub fn pop(&mut self) -> Term {
        match self.terms.pop() {
            Some(term) => term,
            // excluded by the reader, whose steps come after those of their parts
            None => Term::Empty(Place {
                file: 0,
                line: 1,
                col: 1,
            }),
        }
    }

    fn pop_boxed(&mut self) -> Result<Boxed<Term>, NoMemory> {
        let term = self.pop();
        Ok(Boxed::new(self.alloc, term)?)
    }

    fn push(&mut self, term: Term) -> Result<(), NoMemory> {
        self.terms.push(term)?;
        Ok(())
    }
}

/// The term that one token is.
fn token_term(alloc: Global, token: &SourceToken) -> Result<Term, NoMemory> {
    let place = token.place;
    match &token.form {
        TokenForm::Identifier(name) => Ok(Term::Var(Reference::Written(name.copy(alloc)?), place)),
        TokenForm::Number(value, _) => Ok(Term::Num(*value, place)),
        TokenForm::Quoted(text, _) => Ok(Term::Lit(text.copy(alloc)?, place)),
        TokenForm::Reserved(word) => match sort_of(*word) {
            Some(sort) => Ok(Term::Sort(sort, place)),
            // excluded by the reader
            None => Ok(Term::Empty(place)),
        },
        // excluded by the reader
        TokenForm::Symbol(_) => Ok(Term::Empty(place)),
    }
}

/// The term that one token in brackets is.
fn bracketed_term(alloc: Global, token: &SourceToken, place: Place) -> Result<Term, NoMemory> {
    match &token.form {
        TokenForm::Identifier(name) => {
            Ok(Term::ListCat(Reference::Written(name.copy(alloc)?), place))
        }
        TokenForm::Quoted(text, _) => Ok(Term::Lit(text.copy(alloc)?, place)),
        // excluded by the reader
        _ => Ok(Term::Empty(place)),
    }
}

/// A term of one token.
fn token(
    alloc: Global,
    tokens: &[SourceToken],
    terms: &mut Terms,
    start: u32,
) -> Result<(), NoMemory> {
    match tokens.get(start as usize) {
        Some(token) => terms.push(token_term(alloc, token)?),
        // excluded by the reader
        None => Ok(()),
    }
}

/// A term of one token in brackets.
fn bracketed(
    alloc: Global,
    tokens: &[SourceToken],
    terms: &mut Terms,
    start: u32,
) -> Result<(), NoMemory> {
    match tokens.get(start.saturating_add(1) as usize) {
        Some(token) => terms.push(bracketed_term(alloc, token, place(tokens, start))?),
        // excluded by the reader
        None => Ok(()),
    }
}

/// The form of two terms.
fn infix_term(
    form: Infix,
    none: Items<Bind>,
    a: Boxed<Term>,
    b: Boxed<Term>,
    place: Place,
) -> Term {
    match form {
        Infix::Alternatives => Term::Alt(a, b, place),
        Infix::FunctionType => Term::Arrow(none, a, b, place),
        Infix::TableType => Term::TabType(a, b, place),
        Infix::Append => Term::Concat(a, b, place),
        Infix::Glue => Term::Glue(a, b, place),
        Infix::Selection => Term::Select(a, b, place),
        Infix::Extension => Term::Extend(a, b, place),
        Infix::Pair => Term::Pair(a, b, place),
    }
}

fn infix(alloc: Global, terms: &mut Terms, form: Infix, place: Place) -> Result<(), NoMemory> {
    let right = terms.pop_boxed()?;
    let left = terms.pop_boxed()?;
    terms.push(infix_term(form, Items::new(alloc), left, right, place))
}

fn application(terms: &mut Terms, place: Place) -> Result<(), NoMemory> {
    let argument = terms.pop_boxed()?;
    let function = terms.pop_boxed()?;
    terms.push(Term::App(function, argument, place))
}

fn projection(
    alloc: Global,
    tokens: &[SourceToken],
    terms: &mut Terms,
    label: u32,
    place: Place,
) -> Result<(), NoMemory> {
    // excluded by the reader, where the token is no name
    let Some(label) = name(alloc, tokens, label)? else {
        return Ok(());
    };
    let record = terms.pop_boxed()?;
    terms.push(Term::Proj(record, label, place))
}

fn function_type(
    alloc: Global,
    tokens: &[SourceToken],
    terms: &mut Terms,
    span: Span,
    place: Place,
) -> Result<(), NoMemory> {
    let binds = binds(alloc, tokens, span)?;
    let result = terms.pop_boxed()?;
    let domain = terms.pop_boxed()?;
    terms.push(Term::Arrow(binds, domain, result, place))
}

fn function(
    alloc: Global,
    tokens: &[SourceToken],
    terms: &mut Terms,
    span: Span,
    place: Place,
) -> Result<(), NoMemory> {
    let binds = binds(alloc, tokens, span)?;
    let body = terms.pop_boxed()?;
    terms.push(Term::Fun(binds, body, place))
}

fn table_function(
    alloc: Global,
    tokens: &[SourceToken],
    terms: &mut Terms,
    span: Span,
    place: Place,
) -> Result<(), NoMemory> {
    let binds = binds(alloc, tokens, span)?;
    let body = terms.pop_boxed()?;
    terms.push(Term::TabFun(binds, body, place))
}

fn let_in(terms: &mut Terms, count: u32, place: Place) -> Result<(), NoMemory> {
    let locals = last(&mut terms.locals, count)?;
    let body = terms.pop_boxed()?;
    terms.push(Term::Let(locals, body, place))
}

fn table(terms: &mut Terms, count: u32, place: Place) -> Result<(), NoMemory> {
    let cases = last(&mut terms.cases, count)?;
    terms.push(Term::TableOf(None, cases, place))
}

fn table_over(terms: &mut Terms, count: u32, place: Place) -> Result<(), NoMemory> {
    let cases = last(&mut terms.cases, count)?;
    let over = terms.pop_boxed()?;
    terms.push(Term::TableOf(Some(over), cases, place))
}

fn table_list(terms: &mut Terms, count: u32, place: Place) -> Result<(), NoMemory> {
    let values = last(&mut terms.terms, count)?;
    let over = terms.pop_boxed()?;
    terms.push(Term::TableList(over, values, place))
}

fn case_of(terms: &mut Terms, count: u32, place: Place) -> Result<(), NoMemory> {
    let cases = last(&mut terms.cases, count)?;
    let selector = terms.pop_boxed()?;
    terms.push(Term::CaseOf(selector, cases, place))
}

fn variants(terms: &mut Terms, count: u32, place: Place) -> Result<(), NoMemory> {
    let members = last(&mut terms.terms, count)?;
    terms.push(Term::Variants(members, place))
}

fn fields(terms: &mut Terms, count: u32, place: Place) -> Result<(), NoMemory> {
    let locals = last(&mut terms.locals, count)?;
    terms.push(Term::Fields(locals, place))
}

fn tuple(terms: &mut Terms, count: u32, place: Place) -> Result<(), NoMemory> {
    let members = last(&mut terms.terms, count)?;
    terms.push(Term::Tuple(members, place))
}

fn typed(terms: &mut Terms, place: Place) -> Result<(), NoMemory> {
    let of_type = terms.pop_boxed()?;
    let inner = terms.pop_boxed()?;
    terms.push(Term::Typed(inner, of_type, place))
}

/// The term of the step.
pub(crate) fn term_step(
    alloc: Global,
    tokens: &[SourceToken],
    terms: &mut Terms,
    step: TermStep,
    start: u32,
) -> Result<(), NoMemory> {
    let place = place(tokens, start);
    match step {
        TermStep::Token => token(alloc, tokens, terms, start),
        TermStep::Empty => terms.push(Term::Empty(place)),
        TermStep::Bracketed => bracketed(alloc, tokens, terms, start),
        TermStep::Infix(form) => infix(alloc, terms, form, place),
        TermStep::Application => application(terms, place),
        TermStep::Projection(label) => projection(alloc, tokens, terms, label, place),
        TermStep::FunctionType(span) => function_type(alloc, tokens, terms, span, place),
        TermStep::Function(span) => function(alloc, tokens, terms, span, place),
        TermStep::TableFunction(span) => table_function(alloc, tokens, terms, span, place),
        TermStep::Let(count) => let_in(terms, count, place),
        TermStep::Table(count) => table(terms, count, place),
        TermStep::TableOver(count) => table_over(terms, count, place),
        TermStep::TableList(count) => table_list(terms, count, place),
        TermStep::CaseOf(count) => case_of(terms, count, place),
        TermStep::Variants(count) => variants(terms, count, place),
        TermStep::Fields(count) => fields(terms, count, place),
        TermStep::Tuple(count) => tuple(terms, count, place),
        TermStep::Typed => typed(terms, place),
    }
}

/// A local out of the last terms.
pub(crate) fn local(
    alloc: Global,
    tokens: &[SourceToken],
    terms: &mut Terms,
    step: LocalStep,
    span: Span,
) -> Result<(), NoMemory> {
    let names = names(alloc, tokens, span)?;
    let last = terms.pop();
    let local = match step {
        LocalStep::Value => Local::Value(names, last),
        LocalStep::Label => Local::Label(names, last),
        LocalStep::TypedValue => Local::TypedValue(names, terms.pop(), last),
    };
    terms.locals.push(local)?;
    Ok(())
}

/// A branch out of the last pattern and the last term.
pub(crate) fn branch(terms: &mut Terms, pattern: Pattern) -> Result<(), NoMemory> {
    let body = terms.pop();
    terms.cases.push(Case { pattern, body })?;
    Ok(())
}
