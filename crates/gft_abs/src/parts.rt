//! The names that stand in a term.
use gft_core::NoMemory;
use gft_syntax::{Case, Local, Reference, Term, Whole};
use std::alloc::Global;

fn push_locals<'a>(pending: &mut Vec<&'a Term>, locals: &'a [Local<Term>]) -> Result<(), NoMemory> {
    'each: for local in locals {
        match local {
            Local::Value(_, a) => pending.push(a)?,
            Local::Label(_, a) => pending.push(a)?,
            Local::TypedValue(_, a, b) => {
                pending.push(a)?;
                pending.push(b)?;
            }
        }
    }
    Ok(())
}

fn push_cases<'a>(pending: &mut Vec<&'a Term>, cases: &'a [Case<Term>]) -> Result<(), NoMemory> {
    'each: for case in cases {
        pending.push(&case.body)?;
    }
    Ok(())
}

fn push_terms<'a>(pending: &mut Vec<&'a Term>, terms: &'a [Term]) -> Result<(), NoMemory> {
    'each: for term in terms {
        pending.push(term)?;
    }
    Ok(())
}

fn push_two<'a>(pending: &mut Vec<&'a Term>, a: &'a Term, b: &'a Term) -> Result<(), NoMemory> {
    pending.push(a)?;
    pending.push(b)?;
    Ok(())
}

/// Adds the terms that are parts of a term.
fn push_parts<'a>(pending: &mut Vec<&'a Term>, term: &'a Term) -> Result<(), NoMemory> {
    match term {
        Term::App(a, b, _) => push_two(pending, a.get(), b.get()),
        Term::Arrow(_, a, b, _) => push_two(pending, a.get(), b.get()),
        Term::Alt(a, b, _) => push_two(pending, a.get(), b.get()),
        Term::Concat(a, b, _) => push_two(pending, a.get(), b.get()),
        Term::Glue(a, b, _) => push_two(pending, a.get(), b.get()),
        Term::Select(a, b, _) => push_two(pending, a.get(), b.get()),
        Term::Extend(a, b, _) => push_two(pending, a.get(), b.get()),
        Term::Pair(a, b, _) => push_two(pending, a.get(), b.get()),
        Term::TabType(a, b, _) => push_two(pending, a.get(), b.get()),
        Term::Typed(a, b, _) => push_two(pending, a.get(), b.get()),
        _ => push_other_parts(pending, term),
    }
}

fn push_other_parts<'a>(pending: &mut Vec<&'a Term>, term: &'a Term) -> Result<(), NoMemory> {
    match term {
        Term::Fun(_, a, _) => push_one(pending, a.get()),
        Term::TabFun(_, a, _) => push_one(pending, a.get()),
        Term::Proj(a, _, _) => push_one(pending, a.get()),
        Term::Let(locals, a, _) => {
            push_one(pending, a.get())?;
            push_locals(pending, locals.as_slice())
        }
        Term::Fields(locals, _) => push_locals(pending, locals.as_slice()),
        Term::TableOf(None, cases, _) => push_cases(pending, cases.as_slice()),
        Term::TableOf(Some(a), cases, _) => {
            push_one(pending, a.get())?;
            push_cases(pending, cases.as_slice())
        }
        Term::CaseOf(a, cases, _) => {
            push_one(pending, a.get())?;
            push_cases(pending, cases.as_slice())
        }
        Term::TableList(a, terms, _) => {
            push_one(pending, a.get())?;
            push_terms(pending, terms.as_slice())
        }
        Term::Variants(terms, _) => push_terms(pending, terms.as_slice()),
        Term::Tuple(terms, _) => push_terms(pending, terms.as_slice()),
        _ => Ok(()),
    }
}

fn push_one<'a>(pending: &mut Vec<&'a Term>, a: &'a Term) -> Result<(), NoMemory> {
    pending.push(a)?;
    Ok(())
}

/// The whole name that a term is, if it is one.
fn whole_of(term: &Term) -> Option<&Whole> {
    match term {
        Term::Var(Reference::Whole(whole), _) => Some(whole),
        Term::ListCat(Reference::Whole(whole), _) => Some(whole),
        _ => None,
    }
}

/// Adds the whole names that stand in a term, in no particular order.
pub fn push_names<'a>(
    alloc: Global,
    found: &mut Vec<&'a Whole>,
    term: &'a Term,
) -> Result<(), NoMemory> {
    let mut pending: Vec<&'a Term> = Vec::new(alloc);
    pending.push(term)?;
    'terms: for _ in 0..u64::MAX {
        let Some(next) = pending.pop() else {
            break;
        };
        if let Some(whole) = whole_of(next) {
            found.push(whole)?;
        }
        push_parts(&mut pending, next)?;
    }
    Ok(())
}
