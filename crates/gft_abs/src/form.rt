//! Terms as abstract syntax sees them: heads of applications, and forms that it lacks.
use gft_core::Place;
use gft_syntax::{Case, Local, Reference, Term, place_of};

/// The head of nested applications.
pub fn head_of(term: &Term) -> &Term {
    let mut head = term;
    'heads: while let Term::App(f, _, _) = head {
        head = f.get();
    }
    head
}

/// Whether a term is an application.
pub fn is_application(term: &Term) -> bool {
    match term {
        Term::App(_, _, _) => true,
        _ => false,
    }
}

/// The place of the innermost of nested applications, or of a term that is none.
pub fn innermost(term: &Term) -> Place {
    match term {
        Term::App(f, _, place) => {
            if is_application(f.get()) {
                return innermost(f.get());
            }
            *place
        }
        _ => place_of(term),
    }
}

/// Whether a name is one of `Predef`, and no category.
pub fn is_predefined(reference: &Reference) -> bool {
    match reference {
        Reference::Whole(whole) => {
            whole.module.as_str() == "Predef"
                && whole.name.as_str() != "Int"
                && whole.name.as_str() != "String"
        }
        _ => false,
    }
}

/// Whether a term may be what an application applies.
fn is_head(term: &Term) -> bool {
    match term {
        Term::App(_, _, _) => true,
        Term::Var(_, _) => true,
        Term::ListCat(_, _) => true,
        _ => false,
    }
}

/// The place of an application whose head may not be applied.
fn misapplied(head: &Term, place: Place) -> Option<Place> {
    if is_head(head) {
        return None;
    }
    Some(place)
}

/// The first form within a term that abstract syntax lacks, a head before what it is applied to,
/// and otherwise parts before the whole.
#[cycle(alien)]
pub fn alien(term: &Term) -> Option<Place> {
    match term {
        Term::App(f, a, place) => alien(f.get())
            .or(misapplied(f.get(), *place))
            .or(alien(a.get())),
        Term::Arrow(_, a, b, _) => alien(a.get()).or(alien(b.get())),
        Term::Var(reference, place) => {
            if is_predefined(reference) {
                return Some(*place);
            }
            None
        }
        Term::Lit(_, _) => None,
        Term::Num(_, _) => None,
        Term::ListCat(_, _) => None,
        _ => alien_part(term).or(Some(place_of(term))),
    }
}

/// What is found within the parts of a form.
#[cycle(alien)]
fn alien_part(term: &Term) -> Option<Place> {
    match term {
        Term::Alt(a, b, _) => alien(a.get()).or(alien(b.get())),
        Term::Concat(a, b, _) => alien(a.get()).or(alien(b.get())),
        Term::Glue(a, b, _) => alien(a.get()).or(alien(b.get())),
        Term::Select(a, b, _) => alien(a.get()).or(alien(b.get())),
        Term::Extend(a, b, _) => alien(a.get()).or(alien(b.get())),
        Term::Pair(a, b, _) => alien(a.get()).or(alien(b.get())),
        Term::TabType(a, b, _) => alien(a.get()).or(alien(b.get())),
        Term::Typed(a, b, _) => alien(a.get()).or(alien(b.get())),
        Term::Fun(_, a, _) => alien(a.get()),
        Term::TabFun(_, a, _) => alien(a.get()),
        Term::Proj(a, _, _) => alien(a.get()),
        Term::Let(locals, a, _) => alien_locals(locals.as_slice()).or(alien(a.get())),
        Term::Fields(locals, _) => alien_locals(locals.as_slice()),
        Term::TableOf(None, cases, _) => alien_cases(cases.as_slice()),
        Term::TableOf(Some(a), cases, _) => alien(a.get()).or(alien_cases(cases.as_slice())),
        Term::CaseOf(a, cases, _) => alien(a.get()).or(alien_cases(cases.as_slice())),
        Term::TableList(a, terms, _) => alien(a.get()).or(alien_terms(terms.as_slice())),
        Term::Variants(terms, _) => alien_terms(terms.as_slice()),
        Term::Tuple(terms, _) => alien_terms(terms.as_slice()),
        _ => None,
    }
}

#[cycle(alien)]
fn alien_locals(locals: &[Local<Term>]) -> Option<Place> {
    'each: for local in locals {
        let within = match local {
            Local::Value(_, a) => alien(a),
            Local::Label(_, a) => alien(a),
            Local::TypedValue(_, a, b) => alien(a).or(alien(b)),
        };
        if within.is_some() {
            return within;
        }
    }
    None
}

#[cycle(alien)]
fn alien_cases(cases: &[Case<Term>]) -> Option<Place> {
    'each: for case in cases {
        let within = alien(&case.body);
        if within.is_some() {
            return within;
        }
    }
    None
}

#[cycle(alien)]
fn alien_terms(terms: &[Term]) -> Option<Place> {
    'each: for term in terms {
        let within = alien(term);
        if within.is_some() {
            return within;
        }
    }
    None
}
