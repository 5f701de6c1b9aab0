//! The walk over terms.
use crate::joints::{
    Joint, Walked, arrow, boxed, case, case_of, fields, joined, label_local, lambda, let_in,
    projection, table, table_lambda, table_list, table_of, tuple, typed_local, value_local,
    variants,
};
use crate::naming::Naming;
use crate::parts::{bind_all, bind_names, copy_text};
use crate::patterns::walk_pattern;
use gft_core::{Name, NoMemory, Place};
use gft_syntax::{Bind, Case, Local, Reference, Sort, Term};
use sqlite_items::{Boxed, Items};
use std::alloc::Global;

/// Whether the term is `Ints`, and its argument a number.
fn is_ints_of_number(head: &Term, argument: &Term) -> bool {
    matches!(head, Term::Sort(Sort::Ints, _)) && matches!(argument, Term::Num(_, _))
}

/// Whether `Predef` has the function.
fn is_predefined(name: &Name) -> bool {
    match name.as_str() {
        "take" => true,
        "drop" => true,
        "tk" => true,
        "dp" => true,
        _ => false,
    }
}

/// Whether the projection is a function of `Predef`.
fn is_predef(of: &Term, label: &Name) -> bool {
    matches!(of, Term::Sort(Sort::Predef, _)) && is_predefined(label)
}

/// What `Q.x` means, where Q is a name and is no variable.
fn qualified_name<N: Naming>(
    alloc: Global,
    of: &Term,
    label: &Name,
    place: Place,
    naming: &mut N,
) -> Result<Option<Reference>, NoMemory> {
    match of {
        Term::Var(module, _) => naming.qualified(alloc, module, label, place),
        _ => Ok(None),
    }
}

/// A term of a form that has no parts but names.
fn walk_leaf<N: Naming>(alloc: Global, term: &Term, naming: &mut N) -> Walked {
    match term {
        Term::Var(name, place) => {
            let name = naming.bare(alloc, name, *place)?;
            boxed(alloc, Term::Var(name, *place))
        }
        Term::ListCat(name, place) => {
            let name = naming.list_of(alloc, name, *place)?;
            boxed(alloc, Term::ListCat(name, *place))
        }
        Term::Lit(text, place) => {
            let text = copy_text(alloc, text)?;
            boxed(alloc, Term::Lit(text, *place))
        }
        Term::Num(number, place) => boxed(alloc, Term::Num(*number, *place)),
        Term::Sort(sort, place) => {
            naming.sort(alloc, *sort, *place)?;
            boxed(alloc, Term::Sort(*sort, *place))
        }
        Term::Empty(place) => boxed(alloc, Term::Empty(*place)),
        // excluded by walk: each other form has parts
        _ => boxed(alloc, Term::Empty(gft_syntax::place_of(term))),
    }
}

/// What is told of a term that stands where a type must, and then what is made of it.
pub fn after(told: Result<(), NoMemory>, walked: Walked) -> Walked {
    told?;
    walked
}

/// What is made of `Q.x`: a name, or None where it is a projection.
fn name_or_projection(
    alloc: Global,
    name: Result<Option<Reference>, NoMemory>,
    place: Place,
) -> Result<Option<Boxed<Term>>, NoMemory> {
    match name? {
        None => Ok(None),
        Some(name) => Ok(Some(boxed(alloc, Term::Var(name, place))?)),
    }
}

/// A projection that needs no walk of its left side: a function of `Predef`, or a qualified name.
fn whole_projection<N: Naming>(
    alloc: Global,
    of: &Term,
    label: &Name,
    place: Place,
    naming: &mut N,
) -> Result<Option<Boxed<Term>>, NoMemory> {
    if is_predef(of, label) {
        return Ok(Some(copy_predef(alloc, of, label, place)?));
    }
    let name = qualified_name(alloc, of, label, place, naming);
    name_or_projection(alloc, name, place)
}

/// A term with its names replaced.
#[cycle(terms)]
pub fn walk<N: Naming>(alloc: Global, term: &Term, naming: &mut N) -> Walked {
    match term {
        Term::Alt(left, right, place) => {
            let a = walk(alloc, left.get(), naming);
            let b = walk(alloc, right.get(), naming);
            joined(alloc, Joint::Alt, a, b, *place)
        }
        Term::Fun(binds, body, place) => {
            let scope = naming.scope();
            let told = bind_all(alloc, binds.as_slice(), naming);
            let body = walk(alloc, body.get(), naming);
            naming.leave(scope);
            lambda(alloc, binds.as_slice(), after(told, body), *place)
        }
        Term::TabFun(binds, body, place) => {
            let scope = naming.scope();
            let told = bind_all(alloc, binds.as_slice(), naming);
            let body = walk(alloc, body.get(), naming);
            naming.leave(scope);
            table_lambda(alloc, binds.as_slice(), after(told, body), *place)
        }
        Term::Arrow(binds, domain, codomain, place) => {
            let told = naming.type_place(alloc, domain.get());
            let a = walk(alloc, domain.get(), naming);
            let a = after(told, a);
            let scope = naming.scope();
            let told = bind_type(alloc, binds.as_slice(), codomain.get(), naming);
            let b = walk(alloc, codomain.get(), naming);
            naming.leave(scope);
            arrow(alloc, binds.as_slice(), a, after(told, b), *place)
        }
        Term::TabType(domain, codomain, place) => {
            let told = both_types(alloc, domain.get(), codomain.get(), naming);
            let a = walk(alloc, domain.get(), naming);
            let b = walk(alloc, codomain.get(), naming);
            joined(alloc, Joint::TabType, after(told, a), b, *place)
        }
        Term::Let(locals, body, place) => {
            let scope = naming.scope();
            let locals = walk_locals(alloc, locals.as_slice(), true, naming);
            let body = walk(alloc, body.get(), naming);
            naming.leave(scope);
            let_in(alloc, locals, body, *place)
        }
        Term::Concat(left, right, place) => {
            let a = walk(alloc, left.get(), naming);
            let b = walk(alloc, right.get(), naming);
            joined(alloc, Joint::Concat, a, b, *place)
        }
        Term::Glue(left, right, place) => {
            let a = walk(alloc, left.get(), naming);
            let b = walk(alloc, right.get(), naming);
            joined(alloc, Joint::Glue, a, b, *place)
        }
        Term::Select(left, right, place) => {
            let a = walk(alloc, left.get(), naming);
            let b = walk(alloc, right.get(), naming);
            joined(alloc, Joint::Select, a, b, *place)
        }
        Term::Extend(left, right, place) => {
            let a = walk(alloc, left.get(), naming);
            let b = walk(alloc, right.get(), naming);
            joined(alloc, Joint::Extend, a, b, *place)
        }
        Term::Pair(left, right, place) => {
            let told = both_types(alloc, left.get(), right.get(), naming);
            let a = walk(alloc, left.get(), naming);
            let b = walk(alloc, right.get(), naming);
            joined(alloc, Joint::Pair, after(told, a), b, *place)
        }
        Term::TableOf(None, cases, place) => {
            let cases = walk_cases(alloc, cases.as_slice(), naming);
            table(alloc, cases, *place)
        }
        Term::TableOf(Some(over), cases, place) => {
            let told = naming.type_place(alloc, over.get());
            let over = walk(alloc, over.get(), naming);
            let cases = walk_cases(alloc, cases.as_slice(), naming);
            table_of(alloc, after(told, over), cases, *place)
        }
        Term::TableList(over, items, place) => {
            let told = naming.type_place(alloc, over.get());
            let over = walk(alloc, over.get(), naming);
            let items = walk_all(alloc, items.as_slice(), naming);
            table_list(alloc, after(told, over), items, *place)
        }
        Term::App(head, argument, place) => {
            if is_ints_of_number(head.get(), argument.get()) {
                return copy_ints(alloc, argument.get(), head.get(), *place);
            }
            let a = walk(alloc, head.get(), naming);
            let b = walk(alloc, argument.get(), naming);
            joined(alloc, Joint::App, a, b, *place)
        }
        Term::CaseOf(of, cases, place) => {
            let of = walk(alloc, of.get(), naming);
            let cases = walk_cases(alloc, cases.as_slice(), naming);
            case_of(alloc, of, cases, *place)
        }
        Term::Variants(members, place) => {
            let members = walk_all(alloc, members.as_slice(), naming);
            variants(alloc, members, *place)
        }
        Term::Proj(of, label, place) => {
            match whole_projection(alloc, of.get(), label, *place, naming) {
                Err(error) => Err(error),
                Ok(Some(whole)) => Ok(whole),
                Ok(None) => {
                    let of = walk(alloc, of.get(), naming);
                    projection(alloc, of, label, *place)
                }
            }
        }
        Term::Fields(locals, place) => {
            let locals = walk_locals(alloc, locals.as_slice(), false, naming);
            fields(alloc, locals, *place)
        }
        Term::Tuple(parts, place) => {
            let parts = walk_all(alloc, parts.as_slice(), naming);
            tuple(alloc, parts, *place)
        }
        Term::Typed(of, of_type, place) => {
            let a = walk(alloc, of.get(), naming);
            let told = naming.type_place(alloc, of_type.get());
            let b = walk(alloc, of_type.get(), naming);
            joined(alloc, Joint::Typed, a, after(told, b), *place)
        }
        _ => walk_leaf(alloc, term, naming),
    }
}

/// Two terms stand where types must.
fn both_types<N: Naming>(
    alloc: Global,
    a: &Term,
    b: &Term,
    naming: &mut N,
) -> Result<(), NoMemory> {
    naming.type_place(alloc, a)?;
    naming.type_place(alloc, b)
}

/// Variables are bound, and a term stands where a type must.
fn bind_type<N: Naming>(
    alloc: Global,
    binds: &[Bind],
    term: &Term,
    naming: &mut N,
) -> Result<(), NoMemory> {
    bind_all(alloc, binds, naming)?;
    naming.type_place(alloc, term)
}

/// `Ints n`, as it is.
fn copy_ints(alloc: Global, argument: &Term, head: &Term, place: Place) -> Walked {
    let number = match argument {
        Term::Num(number, _) => *number,
        // excluded by is_ints_of_number
        _ => 0,
    };
    let head = boxed(alloc, Term::Sort(Sort::Ints, gft_syntax::place_of(head)))?;
    let argument = boxed(alloc, Term::Num(number, gft_syntax::place_of(argument)))?;
    boxed(alloc, Term::App(head, argument, place))
}

/// A function of `Predef`, as it is.
fn copy_predef(alloc: Global, of: &Term, label: &Name, place: Place) -> Walked {
    let of = boxed(alloc, Term::Sort(Sort::Predef, gft_syntax::place_of(of)))?;
    let label = label.copy(alloc)?;
    boxed(alloc, Term::Proj(of, label, place))
}

#[cycle(terms)]
fn walk_all<N: Naming>(
    alloc: Global,
    terms: &[Term],
    naming: &mut N,
) -> Result<Items<Term>, NoMemory> {
    let mut all = Items::new(alloc);
    'each: for term in terms {
        all.push(walk(alloc, term, naming)?.into_inner())?;
    }
    Ok(all)
}

/// The variables of a pattern are bound. How many were bound before.
fn enter<N: Naming>(start: usize, naming: &mut N) -> Result<usize, NoMemory> {
    let scope = naming.scope();
    naming.enter(start)?;
    Ok(scope)
}

#[cycle(terms)]
fn walk_cases<N: Naming>(
    alloc: Global,
    cases: &[Case<Term>],
    naming: &mut N,
) -> Result<Items<Case<Term>>, NoMemory> {
    let mut all = Items::new(alloc);
    'each: for one in cases {
        let start = naming.variables();
        let pattern = walk_pattern(alloc, &one.pattern, naming);
        let scope = enter(start, naming)?;
        let body = walk(alloc, &one.body, naming);
        naming.leave(scope);
        all.push(case(pattern, body)?)?;
    }
    Ok(all)
}

/// The names of a local.
fn names_of(local: &Local<Term>) -> &[Name] {
    match local {
        Local::Value(names, _) => names.as_slice(),
        Local::Label(names, _) => names.as_slice(),
        Local::TypedValue(names, _, _) => names.as_slice(),
    }
}

/// The names of a local are bound, if they bind.
fn bind_local<N: Naming>(
    alloc: Global,
    local: &Local<Term>,
    binds: bool,
    naming: &mut N,
) -> Result<(), NoMemory> {
    if !binds {
        return Ok(());
    }
    bind_names(alloc, names_of(local), naming)
}

/// Locals, each bound for those after it, or fields, which bind nothing.
#[cycle(terms)]
fn walk_locals<N: Naming>(
    alloc: Global,
    locals: &[Local<Term>],
    binds: bool,
    naming: &mut N,
) -> Result<Items<Local<Term>>, NoMemory> {
    let mut all = Items::new(alloc);
    'each: for local in locals {
        let walked = match local {
            Local::Value(names, value) => {
                let value = walk(alloc, value, naming);
                value_local(alloc, names.as_slice(), value)
            }
            Local::Label(names, of_type) => {
                let told = naming.type_place(alloc, of_type);
                let of_type = walk(alloc, of_type, naming);
                label_local(alloc, names.as_slice(), after(told, of_type))
            }
            Local::TypedValue(names, of_type, value) => {
                let told = naming.type_place(alloc, of_type);
                let of_type = walk(alloc, of_type, naming);
                let value = walk(alloc, value, naming);
                typed_local(alloc, names.as_slice(), after(told, of_type), value)
            }
        };
        all.push(walked?)?;
        bind_local(alloc, local, binds, naming)?;
    }
    Ok(all)
}

/// A term that stands where a type must, with its names replaced.
pub fn walk_type<N: Naming>(alloc: Global, term: &Term, naming: &mut N) -> Walked {
    naming.type_place(alloc, term)?;
    walk(alloc, term, naming)
}
