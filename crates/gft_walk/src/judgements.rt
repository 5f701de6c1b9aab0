//! The walk over judgements.
use crate::heads::{
    Form, WalkedJudgement, after_arguments, alternative, cat, constructor, context, flag, fun,
    lincat, linearization, list_cat, oper, oper_type, overload, param, param_name, term_definition,
    typed_oper,
};
use crate::joints::Walked;
use crate::naming::Naming;
use crate::parts::{bind_all, copy_kept};
use crate::terms::{after, walk, walk_type};
use gft_core::NoMemory;
use gft_syntax::{Alternative, Bind, Constructor, Context, Definition, Judgement};
use sqlite_items::Items;
use std::alloc::Global;

/// Contexts, each bound for those after it.
fn walk_contexts<N: Naming>(
    alloc: Global,
    contexts: &[Context],
    naming: &mut N,
) -> Result<Items<Context>, NoMemory> {
    let scope = naming.scope();
    let mut all = Items::new(alloc);
    'each: for one in contexts {
        let of_type = walk_type(alloc, &one.of_type, naming);
        all.push(context(alloc, one, of_type)?)?;
        bind_all(alloc, one.binds.as_slice(), naming)?;
    }
    naming.leave(scope);
    Ok(all)
}

fn walk_constructors<N: Naming>(
    alloc: Global,
    constructors: &[Constructor],
    naming: &mut N,
) -> Result<Items<Constructor>, NoMemory> {
    let mut all = Items::new(alloc);
    'each: for one in constructors {
        let arguments = walk_contexts(alloc, one.arguments.as_slice(), naming);
        all.push(constructor(alloc, &one.name, arguments)?)?;
    }
    Ok(all)
}

fn walk_alternatives<N: Naming>(
    alloc: Global,
    alternatives: &[Alternative],
    naming: &mut N,
) -> Result<Items<Alternative>, NoMemory> {
    let mut all = Items::new(alloc);
    'each: for one in alternatives {
        let of_type = walk_type(alloc, &one.of_type, naming);
        let value = walk(alloc, &one.value, naming);
        all.push(alternative(alloc, one, of_type, value)?)?;
    }
    Ok(all)
}

/// A definition under the arguments before its `=`.
fn walk_definition<N: Naming>(
    alloc: Global,
    binds: &[Bind],
    definition: &Definition,
    naming: &mut N,
) -> Result<Definition, NoMemory> {
    let scope = naming.scope();
    let told = bind_all(alloc, binds, naming);
    let walked = match definition {
        Definition::Term(term) => term_definition(walk(alloc, term, naming)),
        Definition::Overload(all) => overload(walk_alternatives(alloc, all.as_slice(), naming)),
    };
    naming.leave(scope);
    after_arguments(told, walked)
}

/// A term under the arguments before its `=`.
fn walk_body<N: Naming>(
    alloc: Global,
    binds: &[Bind],
    term: &gft_syntax::Term,
    naming: &mut N,
) -> Walked {
    let scope = naming.scope();
    let told = bind_all(alloc, binds, naming);
    let walked = walk(alloc, term, naming);
    naming.leave(scope);
    after(told, walked)
}

/// A judgement with its names replaced, and of several names that it declares those that are kept.
pub fn walk_judgement<N: Naming>(
    alloc: Global,
    judgement: &Judgement,
    naming: &mut N,
) -> WalkedJudgement {
    match judgement {
        Judgement::Cat(name, contexts) => {
            let contexts = walk_contexts(alloc, contexts.as_slice(), naming);
            cat(alloc, name, contexts)
        }
        Judgement::ListCat(name, category, number, place) => {
            let category = naming.bare(alloc, category, name.place);
            list_cat(alloc, name, category, *number, *place)
        }
        Judgement::Flag(name, setting) => flag(alloc, name, setting),
        Judgement::Fun(names, of_type) => {
            let of_type = walk(alloc, of_type, naming);
            fun(copy_kept(alloc, names.as_slice(), naming), of_type)
        }
        Judgement::Lincat(names, of_type) => {
            let of_type = walk_type(alloc, of_type, naming);
            lincat(copy_kept(alloc, names.as_slice(), naming), of_type)
        }
        Judgement::Lin(names, binds, term) => {
            let term = walk_body(alloc, binds.as_slice(), term, naming);
            let names = copy_kept(alloc, names.as_slice(), naming);
            linearization(alloc, Form::Lin, names, binds.as_slice(), term)
        }
        Judgement::Lindef(names, binds, term) => {
            let term = walk_body(alloc, binds.as_slice(), term, naming);
            let names = copy_kept(alloc, names.as_slice(), naming);
            linearization(alloc, Form::Lindef, names, binds.as_slice(), term)
        }
        Judgement::Linref(names, binds, term) => {
            let term = walk_body(alloc, binds.as_slice(), term, naming);
            let names = copy_kept(alloc, names.as_slice(), naming);
            linearization(alloc, Form::Linref, names, binds.as_slice(), term)
        }
        Judgement::ParamName(name) => param_name(alloc, name),
        Judgement::Param(name, constructors) => {
            let constructors = walk_constructors(alloc, constructors.as_slice(), naming);
            param(alloc, name, constructors)
        }
        Judgement::OperType(names, of_type) => {
            let of_type = walk_type(alloc, of_type, naming);
            oper_type(copy_kept(alloc, names.as_slice(), naming), of_type)
        }
        Judgement::OperTyped(names, of_type, definition) => {
            let of_type = walk_type(alloc, of_type, naming);
            let definition = walk_definition(alloc, &[], definition, naming);
            typed_oper(
                copy_kept(alloc, names.as_slice(), naming),
                of_type,
                definition,
            )
        }
        Judgement::Oper(names, binds, definition) => {
            let definition = walk_definition(alloc, binds.as_slice(), definition, naming);
            let names = copy_kept(alloc, names.as_slice(), naming);
            oper(alloc, names, binds.as_slice(), definition)
        }
    }
}
