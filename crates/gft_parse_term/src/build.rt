//! The judgement of a slice out of the steps of its plan: each step takes the parts built last and
//! puts the form on top.
mod judgements;
mod lists;
mod patterns;
mod spans;
mod terms;

use crate::plan::{Span, Step, Whole};
use gft_core::NoMemory;
use gft_syntax::{Alternative, Constructor, Context, Judgement, SourceToken};
use judgements::whole;
use lists::last;
use patterns::{Patterns, pattern_step};
use spans::{binds, names, placed_name};
use std::alloc::Global;
use terms::{Terms, branch, local, term_step};

/// What was built and is part of no form yet, the last on top.
#[derive(Drop)]
struct Built {
    terms: Terms,
    patterns: Patterns,
    contexts: Vec<Context>,
    constructors: Vec<Constructor>,
    alternatives: Vec<Alternative>,
}

/// Nothing.
fn nothing(alloc: Global) -> Built {
    Built {
        terms: Terms::new(alloc),
        patterns: Patterns::new(alloc),
        contexts: Vec::new(alloc),
        constructors: Vec::new(alloc),
        alternatives: Vec::new(alloc),
    }
}

/// An argument of a category or of a constructor.
fn context(
    alloc: Global,
    tokens: &[SourceToken],
    built: &mut Built,
    span: Span,
) -> Result<(), NoMemory> {
    let binds = binds(alloc, tokens, span)?;
    let of_type = built.terms.pop();
    built.contexts.push(Context { binds, of_type })?;
    Ok(())
}

/// A constructor of a parameter type.
fn constructor(
    alloc: Global,
    tokens: &[SourceToken],
    built: &mut Built,
    name: u32,
    count: u32,
) -> Result<(), NoMemory> {
    let arguments = last(&mut built.contexts, count)?;
    // excluded by the reader, where the token is no name
    let Some(name) = placed_name(alloc, tokens, name)? else {
        return Ok(());
    };
    built.constructors.push(Constructor { name, arguments })?;
    Ok(())
}

/// An alternative of an overload.
fn alternative(
    alloc: Global,
    tokens: &[SourceToken],
    built: &mut Built,
    span: Span,
) -> Result<(), NoMemory> {
    let names = names(alloc, tokens, span)?;
    let value = built.terms.pop();
    let of_type = built.terms.pop();
    built.alternatives.push(Alternative {
        names,
        of_type,
        value,
    })?;
    Ok(())
}

/// One step.
fn step(
    alloc: Global,
    tokens: &[SourceToken],
    built: &mut Built,
    step: Step,
) -> Result<(), NoMemory> {
    match step {
        Step::Term(form, start) => term_step(alloc, tokens, &mut built.terms, form, start),
        Step::Pattern(form, start) => pattern_step(alloc, tokens, &mut built.patterns, form, start),
        Step::Local(form, span) => local(alloc, tokens, &mut built.terms, form, span),
        Step::Branch => branch(&mut built.terms, built.patterns.pop()),
        Step::Label(span) => built.patterns.label(alloc, tokens, span),
        Step::Context(span) => context(alloc, tokens, built, span),
        Step::Constructor(name, count) => constructor(alloc, tokens, built, name, count),
        Step::Alternative(span) => alternative(alloc, tokens, built, span),
    }
}

/// The judgement that the steps build.
pub(crate) fn build(
    alloc: Global,
    tokens: &[SourceToken],
    plan: &[Step],
    form: Whole,
) -> Result<Judgement, NoMemory> {
    let mut built = nothing(alloc);
    for next in plan {
        step(alloc, tokens, &mut built, *next)?;
    }
    whole(alloc, tokens, &mut built, form)
}
