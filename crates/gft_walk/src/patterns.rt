//! The walk over patterns.
use crate::joints::{WalkedPattern, constructed, named, or, seq, star};
use crate::naming::Naming;
use crate::parts::{copy_names, copy_text};
use gft_core::NoMemory;
use gft_syntax::{Pattern, PatternField};
use sqlite_items::Items;
use std::alloc::Global;

/// A pattern of a form that has no patterns within.
fn walk_leaf<N: Naming>(alloc: Global, pattern: &Pattern, naming: &mut N) -> WalkedPattern {
    match pattern {
        Pattern::Any(place) => Ok(Pattern::Any(*place)),
        Pattern::One(place) => Ok(Pattern::One(*place)),
        Pattern::Name(name, place) => {
            let name = naming.constructor_or_variable(alloc, name, *place)?;
            Ok(Pattern::Name(name, *place))
        }
        Pattern::Text(text, place) => Ok(Pattern::Text(copy_text(alloc, text)?, *place)),
        Pattern::Num(number, place) => Ok(Pattern::Num(*number, *place)),
        // excluded by walk_pattern: each other form has patterns within
        Pattern::Or(_, _, place) => Ok(Pattern::Any(*place)),
        Pattern::Seq(_, _, place) => Ok(Pattern::Any(*place)),
        Pattern::Con(_, _, _, place) => Ok(Pattern::Any(*place)),
        Pattern::Star(_, place) => Ok(Pattern::Any(*place)),
        Pattern::As(_, _, place) => Ok(Pattern::Any(*place)),
        Pattern::Fields(_, place) => Ok(Pattern::Any(*place)),
        Pattern::Tuple(_, place) => Ok(Pattern::Any(*place)),
    }
}

/// The labels of a field with their pattern.
fn field(
    alloc: Global,
    labelled: &PatternField<Pattern>,
    pattern: WalkedPattern,
) -> Result<PatternField<Pattern>, NoMemory> {
    let pattern = pattern?;
    let labels = copy_names(alloc, labelled.labels.as_slice())?;
    Ok(PatternField { labels, pattern })
}

/// The right side of an alternative, after which the variables of both sides are compared.
fn after_both<N: Naming>(
    start: usize,
    middle: usize,
    right: WalkedPattern,
    naming: &mut N,
) -> WalkedPattern {
    naming.alternative(start, middle)?;
    right
}

/// A pattern with its names replaced.
#[cycle(patterns)]
pub fn walk_pattern<N: Naming>(alloc: Global, pattern: &Pattern, naming: &mut N) -> WalkedPattern {
    match pattern {
        Pattern::Or(left, right, place) => {
            let start = naming.variables();
            let a = walk_pattern(alloc, left.get(), naming);
            let middle = naming.variables();
            naming.between(start);
            let b = walk_pattern(alloc, right.get(), naming);
            let b = after_both(start, middle, b, naming);
            or(alloc, a, b, *place)
        }
        Pattern::Seq(left, right, place) => {
            let a = walk_pattern(alloc, left.get(), naming);
            let b = walk_pattern(alloc, right.get(), naming);
            seq(alloc, a, b, *place)
        }
        Pattern::Con(module, name, parts, place) => {
            let head = naming.constructor(alloc, module.as_ref(), name, *place);
            let parts = walk_patterns(alloc, parts.as_slice(), naming);
            constructed(alloc, module, head, parts, *place)
        }
        Pattern::Star(inner, place) => {
            let start = naming.variables();
            let inner = walk_pattern(alloc, inner.get(), naming);
            naming.repeated(start);
            star(alloc, inner, *place)
        }
        Pattern::As(name, inner, place) => {
            let seen = naming.whole_variable(alloc, name, *place);
            let inner = walk_pattern(alloc, inner.get(), naming);
            named(alloc, name, seen, inner, *place)
        }
        Pattern::Fields(fields, place) => {
            let fields = walk_fields(alloc, fields.as_slice(), naming)?;
            Ok(Pattern::Fields(fields, *place))
        }
        Pattern::Tuple(parts, place) => {
            let parts = walk_patterns(alloc, parts.as_slice(), naming)?;
            Ok(Pattern::Tuple(parts, *place))
        }
        _ => walk_leaf(alloc, pattern, naming),
    }
}

#[cycle(patterns)]
fn walk_patterns<N: Naming>(
    alloc: Global,
    patterns: &[Pattern],
    naming: &mut N,
) -> Result<Items<Pattern>, NoMemory> {
    let mut all = Items::new(alloc);
    'each: for pattern in patterns {
        all.push(walk_pattern(alloc, pattern, naming)?)?;
    }
    Ok(all)
}

#[cycle(patterns)]
fn walk_fields<N: Naming>(
    alloc: Global,
    fields: &[PatternField<Pattern>],
    naming: &mut N,
) -> Result<Items<PatternField<Pattern>>, NoMemory> {
    let mut all = Items::new(alloc);
    'each: for labelled in fields {
        let start = naming.variables();
        let pattern = walk_pattern(alloc, &labelled.pattern, naming);
        if labelled.labels.len() > 1 {
            naming.doubled(start);
        }
        all.push(field(alloc, labelled, pattern)?)?;
    }
    Ok(all)
}
