//! Copies of patterns, in memory of their own.
use gft_core::{Name, NoMemory};
use gft_syntax::{Bind, Origin, Pattern, PatternField, Reference, Whole};
use sqlite_items::{Boxed, Items};
use std::alloc::Global;

fn copy_whole(alloc: Global, whole: &Whole) -> Result<Whole, NoMemory> {
    let module = whole.module.copy(alloc)?;
    let name = whole.name.copy(alloc)?;
    Ok(Whole { module, name })
}

fn copy_origin(alloc: Global, origin: &Origin) -> Result<Origin, NoMemory> {
    Ok(Origin {
        name: origin.name.copy(alloc)?,
        module: origin.module,
        judgement: origin.judgement,
    })
}

fn copy_reference(alloc: Global, reference: &Reference) -> Result<Reference, NoMemory> {
    match reference {
        Reference::Written(name) => Ok(Reference::Written(name.copy(alloc)?)),
        Reference::Found(origin) => Ok(Reference::Found(copy_origin(alloc, origin)?)),
        Reference::Whole(whole) => Ok(Reference::Whole(copy_whole(alloc, whole)?)),
    }
}

fn copy_names(alloc: Global, names: &[Name]) -> Result<Items<Name>, NoMemory> {
    let mut copied = Items::new(alloc);
    'each: for name in names {
        copied.push(name.copy(alloc)?)?;
    }
    Ok(copied)
}

fn copy_module(alloc: Global, module: &Option<Name>) -> Result<Option<Name>, NoMemory> {
    match module {
        None => Ok(None),
        Some(name) => Ok(Some(name.copy(alloc)?)),
    }
}

/// A pattern, as it was copied.
type Copied = Result<Pattern, NoMemory>;

fn boxed(alloc: Global, pattern: Copied) -> Result<Boxed<Pattern>, NoMemory> {
    Ok(Boxed::new(alloc, pattern?)?)
}

fn pair(
    alloc: Global,
    one: Copied,
    other: Copied,
) -> Result<(Boxed<Pattern>, Boxed<Pattern>), NoMemory> {
    let one = boxed(alloc, one)?;
    Ok((one, boxed(alloc, other)?))
}

/// A pattern of a form that has no patterns within.
fn copy_leaf(alloc: Global, pattern: &Pattern) -> Copied {
    match pattern {
        Pattern::One(place) => Ok(Pattern::One(*place)),
        Pattern::Name(name, place) => Ok(Pattern::Name(copy_reference(alloc, name)?, *place)),
        Pattern::Text(text, place) => Ok(Pattern::Text(text.copy(alloc)?, *place)),
        Pattern::Num(number, place) => Ok(Pattern::Num(*number, *place)),
        Pattern::Any(place) => Ok(Pattern::Any(*place)),
        // excluded by copy_pattern: each other form has patterns within
        Pattern::Or(_, _, place) => Ok(Pattern::Any(*place)),
        Pattern::Seq(_, _, place) => Ok(Pattern::Any(*place)),
        Pattern::Con(_, _, _, place) => Ok(Pattern::Any(*place)),
        Pattern::Star(_, place) => Ok(Pattern::Any(*place)),
        Pattern::As(_, _, place) => Ok(Pattern::Any(*place)),
        Pattern::Fields(_, place) => Ok(Pattern::Any(*place)),
        Pattern::Tuple(_, place) => Ok(Pattern::Any(*place)),
    }
}

/// An equal pattern.
#[cycle(copies)]
pub fn copy_pattern(alloc: Global, pattern: &Pattern) -> Copied {
    match pattern {
        Pattern::Or(left, right, place) => {
            let left = copy_pattern(alloc, left.get());
            let right = copy_pattern(alloc, right.get());
            let both = pair(alloc, left, right)?;
            Ok(Pattern::Or(both.0, both.1, *place))
        }
        Pattern::Seq(left, right, place) => {
            let left = copy_pattern(alloc, left.get());
            let right = copy_pattern(alloc, right.get());
            let both = pair(alloc, left, right)?;
            Ok(Pattern::Seq(both.0, both.1, *place))
        }
        Pattern::Con(module, name, parts, place) => {
            let parts = copy_patterns(alloc, parts.as_slice())?;
            let name = copy_reference(alloc, name)?;
            Ok(Pattern::Con(copy_module(alloc, module)?, name, parts, *place))
        }
        Pattern::Star(inner, place) => {
            let inner = copy_pattern(alloc, inner.get());
            Ok(Pattern::Star(boxed(alloc, inner)?, *place))
        }
        Pattern::As(name, inner, place) => {
            let inner = copy_pattern(alloc, inner.get());
            let inner = boxed(alloc, inner)?;
            Ok(Pattern::As(name.copy(alloc)?, inner, *place))
        }
        Pattern::Fields(fields, place) => {
            let fields = copy_fields(alloc, fields.as_slice())?;
            Ok(Pattern::Fields(fields, *place))
        }
        Pattern::Tuple(parts, place) => {
            let parts = copy_patterns(alloc, parts.as_slice())?;
            Ok(Pattern::Tuple(parts, *place))
        }
        _ => copy_leaf(alloc, pattern),
    }
}

#[cycle(copies)]
fn copy_patterns(alloc: Global, patterns: &[Pattern]) -> Result<Items<Pattern>, NoMemory> {
    let mut copied = Items::new(alloc);
    'each: for pattern in patterns {
        copied.push(copy_pattern(alloc, pattern)?)?;
    }
    Ok(copied)
}

fn copy_field(
    alloc: Global,
    field: &PatternField<Pattern>,
    pattern: Copied,
) -> Result<PatternField<Pattern>, NoMemory> {
    let pattern = pattern?;
    let labels = copy_names(alloc, field.labels.as_slice())?;
    Ok(PatternField { labels, pattern })
}

#[cycle(copies)]
fn copy_fields(
    alloc: Global,
    fields: &[PatternField<Pattern>],
) -> Result<Items<PatternField<Pattern>>, NoMemory> {
    let mut copied = Items::new(alloc);
    'each: for field in fields {
        let pattern = copy_pattern(alloc, &field.pattern);
        copied.push(copy_field(alloc, field, pattern)?)?;
    }
    Ok(copied)
}

/// The pattern that binds what is bound.
pub fn bound_pattern(alloc: Global, bind: &Bind) -> Copied {
    match bind {
        Bind::Variable(name, place) => {
            Ok(Pattern::Name(Reference::Written(name.copy(alloc)?), *place))
        }
        Bind::Nothing(place) => Ok(Pattern::Any(*place)),
    }
}
