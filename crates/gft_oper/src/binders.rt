//! How many variables a pattern binds.
use gft_core::{Name, NoMemory};
use gft_syntax::{Pattern, PatternField, Reference};
use std::alloc::Global;

/// Whether the name is among these.
fn holds(names: &[String], name: &Name) -> bool {
    for one in names {
        if one.as_str() == name.as_str() {
            return true;
        }
    }
    false
}

/// Adds a name that is not there yet.
fn add(alloc: Global, name: &Name, names: &mut Vec<String>) -> Result<(), NoMemory> {
    if holds(names.as_slice(), name) {
        return Ok(());
    }
    names.push(String::from_str(alloc, name.as_str())?)?;
    Ok(())
}

/// Adds a name that is a variable: one that is still as written.
fn add_reference(
    alloc: Global,
    reference: &Reference,
    names: &mut Vec<String>,
) -> Result<(), NoMemory> {
    match reference {
        Reference::Written(name) => add(alloc, name, names),
        Reference::Found(_) => Ok(()),
        Reference::Whole(_) => Ok(()),
    }
}

#[cycle(pattern)]
fn gather_all(
    alloc: Global,
    patterns: &[Pattern],
    names: &mut Vec<String>,
) -> Result<(), NoMemory> {
    'each: for pattern in patterns {
        gather(alloc, pattern, names)?;
    }
    Ok(())
}

#[cycle(pattern)]
fn gather_fields(
    alloc: Global,
    fields: &[PatternField<Pattern>],
    names: &mut Vec<String>,
) -> Result<(), NoMemory> {
    'each: for field in fields {
        gather(alloc, &field.pattern, names)?;
    }
    Ok(())
}

/// Adds the variables of a pattern. Both sides of an `Or` bind the same.
#[cycle(pattern)]
fn gather(alloc: Global, pattern: &Pattern, names: &mut Vec<String>) -> Result<(), NoMemory> {
    match pattern {
        Pattern::Or(left, _, _) => gather(alloc, left.get(), names),
        Pattern::Seq(left, right, _) => {
            gather(alloc, left.get(), names)?;
            gather(alloc, right.get(), names)
        }
        Pattern::Con(_, _, arguments, _) => gather_all(alloc, arguments.as_slice(), names),
        Pattern::Star(inner, _) => gather(alloc, inner.get(), names),
        Pattern::As(name, inner, _) => {
            add(alloc, name, names)?;
            gather(alloc, inner.get(), names)
        }
        Pattern::Any(_) => Ok(()),
        Pattern::One(_) => Ok(()),
        Pattern::Name(reference, _) => add_reference(alloc, reference, names),
        Pattern::Text(_, _) => Ok(()),
        Pattern::Num(_, _) => Ok(()),
        Pattern::Fields(fields, _) => gather_fields(alloc, fields.as_slice(), names),
        Pattern::Tuple(parts, _) => gather_all(alloc, parts.as_slice(), names),
    }
}

/// How many variables the pattern binds.
pub fn binders(alloc: Global, pattern: &Pattern) -> Result<u32, NoMemory> {
    let mut names = Vec::new(alloc);
    gather(alloc, pattern, &mut names)?;
    Ok(u32::try_from(names.len()).unwrap_or(u32::MAX))
}
