//! What a pattern says by itself: its variables, and how long each text is that it matches.
use gft_core::{Name, NoMemory};
use gft_syntax::{Pattern, PatternField, Reference};

/// Adds the variables of a pattern in the order in which they first stand in it, an `Or` those of
/// its left side. A recursion as deep as the pattern.
#[cycle(variables)]
pub fn variables<'a>(pattern: &'a Pattern, found: &mut Vec<&'a Name>) -> Result<(), NoMemory> {
    match pattern {
        Pattern::Or(left, _, _) => variables(left.get(), found),
        Pattern::Seq(left, right, _) => {
            variables(left.get(), found)?;
            variables(right.get(), found)
        }
        Pattern::Con(_, _, arguments, _) => variables_of_all(arguments.as_slice(), found),
        Pattern::Star(_, _) => Ok(()),
        Pattern::As(name, inner, _) => {
            found.push(name)?;
            variables(inner.get(), found)
        }
        Pattern::Name(Reference::Written(name), _) => {
            found.push(name)?;
            Ok(())
        }
        Pattern::Name(_, _) => Ok(()),
        Pattern::Fields(fields, _) => variables_of_fields(fields.as_slice(), found),
        Pattern::Tuple(items, _) => variables_of_all(items.as_slice(), found),
        Pattern::Any(_) => Ok(()),
        Pattern::One(_) => Ok(()),
        Pattern::Text(_, _) => Ok(()),
        Pattern::Num(_, _) => Ok(()),
    }
}

#[cycle(variables)]
fn variables_of_all<'a>(
    patterns: &'a [Pattern],
    found: &mut Vec<&'a Name>,
) -> Result<(), NoMemory> {
    'each: for one in patterns {
        variables(one, found)?;
    }
    Ok(())
}

#[cycle(variables)]
fn variables_of_fields<'a>(
    fields: &'a [PatternField<Pattern>],
    found: &mut Vec<&'a Name>,
) -> Result<(), NoMemory> {
    'each: for one in fields {
        variables(&one.pattern, found)?;
    }
    Ok(())
}

/// The number of characters of a text.
fn length(text: &str) -> usize {
    let mut count = 0usize;
    for _ in text.chars() {
        count = count.saturating_add(1);
    }
    count
}

/// The sum of two lengths.
fn sum(left: Option<usize>, right: Option<usize>) -> Option<usize> {
    match (left, right) {
        (Some(a), Some(b)) => Some(a.saturating_add(b)),
        _ => None,
    }
}

/// The one length of both.
fn common(left: Option<usize>, right: Option<usize>) -> Option<usize> {
    match (left, right) {
        (Some(a), Some(b)) if a == b => Some(a),
        _ => None,
    }
}

/// The number of characters of each text that the pattern matches; None where these may differ. A
/// recursion as deep as the pattern.
pub fn fixed_length(pattern: &Pattern) -> Option<usize> {
    match pattern {
        Pattern::Or(left, right, _) => {
            common(fixed_length(left.get()), fixed_length(right.get()))
        }
        Pattern::Seq(left, right, _) => sum(fixed_length(left.get()), fixed_length(right.get())),
        Pattern::As(_, inner, _) => fixed_length(inner.get()),
        Pattern::One(_) => Some(1),
        Pattern::Text(text, _) => Some(length(text.as_str())),
        Pattern::Con(_, _, _, _) => None,
        Pattern::Star(_, _) => None,
        Pattern::Any(_) => None,
        Pattern::Name(_, _) => None,
        Pattern::Num(_, _) => None,
        Pattern::Fields(_, _) => None,
        Pattern::Tuple(_, _) => None,
    }
}
