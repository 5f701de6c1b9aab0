//! The first of several faults of one rule, and the refusal of a fault.
use gft_core::{NoMemory, Place, Text};
use gft_rules::{Refusal, Rule, Stop};
use sqlite_items::Items;
use std::alloc::Global;
use std::cmp::Ordering;

/// Whether the one place stands before the other.
pub fn is_before(a: Place, b: Place) -> bool {
    if a.file != b.file {
        return a.file < b.file;
    }
    if a.line != b.line {
        return a.line < b.line;
    }
    a.col < b.col
}

/// Whether the one text comes before the other in byte order.
fn is_lower(a: &str, b: &str) -> bool {
    a.cmp(b) == Ordering::Less
}

/// The first fault of one rule that was seen: the least place, and there the least name in byte
/// order.
#[derive(Clone, Copy)]
pub struct First<'a> {
    pub place: Place,
    pub name: &'a str,
}

/// The first of a fault that was seen before, if any, and one more.
pub fn first_place<'a>(seen: Option<First<'a>>, place: Place, name: &'a str) -> Option<First<'a>> {
    match seen {
        None => Some(First { place, name }),
        Some(first) => {
            if is_before(place, first.place)
                || (place == first.place && is_lower(name, first.name))
            {
                return Some(First { place, name });
            }
            Some(first)
        }
    }
}

fn refusal(alloc: Global, rule: Rule, place: Place, names: &[&str]) -> Result<Refusal, NoMemory> {
    let mut texts = Items::new(alloc);
    'each: for name in names {
        texts.push(Text::from_str(alloc, name)?)?;
    }
    Ok(Refusal {
        rule,
        place: Some(place),
        names: texts,
    })
}

/// The refusal by a rule at a place, with the names that it carries.
pub fn refuse(alloc: Global, rule: Rule, place: Place, names: &[&str]) -> Stop {
    match refusal(alloc, rule, place, names) {
        Ok(refusal) => Stop::Refused(refusal),
        Err(_) => Stop::NoMemory,
    }
}
