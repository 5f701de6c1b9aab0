//! Refusals of abstract judgements.
use gft_core::{NoMemory, Place, Text};
use gft_rules::{Refusal, Rule, Stop};
use sqlite_items::Items;
use std::alloc::Global;

/// A refusal without names.
pub fn nameless(alloc: Global, rule: Rule, place: Place) -> Stop {
    Stop::Refused(Refusal {
        rule,
        place: Some(place),
        names: Items::new(alloc),
    })
}

fn made(alloc: Global, rule: Rule, place: Place, name: &str) -> Result<Refusal, NoMemory> {
    let mut names = Items::new(alloc);
    names.push(Text::from_str(alloc, name)?)?;
    Ok(Refusal {
        rule,
        place: Some(place),
        names,
    })
}

/// A refusal with one name.
pub fn named(alloc: Global, rule: Rule, place: Place, name: &str) -> Stop {
    match made(alloc, rule, place, name) {
        Ok(refusal) => Stop::Refused(refusal),
        Err(_) => Stop::NoMemory,
    }
}

/// An index of another type: what was expected, and what was found.
pub fn other_type(alloc: Global, place: Place, expected: Text, found: Text) -> Stop {
    match of_types(alloc, place, expected, found) {
        Ok(refusal) => Stop::Refused(refusal),
        Err(_) => Stop::NoMemory,
    }
}

fn of_types(alloc: Global, place: Place, expected: Text, found: Text) -> Result<Refusal, NoMemory> {
    let mut names = Items::new(alloc);
    names.push(expected)?;
    names.push(found)?;
    Ok(Refusal {
        rule: Rule::IndexType,
        place: Some(place),
        names,
    })
}
