//! Refusals without a place.
use gft_core::{NoMemory, Text};
use gft_rules::{Refusal, Rule, Stop};
use sqlite_items::Items;
use std::alloc::Global;

fn named(alloc: Global, rule: Rule, names: &[&str]) -> Result<Refusal, NoMemory> {
    let mut texts = Items::new(alloc);
    'names: for name in names {
        texts.push(Text::from_str(alloc, name)?)?;
    }
    Ok(Refusal {
        rule,
        place: None,
        names: texts,
    })
}

/// The stop at a rule that has no place, with the names that it carries.
pub fn stop_at(alloc: Global, rule: Rule, names: &[&str]) -> Stop {
    match named(alloc, rule, names) {
        Ok(refusal) => Stop::Refused(refusal),
        Err(_) => Stop::NoMemory,
    }
}
