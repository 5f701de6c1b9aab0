//! Refusals of lines.
use gft_core::{NoMemory, Text};
use gft_rules::{Refusal, Rule, Stop};
use sqlite_items::Items;
use std::alloc::Global;

/// The refusal by a rule without a place, with the names.
fn refusal(rule: Rule, names: Items<Text>) -> Refusal {
    Refusal {
        rule,
        place: None,
        names,
    }
}

/// The refusal by a rule that carries no names.
pub fn plain(alloc: Global, rule: Rule) -> Refusal {
    refusal(rule, Items::new(alloc))
}

/// The refusal by a rule that carries one name.
pub fn named(alloc: Global, rule: Rule, name: &str) -> Result<Refusal, NoMemory> {
    let mut names = Items::new(alloc);
    names.push(Text::from_str(alloc, name)?)?;
    Ok(refusal(rule, names))
}

/// The stop at a rule that carries no names.
pub fn stop(alloc: Global, rule: Rule) -> Stop {
    Stop::Refused(plain(alloc, rule))
}

/// The stop at a rule that carries one name.
pub fn stop_at(alloc: Global, rule: Rule, name: &str) -> Stop {
    match named(alloc, rule, name) {
        Ok(refusal) => Stop::Refused(refusal),
        Err(NoMemory) => Stop::NoMemory,
    }
}

/// Adds an item to a list.
pub fn push<T: Drop>(list: &mut Vec<T>, item: T) -> Result<(), NoMemory> {
    list.push(item)?;
    Ok(())
}
