//! Refusals of commands.
use gft_core::{NoMemory, Text};
use gft_rules::{Refusal, Rule, Stop};
use sqlite_items::Items;
use std::alloc::Global;

/// The refusal by a rule that carries no names. It takes no memory.
pub fn plain(alloc: Global, rule: Rule) -> Refusal {
    Refusal {
        rule,
        place: None,
        names: Items::new(alloc),
    }
}

fn named(alloc: Global, rule: Rule, names: &[&str]) -> Result<Refusal, NoMemory> {
    let mut refusal = plain(alloc, rule);
    'names: for name in names {
        refusal.names.push(Text::from_str(alloc, name)?)?;
    }
    Ok(refusal)
}

/// The stop at a rule, with the names that it carries.
pub fn stop_at(alloc: Global, rule: Rule, names: &[&str]) -> Stop {
    match named(alloc, rule, names) {
        Ok(refusal) => Stop::Refused(refusal),
        Err(_) => Stop::NoMemory,
    }
}

/// The stop at a rule that carries a number.
pub fn stop_at_number(alloc: Global, rule: Rule, number: usize) -> Stop {
    match number.to_string(alloc) {
        Ok(text) => stop_at(alloc, rule, &[text.as_str()]),
        Err(_) => Stop::NoMemory,
    }
}
