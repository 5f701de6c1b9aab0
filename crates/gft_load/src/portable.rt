//! Portable files, read at their turn.
use crate::fetching::{PORTABLE_LIMIT, fetch};
use crate::refusing::stop_at;
use gft_io::Store;
use gft_pmcfg::Grammar;
use gft_portable::{Flaw, ReadErr, read};
use gft_rules::{Rule, Stop};
use std::alloc::Global;

/// Whether a file of this name is a portable one.
pub fn is_portable(name: &str) -> bool {
    name.ends_with(".gft")
}

/// A flaw as a refusal names it.
fn flaw_text(flaw: Flaw) -> &'static str {
    match flaw {
        Flaw::Arity => "Arity",
        Flaw::IndexType => "IndexType",
        Flaw::Unproductive => "Unproductive",
        Flaw::Unused => "Unused",
        Flaw::Unshared => "Unshared",
    }
}

/// The stop at a rule, with a file and a place in it.
fn stop_with<'a>(alloc: Global, rule: Rule, file: &'a str, place: &'a str) -> Stop {
    stop_at(alloc, rule, &[file, place])
}

/// The stop at a flaw, with a file and a place in it.
fn stop_with_flaw<'a>(alloc: Global, file: &'a str, place: &'a str, flaw: &'a str) -> Stop {
    stop_at(alloc, Rule::Invalid, &[file, place, flaw])
}

/// The stop at a fault of a file, whose place counts bytes from 0.
fn stop_in(alloc: Global, rule: Rule, file: &str, at: u32) -> Stop {
    match at.to_string(alloc) {
        Ok(place) => stop_with(alloc, rule, file, place.as_str()),
        Err(_) => Stop::NoMemory,
    }
}

/// The stop at a flaw of a grammar.
fn stop_at_flaw(alloc: Global, file: &str, flaw: Flaw, at: u32) -> Stop {
    match at.to_string(alloc) {
        Ok(place) => stop_with_flaw(alloc, file, place.as_str(), flaw_text(flaw)),
        Err(_) => Stop::NoMemory,
    }
}

fn stop_of(alloc: Global, file: &str, error: ReadErr) -> Stop {
    match error {
        ReadErr::Bad(rule, at) => stop_in(alloc, rule, file, at),
        ReadErr::Invalid(flaw, at) => stop_at_flaw(alloc, file, flaw, at),
        ReadErr::NoMemory => Stop::NoMemory,
    }
}

/// The grammar of a portable file, or its first fault.
pub fn portable<F: Store>(alloc: Global, store: &mut F, file: &str) -> Result<Grammar, Stop> {
    let bytes = fetch(alloc, store, file, PORTABLE_LIMIT)?;
    match read(alloc, &bytes) {
        Ok(grammar) => Ok(grammar),
        Err(error) => Err(stop_of(alloc, file, error)),
    }
}
