//! Whether the named files of an import have one abstract syntax.
use crate::compiling::world_with;
use crate::equality::is_same_abstract;
use crate::named::Named;
use crate::refusing::stop_at;
use crate::world::World;
use gft_core::Text;
use gft_pmcfg::Abstract;
use gft_rules::{Rule, Stop};
use std::alloc::Global;

/// The abstract syntax of a named file.
pub fn abstract_of<'a>(
    worlds: &'a [World],
    named: &'a Named,
    place: usize,
) -> Option<&'a Abstract> {
    if let Some(portable) = named.portables.get(place) {
        if let Some(grammar) = named.grammars.get(*portable as usize) {
            return Some(&grammar.abs);
        }
    }
    match named.modules.get(place) {
        None => None,
        Some(m) => match world_with(worlds, *m) {
            None => None,
            Some(world) => world.abs.as_ref(),
        },
    }
}

/// The first of the files with another abstract syntax than that.
fn first_other(worlds: &[World], named: &Named, abs: &Abstract) -> Option<usize> {
    'places: for place in 0..named.modules.len() {
        if let Some(other) = abstract_of(worlds, named, place) {
            if !is_same_abstract(abs, other) {
                return Some(place);
            }
        }
    }
    None
}

/// Refuses a file whose abstract syntax differs from that of the first one.
pub fn compare_all(
    alloc: Global,
    worlds: &[World],
    named: &Named,
    files: &[Text],
) -> Result<(), Stop> {
    let Some(first) = abstract_of(worlds, named, 0) else {
        return Ok(()); // excluded by typing: the abstract module of a named file is typed
    };
    let Some(place) = first_other(worlds, named, first) else {
        return Ok(());
    };
    match (files.first(), files.get(place)) {
        (Some(first), Some(other)) => Err(stop_at(
            alloc,
            Rule::AbstractsDiffer,
            &[first.as_str(), other.as_str()],
        )),
        _ => Ok(()), // excluded: each place is that of a file
    }
}
