//! The productions of a concrete module, from the normal forms of its judgements.
#![tactic(auto)]

mod cells;
mod compiling;
mod defaults;
mod fault;
mod judgements;
mod keeping;
mod language;
mod layout;
mod limits;
mod ranking;
mod rows;
mod signature;
mod source;
mod splitting;
mod tables;
mod words;
mod writing;

use gft_abs::check_abstract;
use gft_pmcfg::{Abstract, Concrete};
use gft_rules::Stop;
use gft_syntax::{Flat, LinTerm};
use std::alloc::Global;

/// The concrete syntax of concrete c with the distinct productions of all cases, whether a tree
/// uses them or not, in the order of files. `terms` has the normal forms of the typed `lin`,
/// `lindef` and `linref` judgements of c, in the order of their numbers. Refused are what is
/// missing and what passes a limit, which are counted before they are made, and the first stuck
/// step, in the order of an import. `check_abstract` accepts the grammar, and `typed` has what
/// typing gave for the judgements of c.
pub fn generate(
    alloc: Global,
    flat: &Flat,
    c: u32,
    terms: &Vec<LinTerm>,
) -> Result<Concrete, Stop> {
    let abs = check_abstract(alloc, flat)?;
    compiling::compiled(alloc, flat, &abs, c, terms.as_slice(), false)
}

/// The same with the productions that a tree uses alone: what `reduce` leaves of what `generate`
/// gives, but no other production is written out. `abs` is what `check_abstract` gives.
pub fn generate_used(
    alloc: Global,
    flat: &Flat,
    abs: &Abstract,
    c: u32,
    terms: &Vec<LinTerm>,
) -> Result<Concrete, Stop> {
    compiling::compiled(alloc, flat, abs, c, terms.as_slice(), true)
}
