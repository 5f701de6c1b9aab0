//! Normal terms: opers, functions and their calls are taken away, and the outcomes stay.
#![tactic(auto)]

mod binders;
mod feeding;
mod machine;
mod meaning;
mod named;
mod numbers;
mod order;
mod scope;
mod table;
mod terms;
mod walk;

use gft_core::NoMemory;
use gft_syntax::{Flat, LinTerm};
use std::alloc::Global;

/// The normal form of judgement j, without opers, lambdas and applications: that of j applied to
/// one argument for each of its parameters, `Arg(0)` the first. `typed` has what typing gave for j
/// and for all that j rests on; else there is no outcome.
pub fn normal(alloc: Global, flat: &Flat, j: u32) -> Result<LinTerm, NoMemory> {
    let mut roots = Vec::new(alloc);
    roots.push(j)?;
    let mut terms = table::normal_terms(alloc, flat.typed.as_slice(), roots.as_slice())?;
    match terms.pop() {
        Some(term) => Ok(term),
        None => terms::no_outcome(alloc),
    }
}

/// The normal forms of the typed `lin`, `lindef` and `linref` judgements of concrete c, in the
/// order of their numbers. Each oper that they rest on is brought to normal form once, and its body
/// is shared.
pub fn normal_forms(alloc: Global, flat: &Flat, c: u32) -> Result<Vec<LinTerm>, NoMemory> {
    let roots = numbers::numbers_of(alloc, flat, c)?;
    table::normal_terms(alloc, flat.typed.as_slice(), roots.as_slice())
}
