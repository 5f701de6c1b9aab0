//! Productions that share the arguments whose parameters they do not consult.
#![tactic(auto)]

mod building;
mod encoding;
mod groups;
mod merging;
mod rows;

use gft_core::NoMemory;
use gft_pmcfg::{Coerced, Concrete};
use std::alloc::Global;

/// The same concrete syntax with shared productions. For each place of an argument, from the first
/// to the last, all productions that are alike but for the nonterminals there become one, whose
/// argument there is the group of them. `c` has its productions, defs and refs in the order of
/// files. Sequences are shared.
pub fn coerce(alloc: Global, c: &Concrete) -> Result<Coerced, NoMemory> {
    let mut groups = groups::Groups::new(alloc);
    let merged = merging::merged(alloc, c.prods.as_slice(), &mut groups)?;
    building::coerced(alloc, c, groups, merged)
}
