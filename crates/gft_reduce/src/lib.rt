//! The productions from which some tree is derived, holes allowed.
#![tactic(auto)]

mod counting;
mod kept;

use counting::{counted, counted_closed};
use gft_core::NoMemory;
use gft_pmcfg::{Abstract, Concrete};
use std::alloc::Global;

/// The same concrete syntax with exactly the productions at the root of a run of some tree: those
/// each of whose arguments has a run. A hole counts at each nonterminal that a def has, and
/// literals always count. The time is linear in the arguments of the productions. Sequences are
/// shared.
pub fn reduce(alloc: Global, c: &Concrete, _abs: &Abstract) -> Result<Concrete, NoMemory> {
    let missing = counted(alloc, c)?;
    kept::kept(alloc, c, missing.as_slice())
}

/// The first production that `reduce` leaves out, by its place. The time is that of `reduce`.
pub fn unproductive(alloc: Global, c: &Concrete, _abs: &Abstract) -> Result<Option<u32>, NoMemory> {
    let missing = counted(alloc, c)?;
    let mut place = 0u32;
    for count in missing.as_slice() {
        if *count > 0 {
            return Ok(Some(place));
        }
        place = place.saturating_add(1);
    }
    Ok(None)
}

/// For each production whether some tree without holes has it at the root of a run. The time is
/// that of `reduce`.
pub fn closed(alloc: Global, c: &Concrete) -> Result<Vec<bool>, NoMemory> {
    let missing = counted_closed(alloc, c)?;
    let mut closed = Vec::new(alloc);
    for count in missing.as_slice() {
        closed.push(*count == 0)?;
    }
    Ok(closed)
}
