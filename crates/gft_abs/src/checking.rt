//! An abstract module checked and numbered.
use crate::faults::first_fault;
use crate::lacking::first_lack;
use crate::names::Names;
use crate::signing::signatures;
use crate::types::check_types;
use gft_pmcfg::Abstract;
use gft_rules::Stop;
use gft_syntax::Flat;
use std::alloc::Global;

/// The abstract syntax of a resolved grammar, numbered; or the first fault of the abstract module's
/// own judgements, and then the first category or function that one which it inherits names and it
/// leaves out. Time is all but linear.
pub fn check_abstract(alloc: Global, flat: &Flat) -> Result<Abstract, Stop> {
    let names = Names::new(alloc, flat)?;
    let signatures = signatures(alloc, flat, &names)?;
    if signatures.whole && check_types(alloc, &signatures.abs)?.is_none() {
        return Ok(signatures.abs);
    }
    if let Some(refusal) = first_fault(alloc, flat, &names, &signatures)? {
        return Err(Stop::Refused(refusal));
    }
    if let Some(stop) = first_lack(alloc, flat, &names)? {
        return Err(stop);
    }
    // excluded: what could not be read, or does not fit, has a fault
    Ok(signatures.abs)
}
