//! Copies: what an instance keeps of its interface, what a `with` makes of its functor.
#![tactic(auto)]

mod copying;
mod functors;
mod instances;
mod instantiating;
mod plan;
mod rebuilding;
mod replacements;

pub use instantiating::instantiate;
pub use rebuilding::{nothing, with_judgements};
pub use replacements::{Replacements, Spot, is_named};
