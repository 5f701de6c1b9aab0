//! Closed well-typed instances of patterns, found by unification.
#![tactic(auto)]

mod filling;
mod goals;
mod least;
mod search;
mod shapes;
mod tables;

pub use filling::{can_fill, fill};
pub use tables::Tables;
