//! One walk over the terms, patterns and judgements of a source, which rebuilds them. What it makes
//! of names is left to a trait, so that each pass that replaces names is a small impl of it.
#![tactic(auto)]

mod heads;
mod joints;
mod judgements;
mod naming;
mod parts;
mod patterns;
mod replacing;
mod terms;

pub use judgements::walk_judgement;
pub use naming::Naming;
pub use parts::copy_placed;
pub use replacing::{Replacing, Target};
