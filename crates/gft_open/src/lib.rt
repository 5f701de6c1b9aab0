//! What names mean: each name of a module with its origin.
#![tactic(auto)]

mod faults;
mod naming;
mod resolver;
mod resolving;
mod rules;
mod scope;
mod variables;

pub use resolving::{flatten, resolve};
