//! The resolved grammar of some modules: all judgements that count, under their whole names.
#![tactic(auto)]

mod abstracts;
mod declarations;
mod entries;
mod flattening;
mod instances;
mod kinds;
mod languages;
mod start;
mod texts;

pub use flattening::flatten;
pub use kinds::{Kind, kind_of, linearized};
