//! Concrete types by number, so that equal types have equal numbers and are compared in one step.
#![tactic(auto)]

mod fitting;
mod names;
mod owned;
mod parameters;
mod records;
mod texts;
mod types;
mod wholes;

pub use fitting::Fit;
pub use names::Names;
pub use records::Labelled;
pub use types::{PARAM_SORT, STR, TYPE_SORT, Type, TypeId, Types};
pub use wholes::Wholes;
