//! A judgement out of the tokens of a slice, or the first rule that the slice breaks.
#![tactic(auto)]

mod build;
mod halt;
mod judgement;
mod labels;
mod level;
mod pattern;
mod plan;
mod profile;
mod reader;
mod refusals;
mod slice;
mod spelling;
mod term;

pub use refusals::underivable;
pub use slice::{parse_judgement, unfinished};
