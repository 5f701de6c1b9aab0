//! Matches of string patterns: which parts of a text the variables of a pattern have.
#![tactic(auto)]

mod bound;
mod matching;
mod measure;
mod relation;

pub use bound::{Span, match_spans, match_str};
pub use measure::variables;
