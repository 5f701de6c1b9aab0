//! The tokens of a source file, or its first fault.
#![tactic(auto)]

mod letters;
mod lexemes;
mod quoted;
mod refusals;
mod sight;
mod spellings;
mod step;
mod walking;

pub use walking::lex;
