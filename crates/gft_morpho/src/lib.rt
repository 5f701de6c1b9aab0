//! What words can be: the functions, cases and cells that they are.
#![tactic(auto)]

mod analysis;

pub use analysis::{Analysis, TextAnalyses, analyse, analyses};
