//! The rules that a refusal names, the line that a refusal is written as, and tables of numbered
//! texts.
#![tactic(auto)]

mod refusal;
mod rule;
mod table;

pub use refusal::{Refusal, Stop};
pub use rule::{Rule, rules};
pub use table::Table;
