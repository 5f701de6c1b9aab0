//! The context-free approximation of a language.
#![tactic(auto)]

mod approximating;
mod lines;
mod rule;

pub use approximating::approximate;
pub use lines::show_cfg;
pub use rule::{CfName, CfRule, CfSym, Cfg};
