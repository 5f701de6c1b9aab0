//! Typing of the judgements of a resolved grammar: in their turns, module by module, or one alone.
#![tactic(auto)]

mod alone;
mod checking;
mod comparing;
mod fault;
mod judging;
mod linearization;
mod needs;
mod nodes;
mod opers;
mod plan;
mod references;
mod resting;
mod sequence;
mod signatures;
mod state;

pub use alone::check_judgement;
pub use checking::Checking;
