//! Evaluation of normal terms: all results of a term on values, or on arguments of which only the
//! types and some parameters are known.
#![tactic(auto)]

mod answers;
mod arguments;
mod building;
mod choices;
mod code;
mod comparing;
mod data;
mod expanding;
mod given;
mod leaves;
mod machine;
mod matching;
mod node;
mod outcomes;
mod results;
mod running;
mod slots;
mod stop;
mod texts;
mod types;
mod words;

pub use data::{Range, Symbol};
pub use machine::Machine;
pub use outcomes::{Leaf, Outcome, Outcomes};
pub use results::{EvalErr, eval};
pub use stop::Stop;
