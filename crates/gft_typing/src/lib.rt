//! The types of terms, written types and patterns, against what global names mean.
#![tactic(auto)]

mod calls;
mod cover;
mod fits;
mod judgement;
mod lambdas;
mod leaf;
mod locals;
mod machine;
mod meaning;
mod members;
mod operators;
mod parameter;
mod patterns;
mod records;
mod refusing;
mod scope;
mod selection;
mod state;
mod stopped;
mod tables;
mod task;
mod terms;
mod type_forms;
mod written;

pub use judgement::Defined;
pub use meaning::{Alternative, Meaning};
pub use state::Typing;
pub use stopped::Stopped;
pub use task::Role;
