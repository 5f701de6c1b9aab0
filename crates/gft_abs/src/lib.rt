//! Abstract syntax: the signatures of a resolved grammar, types of trees, and patterns solved.
#![tactic(auto)]

mod acyclic;
mod checking;
mod equality;
mod faults;
mod form;
mod graph;
mod inference;
mod judgement;
mod lacking;
mod lookup;
mod names;
mod numbers;
mod parts;
mod reader;
mod reading;
mod refused;
mod replacing;
mod signing;
mod solution;
mod solving;
mod terms;
mod text;
mod turns;
mod types;
mod typing;

pub use acyclic::is_acyclic;
pub use checking::check_abstract;
pub use inference::{Hole, Inference, SkeletonErr, arguments_of};
pub use lookup::{category_named, function_named};
pub use numbers::{NONE, at, count, filled, put};
pub use replacing::replaced;
pub use solution::tree_of;
pub use solving::{SolveErr, Solved, solve};
pub use terms::{Mark, Node, Terms};
pub use text::{show_category, show_function, show_type};
pub use types::check_types;
pub use typing::type_of;
