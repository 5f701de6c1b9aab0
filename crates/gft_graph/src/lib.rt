//! Nodes that rest on each other: the parts of their graph, and the fault that is met first.
#![tactic(auto)]

mod graph;
mod numbers;
mod parts;
mod turns;

pub use graph::Graph;
pub use numbers::{NONE, at, count, filled, put};
pub use parts::{Parts, parts_of};
pub use turns::{Firsts, firsts_of};
