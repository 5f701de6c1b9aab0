//! Typed terms by number, and the public terms that are built from them.
#![tactic(auto)]

mod build;
mod calls;
mod node;
mod parts;
mod table;

pub use node::{Node, Part};
pub use table::Nodes;
