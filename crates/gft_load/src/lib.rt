//! The grammar of an import, or the first refusal in the order of import.
#![tactic(auto)]

mod comparing;
mod compiling;
mod equality;
mod fetching;
mod importing;
mod joining;
mod loading;
mod named;
mod naming;
mod portable;
mod refusing;
mod table;
mod typing;
mod world;

pub use equality::is_same_abstract;
pub use importing::{ImportErr, load_grammar};
