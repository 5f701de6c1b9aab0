//! The portable file of a grammar: one grammar has one file, and any other bytes are at fault.
#![tactic(auto)]

mod alike;
mod cases;
mod expanding;
mod fault;
mod field;
mod flaws;
mod groups;
mod items;
mod output;
mod productions;
mod reading;
mod reserved;
mod rows;
mod sequences;
mod sharing;
mod signature;
mod spelling;
mod syntax;
mod table;
mod terms;
mod trees;
mod writing;

pub use fault::{Flaw, ReadErr};
pub use reading::read;
pub use writing::write;
