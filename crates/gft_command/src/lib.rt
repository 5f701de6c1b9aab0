//! The commands of a line of the session, as they are read.
#![tactic(auto)]

mod argument;
mod command;
mod cutting;
mod line;
mod options;
mod refusing;
mod verb;

pub use command::{Argument, Command, Read};
pub use line::read_line;
pub use verb::Verb;
