//! A run of the program: words, input and files in, replies and a status out.
#![tactic(auto)]

mod make;
mod reply;
mod running;
mod words;
mod workload;

pub use running::{Status, run};
