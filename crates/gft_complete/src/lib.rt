//! The words that may stand next.
#![tactic(auto)]

mod following;
mod places;
mod words;

pub use following::next;
pub use words::Next;
