//! The patterns of a text.
#![tactic(auto)]

mod entry;
mod found;
mod listing;
mod patterns;
mod spelling;

pub use entry::{Entry, Form, tree_of};
pub use listing::{Entries, Listing, Tables, entries_with, list, list_with};
