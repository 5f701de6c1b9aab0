//! All trees of a category within a depth.
#![tactic(auto)]

mod counting;
mod depths;
mod goals;
mod heads;
mod keys;
mod listing;
mod literals;
mod space;
mod splitting;
mod tables;
mod tally;
mod walk;

pub use listing::trees;
