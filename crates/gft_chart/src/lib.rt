//! The sentences of a category, read word by word, with all their runs in a packed forest.
#![tactic(auto)]

mod agenda;
mod awaiting;
mod chart;
mod count;
mod integer;
mod items;
mod look;
mod packing;
mod productive;
mod scanning;
mod tables;

pub use awaiting::{Await, Awaited};
pub use chart::Chart;
pub use tables::Tables;
