//! The runs of a packed forest within a depth.
#![tactic(auto)]

mod expanding;
mod least;
mod levels;
mod packed;
mod repeats;

pub use expanding::runs_within;
pub use packed::{PackedRun, PackedRuns, packed_within};
