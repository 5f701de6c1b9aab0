//! The text of trees: read with its exact faults, and written so that reading gives the tree again.
#![tactic(auto)]

mod compare;
mod error;
mod height;
mod letters;
mod level;
mod levels;
mod numbering;
mod order;
mod reader;
mod reading;
mod round;
mod seen;
mod sort;
mod writing;

pub use compare::cmp_text;
pub use error::TreeErr;
pub use height::depth;
pub use numbering::number_holes;
pub use reading::{read_tree, tree_is_spelled_once};
pub use round::print_and_read;
pub use writing::print;
