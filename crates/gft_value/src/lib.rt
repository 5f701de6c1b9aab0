//! Concrete types and parameter values: comparison, counts, values and cells in order, texts, and
//! what patterns cover.
#![tactic(auto)]

mod cell;
mod count;
mod cover;
mod label;
mod matching;
mod runs;
mod same;
mod subtype;
mod text;
mod values;

pub use cell::{cell_at, cells};
pub use count::{cell_count, count_of, is_finite};
pub use cover::uncovered;
pub use label::{tuple_label, tuple_number};
pub use matching::matches;
pub use same::{copy_param, copy_whole, field_in, same_name, same_param, same_type, same_whole};
pub use subtype::is_subtype;
pub use text::{param_text, type_text};
pub use values::{number_of, value_at, values_of};
