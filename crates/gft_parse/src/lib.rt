//! A module out of the tokens of its file, or the first rule that a slice breaks.
#![tactic(auto)]

mod body;
mod cursor;
mod cut;
mod header;
mod inherited;
mod opened;
mod parsed;

pub use parsed::parse_module;
