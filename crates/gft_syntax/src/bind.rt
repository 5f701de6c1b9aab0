//! What lambdas, tables and arguments bind.
use gft_core::{Name, Place};

/// A variable that is bound, or `_`, which binds nothing.
#[derive(Drop)]
pub enum Bind {
    Variable(Name, Place),
    Nothing(Place),
}
