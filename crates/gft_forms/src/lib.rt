//! Terms of the source language by number, so that what walks over them hands on numbers alone.
#![tactic(auto)]

mod copies;
mod form;
mod laying;
mod lists;
mod table;

pub use form::{Binding, Branch, Form, Item, Span};
pub use table::Forms;
