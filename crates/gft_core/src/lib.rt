//! Names, words, texts, trees and symbols of a grammar, as values that can be copied and compared.
#![tactic(auto)]

mod memory;
mod name;
mod place;
mod shared;
mod spacing;
mod symbol;
mod text;
mod token;
mod tree;

pub use memory::NoMemory;
pub use name::{Name, is_continue, is_start};
pub use place::Place;
pub use shared::Shared;
pub use spacing::{join, words, words_and_join};
pub use symbol::Sym;
pub use text::Text;
pub use token::{Token, same};
pub use tree::Tree;
