//! Symbols of a compiled sequence.
use crate::token::Token;

/// A word, or a component of an argument: `Arg(argument, component)`, both counted from 0.
#[derive(Debug, Drop)]
pub enum Sym {
    Tok(Token),
    Arg(u32, u32),
}
