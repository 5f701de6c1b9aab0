//! What begins at a place, by the first characters there.
ghost use Rattle.std.specs.Prelude.{◌≡◌, ◌∷◌, ◌<◌, length};
ghost use Rattle.gft_lex.specs.Sights.{comment_of, long_symbol_of, name_of, short_symbol_of, token_of, sight_of, IsWithin};

use crate::letters::{begins, is_digit, is_white};
use crate::lexemes::{block_length, digits_length, line_length, name_length};
use crate::spellings::{pair, single};
use gft_syntax::Symbol;

/// What begins at a place, with the number of its characters.
#[derive(Clone, Copy)]
pub(crate) enum Sight {
    /// White space or a comment.
    Blank(usize),
    /// A comment that does not end.
    OpenComment,
    Number(usize),
    /// The quote that begins a text.
    Quote,
    Symbol(Symbol, usize),
    /// A reserved word or an identifier.
    Word(usize),
    /// No token begins so.
    Nothing,
}

/// A comment.
fn comment(first: u32, others: &[u32]) -> Option<Sight>
    ensures { result ≡ comment_of first others.now }
{
    let Some((second, rest)) = others.split_first() else {
        return None;
    };
    if first == '-' as u32 && *second == '-' as u32 {
        return Some(Sight::Blank(line_length(rest) + 2));
    }
    if first == '{' as u32 && *second == '-' as u32 {
        return Some(match block_length(rest) {
            None => Sight::OpenComment,
            Some(n) => Sight::Blank(n + 2),
        });
    }
    None
}

/// A symbol of two characters.
fn long_symbol(first: u32, others: &[u32]) -> Option<Sight>
    ensures { result ≡ long_symbol_of first others.now }
{
    let Some(second) = others.first() else {
        return None;
    };
    match pair(first, *second) {
        None => None,
        Some(symbol) => Some(Sight::Symbol(symbol, 2)),
    }
}

/// A name; an underscore alone is none.
fn name(first: u32, others: &[u32]) -> Option<Sight>
    ensures { result ≡ name_of first others.now }
{
    if !begins(first) {
        return None;
    }
    let more = name_length(others);
    if first == '_' as u32 && more == 0 {
        return None;
    }
    Some(Sight::Word(more + 1))
}

/// A symbol of one character.
fn short_symbol(first: u32) -> Sight
    ensures { result ≡ short_symbol_of first }
{
    match single(first) {
        None => Sight::Nothing,
        Some(symbol) => Sight::Symbol(symbol, 1),
    }
}

/// A token, the longest that begins so.
fn token(first: u32, others: &[u32]) -> Sight
    ensures { result ≡ token_of first others.now }
{
    if is_digit(first) {
        return Sight::Number(digits_length(others) + 1);
    }
    if first == '"' as u32 {
        return Sight::Quote;
    }
    if let Some(symbol) = long_symbol(first, others) {
        return symbol;
    }
    if let Some(word) = name(first, others) {
        return word;
    }
    short_symbol(first)
}

/// What begins at the first of the characters.
pub(crate) fn sight_at(letters: &[u32]) -> Sight
    ensures value { result ≡ sight_of letters.now }
    ensures within { IsWithin letters.now result }
{
    let Some((first, others)) = letters.split_first() else {
        return Sight::Nothing;
    };
    if is_white(*first) {
        return Sight::Blank(1);
    }
    if let Some(comment) = comment(*first, others) {
        return comment;
    }
    token(*first, others)
}
