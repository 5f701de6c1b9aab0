//! Texts of commands: their limits, and notices about them.
use crate::item::{Item, push_line};
use crate::refusing::stop_at_number;
use gft_core::{NoMemory, Token};
use gft_rules::{Rule, Stop};
use std::alloc::Global;

/// The most words of a text.
const MOST_WORDS: usize = 512;

/// The most bytes of a word.
const MOST_BYTES: usize = 1_024;

/// Refuses a text that has too many words, then one with a word that is too long.
pub fn check_text(alloc: Global, words: &Vec<Token>) -> Result<(), Stop> {
    if words.len() > MOST_WORDS {
        return Err(stop_at_number(alloc, Rule::TooManyWords, words.len()));
    }
    let mut number = 0usize;
    'words: for word in words {
        number = number.saturating_add(1);
        if word.as_str().len() > MOST_BYTES {
            return Err(stop_at_number(alloc, Rule::TokenTooLong, number));
        }
    }
    Ok(())
}

/// Adds a word in quotes, with a backslash before a quote and a backslash.
fn push_quoted(out: &mut String, word: &str) -> Result<(), NoMemory> {
    out.push('"')?;
    'characters: for c in word.chars() {
        if c == '"' || c == '\\' {
            out.push('\\')?;
        }
        out.push(c)?;
    }
    out.push('"')?;
    Ok(())
}

/// Adds the line of a word in quotes.
pub fn push_word(alloc: Global, items: &mut Vec<Item>, word: &str) -> Result<(), NoMemory> {
    let mut line = String::new(alloc);
    push_quoted(&mut line, word)?;
    push_line(alloc, items, line.as_str())
}

/// Adds the notice that no sentence goes on after the word of that number, from 1.
pub fn push_failure(
    alloc: Global,
    items: &mut Vec<Item>,
    words: &[Token],
    number: u32,
) -> Result<(), NoMemory> {
    let mut line = String::from_str(alloc, "failed at word ")?;
    write!(line, "{}: ", number)?;
    if let Some(word) = words.get((number as usize).saturating_sub(1)) {
        push_quoted(&mut line, word.as_str())?;
    }
    push_line(alloc, items, line.as_str())
}
