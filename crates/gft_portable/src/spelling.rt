//! How names and words are spelled. Nothing is built.
use crate::reserved::is_reserved;
use gft_core::{is_continue, is_start};
use std::str;

/// Whether the characters after the first one of an identifier are these: a lone underscore is
/// none.
fn goes_on(first: char, rest: &str) -> bool {
    (first != '_' || rest.len() > 0) && rest.chars().all(|c| is_continue(c))
}

/// Whether the text is an identifier that is no reserved word.
fn is_name(text: &str) -> bool {
    let mut rest = text.chars();
    match rest.next() {
        None => false,
        Some(first) => is_start(first) && goes_on(first, rest.as_str()) && !is_reserved(text),
    }
}

/// Whether the bytes are those of an identifier that is no reserved word.
pub fn spell_name(bytes: &[u8]) -> bool {
    match str::from_utf8(bytes) {
        Ok(text) => is_name(text),
        Err(_) => false,
    }
}

/// Whether the text is a word: it has a character, and none is white space.
fn is_word(text: &str) -> bool {
    text.len() > 0 && text.chars().all(|c| !c.is_whitespace())
}

/// Whether the bytes are visible characters of ASCII, as those of most words are.
fn are_visible(bytes: &[u8]) -> bool {
    bytes.iter().all(|byte| 33 <= *byte && *byte <= 126)
}

/// Whether the bytes are those of a word.
pub fn spell_word(bytes: &[u8]) -> bool {
    if are_visible(bytes) {
        return bytes.len() > 0;
    }
    match str::from_utf8(bytes) {
        Ok(text) => is_word(text),
        Err(_) => false,
    }
}
