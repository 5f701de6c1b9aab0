//! The characters of a file as numbers.
ghost use Rattle.std.specs.Prelude.{◌≡◌, IfOk, take};
ghost use Rattle.std.specs.Char.{is_whitespace};
ghost use Rattle.std.specs.Str.Lossy.{utf8_valid_len};
ghost use Rattle.gft_core.specs.Names.{begins_name, continues_name};
ghost use Rattle.gft_lex.specs.Lexemes.{is_character};
ghost use Rattle.gft_model.specs.Source.{is_digit};
ghost use Rattle.gft_model.specs.TokenFaults.{loose, text_of};

use gft_core::{NoMemory, is_continue, is_start};
use std::alloc::Global;

/// Past all characters.
const NO_CHARACTER: u32 = 1_114_112;

/// What a byte that is read alone stands as: itself, where it is a character, or a number past all
/// characters.
fn loose(byte: u8) -> u32
    ensures { result ≡ loose byte }
{
    if byte < 128 {
        byte as u32
    } else {
        NO_CHARACTER + byte as u32
    }
}

/// The longest text at the front.
fn text_at_front(bytes: &[u8]) -> &str
    ensures { result.now ≡ take (utf8_valid_len bytes.now) bytes.now }
{
    match bytes.utf8_chunks().next() {
        None => "",
        Some(chunk) => chunk.valid(),
    }
}

/// The characters of a file. From the first byte on that begins none, its bytes are read one by
/// one.
pub(crate) fn letters_of(alloc: Global, bytes: &[u8]) -> Result<Vec<u32>, NoMemory>
    ensures { IfOk result (λ letters. letters.items ≡ text_of bytes.now) }
{
    let text = text_at_front(bytes);
    let rest = bytes.split_at(text.len()).1;
    let mut letters = Vec::new(alloc);
    'characters: for c in text.chars() {
        letters.push(c as u32)?;
    }
    'bytes: for byte in rest {
        letters.push(loose(*byte))?;
    }
    Ok(letters)
}

/// Whether the number is a character.
pub(crate) fn is_character(letter: u32) -> bool
    ensures { result ≡ is_character letter }
{
    char::from_u32(letter).is_some()
}

/// Whether the number is white space.
pub(crate) fn is_white(letter: u32) -> bool
    ensures { result ≡ is_whitespace letter }
{
    match char::from_u32(letter) {
        None => false,
        Some(c) => c.is_whitespace(),
    }
}

/// Whether the number is an ASCII digit.
pub(crate) fn is_digit(letter: u32) -> bool
    ensures { result ≡ is_digit letter }
{
    '0' as u32 <= letter && letter <= '9' as u32
}

/// Whether a name may begin with it.
pub(crate) fn begins(letter: u32) -> bool
    ensures { result ≡ begins_name letter }
{
    match char::from_u32(letter) {
        None => false,
        Some(c) => is_start(c),
    }
}

/// Whether a name may go on with it.
pub(crate) fn continues(letter: u32) -> bool
    ensures { result ≡ continues_name letter }
{
    match char::from_u32(letter) {
        None => false,
        Some(c) => is_continue(c),
    }
}
