//! What stands in a text between quotes.
ghost use Rattle.std.specs.Prelude.{◌≡◌, [], IfOk, false};
ghost use Rattle.gft_model.specs.Source.{escaped};
ghost use Rattle.gft_lex.specs.Texts.{reading, IsReadWithin};

use gft_core::{NoMemory, Text};
use std::alloc::Global;

/// What a text is read as, counted from after its opening quote.
#[derive(Drop)]
pub(crate) enum Reading {
    /// What it stands for, and how many characters it has with its closing quote.
    Closed(Text, usize),
    /// The character after a backslash that stands for nothing, and its place.
    BadEscape(usize, char),
    /// The place of what is no character.
    Broken(usize),
    /// It is not closed.
    Open,
}

/// What a backslash and the character stand for.
fn escaped(c: char) -> Option<char>
    ensures { result ≡ escaped c }
{
    match c {
        '"' => Some('"'),
        '\\' => Some('\\'),
        'n' => Some('\n'),
        't' => Some('\t'),
        _ => None,
    }
}

/// Reads a text after its opening quote, up to its first fault.
pub(crate) fn read_text(alloc: Global, letters: &[u32]) -> Result<Reading, NoMemory>
    ensures value { IfOk result (λ r. r ≡ reading false 0 [] letters.now) }
    ensures within { IfOk result (IsReadWithin letters.now) }
{
    let mut text = String::new(alloc);
    let mut escaping = false;
    'letters: for (i, letter) in letters.iter().enumerate() {
        let Some(c) = char::from_u32(*letter) else {
            return Ok(Reading::Broken(i));
        };
        if escaping {
            let Some(meant) = escaped(c) else {
                return Ok(Reading::BadEscape(i, c));
            };
            text.push(meant)?;
            escaping = false;
        } else if c == '"' {
            return Ok(Reading::Closed(Text::from_str(alloc, text.as_str())?, i + 1));
        } else if c == '\\' {
            escaping = true;
        } else {
            text.push(c)?;
        }
    }
    Ok(Reading::Open)
}
