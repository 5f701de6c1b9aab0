//! How many characters a comment, digits, a name or a text have.
ghost use Rattle.std.specs.Prelude.{◌≡◌, ◌≤◌, false, length, IfSome};
ghost use Rattle.std.specs.List.{prefix_len};
ghost use Rattle.gft_core.specs.Names.{continues_name};
ghost use Rattle.gft_model.specs.Source.{is_digit};
ghost use Rattle.gft_lex.specs.Lexemes.{line_length, block_on, closing_on};

use crate::letters::{continues, is_digit};

/// How many characters come before the end of the line.
pub(crate) fn line_length(letters: &[u32]) -> usize
    ensures value { result ≡ line_length letters.now }
    ensures within { result ≤ length letters.now }
{
    letters
        .iter()
        .position(|c| *c == '\n' as u32)
        .unwrap_or(letters.len())
}

/// How many characters a comment has up to its end, where there is one.
pub(crate) fn block_length(letters: &[u32]) -> Option<usize>
    ensures value { result ≡ block_on 0 false letters.now }
    ensures within { IfSome result (λ n. n ≤ length letters.now) }
{
    let mut behind_minus = false;
    'letters: for (i, c) in letters.iter().enumerate() {
        if behind_minus && *c == '}' as u32 {
            return Some(i + 1);
        }
        behind_minus = *c == '-' as u32;
    }
    None
}

/// How many digits there are at the front.
pub(crate) fn digits_length(letters: &[u32]) -> usize
    ensures value { result ≡ prefix_len is_digit letters.now }
    ensures within { result ≤ length letters.now }
{
    letters
        .iter()
        .position(|c| !is_digit(*c))
        .unwrap_or(letters.len())
}

/// How many characters there are at the front with which a name goes on.
pub(crate) fn name_length(letters: &[u32]) -> usize
    ensures value { result ≡ prefix_len continues_name letters.now }
    ensures within { result ≤ length letters.now }
{
    letters
        .iter()
        .position(|c| !continues(*c))
        .unwrap_or(letters.len())
}

/// How many characters a text has after its opening quote, up to and with the closing one, where it
/// is closed on its line.
pub(crate) fn closing(letters: &[u32]) -> Option<usize>
    ensures value { result ≡ closing_on 0 false letters.now }
    ensures within { IfSome result (λ n. n ≤ length letters.now) }
{
    let mut escaping = false;
    'letters: for (i, c) in letters.iter().enumerate() {
        if *c == '\n' as u32 {
            return None;
        }
        if escaping {
            escaping = false;
        } else if *c == '"' as u32 {
            return Some(i + 1);
        } else {
            escaping = *c == '\\' as u32;
        }
    }
    None
}
