//! The words of a text, and the text of words.
ghost use Rattle.std.specs.Prelude.{◌≡◌, ℕ, List, ◌∷◌, ◌++◌, IfOk, OnOk, string_bytes};
ghost use Rattle.std.specs.List.{All, flat_map};
ghost use Rattle.gft_core.specs.Words.{words_of, joined, single_spaced, IsWordInUtf8};

use crate::memory::NoMemory;
use crate::text::Text;
use crate::token::Token;
use std::alloc::Global;

/// The words of a text in order: its maximal runs of characters that `char::is_whitespace` denies.
/// One walk over the characters.
pub fn words(alloc: Global, text: &str) -> Result<Vec<Token>, NoMemory>
    ensures { IfOk result (λ found. found.items ≡ words_of text.now) }
{
    let mut found = Vec::new(alloc);
    for word in text.split_whitespace() {
        found.push(Token::from_word(alloc, word)?)?;
    }
    Ok(found)
}

/// Adds each word with a space before it.
fn push_spaced(text: &mut String, words: &[Token]) -> Result<(), NoMemory>
    ensures { OnOk result (string_bytes text.new ≡ string_bytes text.old ++ flat_map (λ w. 32 ∷ w) words.now) }
{
    for word in words {
        text.push(' ')?;
        text.push_str(word.as_str())?;
    }
    Ok(())
}

/// The words with one space between.
pub fn join(alloc: Global, words: &Vec<Token>) -> Result<Text, NoMemory>
    ensures { IfOk result (λ text. text ≡ joined words.now.items) }
{
    let Some((first, others)) = words.split_first() else {
        return Text::from_str(alloc, "");
    };
    let mut text = String::from_str(alloc, first.as_str())?;
    push_spaced(&mut text, others)?;
    Text::from_str(alloc, text.as_str())
}

/// `words` and `join` are inverse to each other up to white space. The function does nothing; its
/// clauses are the law.
pub fn words_and_join()
    ensures joined_words { (ws : List (List ℕ)) → All IsWordInUtf8 ws → words_of (joined ws) ≡ ws }
    ensures words_joined { (text : List ℕ) → joined (words_of text) ≡ single_spaced text }
{}
