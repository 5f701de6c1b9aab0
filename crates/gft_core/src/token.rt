//! Words of a text.
ghost use Rattle.std.specs.Prelude.{◌≡◌, ℕ, List, IfOk, Option, Some, None, if◌then◌else◌};
ghost use Rattle.std.specs.Prelude.{◌↔◌, IsTrue};
ghost use Rattle.gft_core.specs.Words.{IsWord, is_word};
ghost use Rattle.std.specs.Char.{is_not_whitespace};
ghost use Rattle.std.specs.List.{list_all};
ghost use Rattle.std.specs.Str.{chars};

use crate::memory::NoMemory;
use std::alloc::Global;
use std::marker::Model;

/// One word: text that is not empty and has no white space. Contracts see its bytes.
#[derive(Debug, Drop)]
pub struct Token {
    text: String,
}

impl Model for Token {
    ghost use Rattle.std.specs.Prelude.{ℕ, List, string_bytes};
    ghost use Rattle.gft_core.specs.Words.{IsWord};

    ghost Value = { List ℕ };

    ghost view = { λ t. string_bytes t.text };

    ghost invariant = { λ t. IsWord (string_bytes t.text) };
}

/// Whether no character of the text is white space.
fn solid(text: &str) -> bool
    ensures { result ≡ list_all is_not_whitespace (chars text.now) }
{
    text.chars().all(|c| !c.is_whitespace())
}

/// Whether the text is one word.
fn is_word(text: &str) -> bool
    ensures { result ≡ is_word text.now }
{
    !text.is_empty() && solid(text)
}

impl Token {
    /// The word that the text is.
    pub(crate) fn from_word(alloc: Global, text: &str) -> Result<Token, NoMemory>
        requires { IsWord text.now }
        ensures { IfOk result (λ token. token ≡ text.now) }
    {
        let text = String::from_str(alloc, text)?;
        Ok(Token { text })
    }

    /// The word that the text is. None where the text is empty or has white space.
    pub fn new(alloc: Global, text: &str) -> Result<Option<Token>, NoMemory>
        ensures { IfOk result (λ token. token ≡ (if is_word text.now then Some text.now else None)) }
    {
        if !is_word(text) {
            return Ok(None);
        }
        Ok(Some(Token::from_word(alloc, text)?))
    }

    /// The text itself. It takes no memory.
    pub fn as_str(&self) -> &str
        ensures text { result.now ≡ self.now }
        ensures word { IsWord self.now }
    {
        self.text.as_str()
    }

    /// An equal word, in memory of its own.
    pub fn copy(&self, alloc: Global) -> Result<Token, NoMemory>
        ensures { IfOk result (λ copied. copied ≡ self.now) }
    {
        Token::from_word(alloc, self.text.as_str())
    }
}

/// Whether two words have equal bytes. It takes no memory.
pub fn same(a: &Token, b: &Token) -> bool
    ensures { IsTrue result ↔ (a.now ≡ b.now) }
{
    a.as_str() == b.as_str()
}
