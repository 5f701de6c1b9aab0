//! Characters of a token that is being read.
ghost use Rattle.std.specs.Prelude.{◌≡◌, [], ◌∷◌, ◌++◌, IfOk};
ghost use Rattle.gft_tree.specs.Words.{name_of, word_of};

use gft_core::{Name, NoMemory, Token};
use std::alloc::Global;
use std::marker::Model;

/// Characters in order; contracts see them as numbers.
#[derive(Debug, Drop)]
pub struct Letters {
    text: String,
}

impl Model for Letters {
    ghost use Rattle.std.specs.Prelude.{ℕ, List, string_bytes};
    ghost use Rattle.std.specs.Str.{chars};

    ghost Value = { List ℕ };

    ghost view = { λ s. chars (string_bytes s.text) };
}

impl Letters {
    /// No characters. It takes no memory.
    pub fn new(alloc: Global) -> Letters
        ensures { result ≡ [] }
    {
        Letters {
            text: String::new(alloc),
        }
    }

    /// These characters and one more.
    pub fn and(self, c: char) -> Result<Letters, NoMemory>
        ensures { IfOk result (λ letters. letters ≡ self ++ c ∷ []) }
    {
        let Letters { mut text } = self;
        text.push(c)?;
        Ok(Letters { text })
    }

    /// The identifier that the characters are.
    pub fn name(&self, alloc: Global) -> Result<Option<Name>, NoMemory>
        ensures { IfOk result (λ name. name ≡ name_of self.now) }
    {
        Name::new(alloc, self.text.as_str())
    }

    /// The word that the characters are.
    pub fn word(&self, alloc: Global) -> Result<Option<Token>, NoMemory>
        ensures { IfOk result (λ word. word ≡ word_of self.now) }
    {
        Token::new(alloc, self.text.as_str())
    }
}
