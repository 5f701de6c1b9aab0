//! Text that a contract sees as its bytes.
ghost use Rattle.std.specs.Prelude.{◌≡◌, ℕ, List, IfOk};

use crate::memory::NoMemory;
use std::alloc::Global;
use std::marker::Model;

/// UTF-8 text; contracts see its bytes.
#[derive(Debug, Drop)]
pub struct Text {
    text: String,
}

impl Model for Text {
    ghost use Rattle.std.specs.Prelude.{ℕ, List, string_bytes};

    ghost Value = { List ℕ };

    ghost view = { λ t. string_bytes t.text };
}

impl Text {
    /// A text with these bytes, copied.
    pub fn from_str(alloc: Global, text: &str) -> Result<Text, NoMemory>
        ensures { IfOk result (λ copied. copied ≡ text.now) }
    {
        let text = String::from_str(alloc, text)?;
        Ok(Text { text })
    }

    /// The text itself. It takes no memory.
    pub fn as_str(&self) -> &str
        ensures { result.now ≡ self.now }
    {
        self.text.as_str()
    }

    /// An equal text, in memory of its own.
    pub fn copy(&self, alloc: Global) -> Result<Text, NoMemory>
        ensures { IfOk result (λ copied. copied ≡ self.now) }
    {
        Text::from_str(alloc, self.as_str())
    }
}
