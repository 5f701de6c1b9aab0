//! The tokens of a header that are still to be read.
use gft_core::NoMemory;
use gft_syntax::{PlacedName, Reserved, SourceToken, Symbol, TokenForm};
use sqlite_items::Items;
use std::alloc::{AllocError, AllocFailed, Global};

/// Why a reader gives no form.
#[derive(Clone, Copy)]
pub(crate) enum Halt {
    /// The next token goes on with no form.
    Underivable,
    NoMemory,
}

impl From<NoMemory> for Halt {
    fn from(_error: NoMemory) -> Halt {
        Halt::NoMemory
    }
}

impl From<AllocError> for Halt {
    fn from(_error: AllocError) -> Halt {
        Halt::NoMemory
    }
}

impl<T: Drop> From<AllocFailed<T>> for Halt {
    fn from(_error: AllocFailed<T>) -> Halt {
        Halt::NoMemory
    }
}

/// The tokens of a slice from the next one on.
#[derive(Drop)]
pub(crate) struct Cursor<'a> {
    pub tokens: &'a [SourceToken],
    /// The number of the next token.
    pub at: usize,
    /// Where the slice ends.
    pub end: usize,
}

impl<'a> Cursor<'a> {
    /// The form of a token further on; the next one is at 0.
    fn ahead(&self, n: usize) -> Option<&TokenForm> {
        let at = self.at.saturating_add(n);
        if at >= self.end {
            return None;
        }
        match self.tokens.get(at) {
            None => None,
            Some(token) => Some(&token.form),
        }
    }

    /// Whether no token is left.
    pub fn is_at_end(&self) -> bool {
        self.at >= self.end
    }

    /// Whether the token so many further on, from 0, is that symbol.
    pub fn is_symbol(&self, n: usize, symbol: Symbol) -> bool {
        match self.ahead(n) {
            Some(TokenForm::Symbol(found)) => *found == symbol,
            _ => false,
        }
    }

    /// Whether the next token is that reserved word.
    pub fn is_word(&self, word: Reserved) -> bool {
        match self.ahead(0) {
            Some(TokenForm::Reserved(found)) => *found == word,
            _ => false,
        }
    }

    /// The reserved word that comes next, if it is one.
    pub fn next_word(&self) -> Option<Reserved> {
        match self.ahead(0) {
            Some(TokenForm::Reserved(found)) => Some(*found),
            _ => None,
        }
    }

    /// Passes the next token.
    pub fn pass(&mut self) {
        self.at = self.at.saturating_add(1);
    }

    /// Whether the symbol comes next; it is then passed.
    pub fn accept(&mut self, symbol: Symbol) -> bool {
        let comes = self.is_symbol(0, symbol);
        if comes {
            self.pass();
        }
        comes
    }

    /// Whether the reserved word comes next; it is then passed.
    pub fn accept_word(&mut self, word: Reserved) -> bool {
        let comes = self.is_word(word);
        if comes {
            self.pass();
        }
        comes
    }

    /// Passes the symbol, which must come next.
    pub fn symbol(&mut self, symbol: Symbol) -> Result<(), Halt> {
        if self.accept(symbol) {
            Ok(())
        } else {
            Err(Halt::Underivable)
        }
    }

    /// Passes the reserved word, which must come next.
    pub fn word(&mut self, word: Reserved) -> Result<(), Halt> {
        if self.accept_word(word) {
            Ok(())
        } else {
            Err(Halt::Underivable)
        }
    }

    /// The next token as a name.
    fn name_ahead(&self, alloc: Global) -> Result<PlacedName, Halt> {
        let Some(token) = self.tokens.get(self.at) else {
            return Err(Halt::Underivable);
        };
        match &token.form {
            TokenForm::Identifier(name) => Ok(PlacedName {
                name: name.copy(alloc)?,
                place: token.place,
            }),
            _ => Err(Halt::Underivable),
        }
    }

    /// I
    pub fn name(&mut self, alloc: Global) -> Result<PlacedName, Halt> {
        if self.is_at_end() {
            return Err(Halt::Underivable);
        }
        let name = self.name_ahead(alloc)?;
        self.pass();
        Ok(name)
    }

    /// I,
    pub fn names(&mut self, alloc: Global) -> Result<Items<PlacedName>, Halt> {
        let mut names = Items::new(alloc);
        for _ in 0..u64::MAX {
            names.push(self.name(alloc)?)?;
            if !self.accept(Symbol::Comma) {
                break;
            }
        }
        Ok(names)
    }
}
