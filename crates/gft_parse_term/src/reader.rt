//! The tokens of a slice that are still to be read, and what was read of them.
use crate::halt::Halt;
use crate::plan::{Span, Step};
use gft_syntax::{Reserved, SourceToken, Symbol, TokenForm};
use std::alloc::Global;

/// How high a term may be.
const HIGHEST: u32 = 1_000;

/// A reader of a slice.
#[derive(Drop)]
pub(crate) struct Reader<'a> {
    pub alloc: Global,
    pub tokens: &'a [SourceToken],
    /// The number of the next token.
    pub at: u32,
    /// Where the slice ends.
    pub end: u32,
    /// How what was read is built.
    pub plan: Vec<Step>,
    /// The labels of the records that are open, those of the innermost last.
    pub labels: Vec<u32>,
    /// For each record that is open the number of labels before it.
    pub records: Vec<u32>,
    /// The first token that begins a term which is too high.
    pub high: Option<u32>,
}

impl<'a> Reader<'a> {
    /// The tokens from one up to another, of which nothing is read.
    pub fn new(alloc: Global, tokens: &'a [SourceToken], at: u32, end: u32) -> Reader<'a> {
        Reader {
            alloc,
            tokens,
            at,
            end,
            plan: Vec::new(alloc),
            labels: Vec::new(alloc),
            records: Vec::new(alloc),
            high: None,
        }
    }

    /// How what was read is built.
    pub fn into_plan(self) -> Vec<Step> {
        let Reader {
            alloc: _,
            tokens: _,
            at: _,
            end: _,
            plan,
            labels: _,
            records: _,
            high: _,
        } = self;
        plan
    }

    /// The form of a token further on; the next one is at 0.
    pub fn ahead(&self, n: u32) -> Option<&TokenForm> {
        let at = self.at.saturating_add(n);
        if at >= self.end {
            return None;
        }
        match self.tokens.get(at as usize) {
            None => None,
            Some(token) => Some(&token.form),
        }
    }

    /// Whether no token is left.
    pub fn is_at_end(&self) -> bool {
        self.at >= self.end
    }

    /// The symbol so many tokens further on, from 0, if one stands there.
    pub fn symbol_ahead(&self, n: u32) -> Option<Symbol> {
        match self.ahead(n) {
            Some(TokenForm::Symbol(symbol)) => Some(*symbol),
            _ => None,
        }
    }

    /// Whether the token so many further on, from 0, is that symbol.
    pub fn is_symbol(&self, n: u32, symbol: Symbol) -> bool {
        match self.symbol_ahead(n) {
            None => false,
            Some(found) => found == symbol,
        }
    }

    /// Whether the next token is that reserved word.
    pub fn is_word(&self, word: Reserved) -> bool {
        match self.ahead(0) {
            Some(TokenForm::Reserved(found)) => *found == word,
            _ => false,
        }
    }

    /// Whether the token so many further on, from 0, is a name.
    pub fn is_name(&self, n: u32) -> bool {
        matches!(self.ahead(n), Some(TokenForm::Identifier(_)))
    }

    /// Passes the next token.
    pub fn pass(&mut self) {
        self.at = self.at.saturating_add(1);
    }

    /// Whether the symbol comes next; it is then passed.
    pub fn accept(&mut self, symbol: Symbol) -> bool {
        let comes = self.is_symbol(0, symbol);
        if comes {
            self.pass();
        }
        comes
    }

    /// Whether the reserved word comes next; it is then passed.
    pub fn accept_word(&mut self, word: Reserved) -> bool {
        let comes = self.is_word(word);
        if comes {
            self.pass();
        }
        comes
    }

    /// Passes the symbol, which must come next.
    pub fn symbol(&mut self, symbol: Symbol) -> Result<(), Halt> {
        if self.accept(symbol) {
            Ok(())
        } else {
            Err(Halt::Underivable)
        }
    }

    /// Passes the reserved word, which must come next.
    pub fn word(&mut self, word: Reserved) -> Result<(), Halt> {
        if self.accept_word(word) {
            Ok(())
        } else {
            Err(Halt::Underivable)
        }
    }

    /// The number of the name that must come next, which is passed.
    pub fn name(&mut self) -> Result<u32, Halt> {
        if !self.is_name(0) {
            return Err(Halt::Underivable);
        }
        let at = self.at;
        self.pass();
        Ok(at)
    }

    /// Passes the name or `_` that must come next.
    fn bind(&mut self) -> Result<(), Halt> {
        if self.is_name(0) || self.is_symbol(0, Symbol::Underscore) {
            self.pass();
            Ok(())
        } else {
            Err(Halt::Underivable)
        }
    }

    /// I,
    pub fn names(&mut self) -> Result<Span, Halt> {
        let first = self.name()?;
        for _ in 0..u64::MAX {
            if !self.accept(Symbol::Comma) {
                break;
            }
            self.name()?;
        }
        Ok(self.since(first))
    }

    /// Bind,
    pub fn binds(&mut self) -> Result<Span, Halt> {
        let first = self.at;
        self.bind()?;
        for _ in 0..u64::MAX {
            if !self.accept(Symbol::Comma) {
                break;
            }
            self.bind()?;
        }
        Ok(self.since(first))
    }

    /// Arg*
    pub fn arguments(&mut self) -> Span {
        let first = self.at;
        for _ in 0..u64::MAX {
            if !(self.is_name(0) || self.is_symbol(0, Symbol::Underscore)) {
                break;
            }
            self.pass();
        }
        self.since(first)
    }

    /// Whether `(` Bind, `:` comes next, which begins no term.
    pub fn begins_binds(&self) -> bool {
        if !self.is_symbol(0, Symbol::LeftParenthesis) {
            return false;
        }
        self.is_symbol(1, Symbol::Underscore)
            || self.is_name(1)
                && (self.is_symbol(2, Symbol::Comma) || self.is_symbol(2, Symbol::Colon))
    }

    /// The tokens from one up to the next.
    pub fn since(&self, first: u32) -> Span {
        Span {
            first,
            end: self.at,
        }
    }

    /// One more step of the plan.
    pub fn put(&mut self, step: Step) -> Result<(), Halt> {
        self.plan.push(step)?;
        Ok(())
    }

    /// The height of a form from that of its highest part; the first form that is too high is kept.
    pub fn height_over(&mut self, below: u32, start: u32) -> u32 {
        let height = below.saturating_add(1);
        if height > HIGHEST {
            let before = self.high.unwrap_or(start);
            self.high = Some(before.min(start));
        }
        height
    }
}
