//! The words of a language by number, and the bytes of sequences.
use crate::rows::number;
use gft_core::{NoMemory, Sym, Token};
use gft_eval::{Machine, Range, Symbol};
use sqlite_items::Items;
use std::alloc::Global;

/// The words that were met so far, by their numbers.
#[derive(Drop)]
pub struct Words {
    all: Vec<Token>,
}

fn add_number(bytes: &mut Vec<u8>, number: u32) -> Result<(), NoMemory> {
    for byte in number.to_be_bytes() {
        bytes.push(byte)?;
    }
    Ok(())
}

impl Words {
    /// No word.
    pub fn new(alloc: Global) -> Words {
        Words {
            all: Vec::new(alloc),
        }
    }

    /// Takes the words that the machine has met since.
    pub fn follow(&mut self, machine: &Machine<'_>) -> Result<(), NoMemory> {
        for word in number(self.all.len())?..machine.word_count() {
            self.take(machine, word)?;
        }
        Ok(())
    }

    fn take(&mut self, machine: &Machine<'_>, word: u32) -> Result<(), NoMemory> {
        match machine.token(word)? {
            None => Ok(()), // excluded: the number is below the count
            Some(token) => {
                self.all.push(token)?;
                Ok(())
            }
        }
    }

    /// Adds the bytes of a symbol, as files have them.
    fn add_bytes(&self, symbol: Symbol, bytes: &mut Vec<u8>) -> Result<(), NoMemory> {
        match symbol {
            Symbol::Word(number) => self.add_word(number, bytes),
            Symbol::Part(argument, component) => {
                bytes.push(1)?;
                add_number(bytes, argument)?;
                add_number(bytes, component)
            }
        }
    }

    fn add_word(&self, number: u32, bytes: &mut Vec<u8>) -> Result<(), NoMemory> {
        let Some(token) = self.all.get(number as usize) else {
            return Ok(()); // excluded: a word has its number
        };
        let text = token.as_str().as_bytes();
        bytes.push(0)?;
        add_number(bytes, u32::try_from(text.len()).unwrap_or(u32::MAX))?;
        bytes.extend_from_slice(text)?;
        Ok(())
    }

    /// Adds the bytes of a sequence: its length, then its symbols.
    pub fn add_sequence(
        &self,
        symbols: &[Symbol],
        range: Range,
        bytes: &mut Vec<u8>,
    ) -> Result<(), NoMemory> {
        add_number(bytes, range.to.saturating_sub(range.from))?;
        for place in range.from..range.to {
            if let Some(symbol) = symbols.get(place as usize) {
                self.add_bytes(*symbol, bytes)?;
            }
        }
        Ok(())
    }

    fn push(
        &self,
        alloc: Global,
        symbol: Symbol,
        sequence: &mut Items<Sym>,
    ) -> Result<(), NoMemory> {
        match symbol {
            Symbol::Word(number) => {
                if let Some(token) = self.all.get(number as usize) {
                    sequence.push(Sym::Tok(token.copy(alloc)?))?;
                }
                Ok(()) // a word has its number
            }
            Symbol::Part(argument, component) => {
                sequence.push(Sym::Arg(argument, component))?;
                Ok(())
            }
        }
    }

    /// A sequence written out.
    pub fn sequence(
        &self,
        alloc: Global,
        symbols: &[Symbol],
        range: Range,
    ) -> Result<Items<Sym>, NoMemory> {
        let mut sequence = Items::new(alloc);
        for place in range.from..range.to {
            if let Some(symbol) = symbols.get(place as usize) {
                self.push(alloc, *symbol, &mut sequence)?;
            }
        }
        Ok(sequence)
    }
}
