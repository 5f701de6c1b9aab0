//! The bytes of a file as they are written.
use byteorder::{BigEndian, ByteOrder};
use gft_core::{NoMemory, Sym};
use std::alloc::Global;

/// The bytes so far.
#[derive(Drop)]
pub struct Output {
    pub bytes: Vec<u8>,
}

/// How many items there are, as a number.
pub fn count(len: usize) -> u32 {
    u32::try_from(len).unwrap_or(u32::MAX)
}

/// What stands from one place to another. It takes no memory.
pub fn part_of<T>(all: &[T], from: u32, to: u32) -> &[T] {
    all.get(from as usize..to as usize).unwrap_or(&[])
}

impl Output {
    /// No byte yet.
    pub fn new(alloc: Global) -> Output {
        Output {
            bytes: Vec::new(alloc),
        }
    }

    /// A tag.
    pub fn tag(&mut self, tag: u8) -> Result<(), NoMemory> {
        self.bytes.push(tag)?;
        Ok(())
    }

    /// Bytes as they are.
    pub fn raw(&mut self, raw: &[u8]) -> Result<(), NoMemory> {
        self.bytes.extend_from_slice(raw)?;
        Ok(())
    }

    /// A number in four bytes, the highest first.
    pub fn number(&mut self, number: u32) -> Result<(), NoMemory> {
        let mut raw = [0u8; 4];
        BigEndian::write_u32(&mut raw, number);
        self.raw(&raw)
    }

    /// How many items follow.
    pub fn many(&mut self, len: usize) -> Result<(), NoMemory> {
        self.number(count(len))
    }

    /// A text: its length in bytes, and its bytes.
    pub fn text(&mut self, text: &str) -> Result<(), NoMemory> {
        self.many(text.len())?;
        self.raw(text.as_bytes())
    }

    fn symbol(&mut self, symbol: &Sym) -> Result<(), NoMemory> {
        match symbol {
            Sym::Tok(token) => {
                self.tag(0)?;
                self.text(token.as_str())
            }
            Sym::Arg(argument, component) => {
                self.tag(1)?;
                self.number(*argument)?;
                self.number(*component)
            }
        }
    }

    /// A sequence: the number of its symbols, and the symbols.
    pub fn sequence(&mut self, symbols: &[Sym]) -> Result<(), NoMemory> {
        self.many(symbols.len())?;
        for symbol in symbols {
            self.symbol(symbol)?;
        }
        Ok(())
    }
}
