//! The fields of a file, read in order.
use crate::fault::ReadErr;
use crate::output::count;
use crate::spelling::{spell_name, spell_word};
use gft_core::{Name, Token};
use gft_rules::Rule;
use std::alloc::Global;
use std::cmp::Ordering;
use std::str;

/// A part of the file: its first byte, and the byte after its last. A file has fewer than 2^32
/// bytes.
#[derive(Clone, Copy)]
pub struct Span {
    pub from: u32,
    pub to: u32,
}

/// The bytes of a file, and how many of them were read.
#[derive(Drop)]
pub struct Reader<'a> {
    bytes: &'a [u8],
    at: usize,
}

/// The fault of a rule at a place.
pub fn bad(rule: Rule, at: u32) -> ReadErr {
    ReadErr::Bad(rule, at)
}

impl<'a> Reader<'a> {
    /// Nothing read yet.
    pub fn new(bytes: &'a [u8]) -> Reader<'a> {
        Reader { bytes, at: 0 }
    }

    /// How many bytes were read.
    pub fn at(&self) -> u32 {
        count(self.at)
    }

    /// How many bytes the file has.
    pub fn len(&self) -> usize {
        self.bytes.len()
    }

    /// Whether bytes are left.
    pub fn has_more(&self) -> bool {
        self.at < self.bytes.len()
    }

    /// The bytes of a part that was read.
    pub fn part(&self, span: Span) -> &'a [u8] {
        self.bytes
            .get(span.from as usize..span.to as usize)
            .unwrap_or(&[])
    }

    /// A field of so many bytes.
    pub fn taken(&mut self, len: usize) -> Result<&'a [u8], ReadErr> {
        let from = self.at;
        let Some(to) = from.checked_add(len) else {
            return Err(bad(Rule::Short, count(from)));
        };
        let Some(part) = self.bytes.get(from..to) else {
            return Err(bad(Rule::Short, count(from)));
        };
        self.at = to;
        Ok(part)
    }

    /// A number of four bytes, the highest first.
    pub fn number(&mut self) -> Result<u32, ReadErr> {
        let at = self.at();
        match self.taken(4)? {
            [a, b, c, d] => Ok(u32::from_be_bytes([*a, *b, *c, *d])),
            _ => Err(bad(Rule::Short, at)), // four bytes were taken
        }
    }

    /// A number below a limit.
    pub fn below(&mut self, limit: u32) -> Result<u32, ReadErr> {
        let at = self.at();
        let number = self.number()?;
        if number >= limit {
            return Err(bad(Rule::BadNumber, at));
        }
        Ok(number)
    }

    /// A tag.
    pub fn tag(&mut self) -> Result<u8, ReadErr> {
        let at = self.at();
        match self.taken(1)? {
            [tag] => Ok(*tag),
            _ => Err(bad(Rule::Short, at)), // one byte was taken
        }
    }

    /// An integer of sixteen bytes, the highest first.
    pub fn integer(&mut self) -> Result<Span, ReadErr> {
        let from = self.at();
        self.taken(16)?;
        let to = self.at();
        Ok(Span { from, to })
    }

    /// The integer that stands at a part, where one was read.
    pub fn integer_at(&self, span: Span) -> u128 {
        let mut raw = [0u8; 16];
        let part = self.part(span);
        for place in 0..16usize {
            if let Some(byte) = part.get(place) {
                raw[place] = *byte;
            }
        }
        u128::from_be_bytes(raw)
    }

    /// The bytes of a text, after their number.
    fn text(&mut self) -> Result<Span, ReadErr> {
        let len = self.number()?;
        let from = self.at();
        self.taken(len as usize)?;
        let to = self.at();
        Ok(Span { from, to })
    }

    /// The text that stands at a part.
    fn text_at(&self, span: Span) -> Result<&'a str, ReadErr> {
        match str::from_utf8(self.part(span)) {
            Ok(text) => Ok(text),
            Err(_) => Err(bad(Rule::BadText, span.from)),
        }
    }

    /// A name. It takes no memory.
    pub fn name(&mut self) -> Result<Span, ReadErr> {
        let span = self.text()?;
        if !spell_name(self.part(span)) {
            return Err(bad(Rule::BadText, span.from));
        }
        Ok(span)
    }

    /// A token. It takes no memory.
    pub fn token(&mut self) -> Result<Span, ReadErr> {
        let span = self.text()?;
        if !spell_word(self.part(span)) {
            return Err(bad(Rule::BadText, span.from));
        }
        Ok(span)
    }

    /// The identifier that stands at a part, where one was read.
    pub fn name_at(&self, alloc: Global, span: Span) -> Result<Name, ReadErr> {
        match Name::new(alloc, self.text_at(span)?)? {
            None => Err(bad(Rule::BadText, span.from)),
            Some(name) => Ok(name),
        }
    }

    /// The word that stands at a part, where one was read.
    pub fn token_at(&self, alloc: Global, span: Span) -> Result<Token, ReadErr> {
        match Token::new(alloc, self.text_at(span)?)? {
            None => Err(bad(Rule::BadText, span.from)),
            Some(token) => Ok(token),
        }
    }

    /// Whether the one part has the lower bytes.
    pub fn is_lower(&self, one: Span, other: Span) -> bool {
        self.part(one).cmp(self.part(other)) == Ordering::Less
    }
}
