//! Words by number, each once, and the letters of texts.
use crate::data::{Range, add, get, since};
use crate::slots::{Slots, mixed};
use gft_core::{NoMemory, Token};
use std::alloc::Global;

/// Words, each of them some letters of the table of letters.
#[derive(Drop)]
pub struct Words {
    alloc: Global,
    pub letters: Vec<char>,
    pub all: Vec<Range>,
    slots: Slots,
}

fn hash_of(letters: &[char]) -> u32 {
    let mut hash = 0u32;
    for c in letters {
        hash = mixed(hash, *c as u32);
    }
    hash
}

impl Words {
    /// No word.
    pub fn new(alloc: Global) -> Words {
        Words {
            alloc,
            letters: Vec::new(alloc),
            all: Vec::new(alloc),
            slots: Slots::new(alloc),
        }
    }

    /// The letters of a text.
    pub fn letters(&self, text: Range) -> &[char] {
        let all = self.letters.as_slice();
        all.get(text.from as usize..text.to as usize).unwrap_or(&[])
    }

    /// Whether the letter is white space.
    pub fn is_space(&self, place: u32) -> bool {
        match get(self.letters.as_slice(), place) {
            Some(letter) => letter.is_whitespace(),
            None => false,
        }
    }

    /// Adds letters.
    pub fn push_text(&mut self, text: &str) -> Result<(), NoMemory> {
        for c in text.chars() {
            self.letters.push(c)?;
        }
        Ok(())
    }

    /// Adds the letters of a word again.
    pub fn push_word(&mut self, word: u32) -> Result<(), NoMemory> {
        let Some(range) = get(self.all.as_slice(), word) else {
            return Ok(()); // excluded: words are named by their numbers
        };
        for place in range.from..range.to {
            if let Some(letter) = get(self.letters.as_slice(), place) {
                self.letters.push(letter)?;
            }
        }
        Ok(())
    }

    fn found(&self, text: Range, hash: u32) -> Option<u32> {
        for step in 0..self.slots.count() {
            let slot = self.slots.at(hash, step)?;
            if slot.hash == hash {
                let range = get(self.all.as_slice(), slot.number)?;
                if self.letters(range) == self.letters(text) {
                    return Some(slot.number);
                }
            }
        }
        None
    }

    /// The word that these letters are.
    pub fn word_of(&mut self, text: Range) -> Result<u32, NoMemory> {
        let hash = hash_of(self.letters(text));
        if let Some(word) = self.found(text, hash) {
            return Ok(word);
        }
        let word = add(&mut self.all, text)?;
        self.slots.add(self.alloc, hash, word)?;
        Ok(word)
    }

    /// The word that the letters since that place are, which are forgotten where the word was
    /// there.
    pub fn word_since(&mut self, from: u32) -> Result<u32, NoMemory> {
        let text = since(from, self.letters.len())?;
        let before = self.all.len();
        let word = self.word_of(text)?;
        if self.all.len() == before {
            self.letters.truncate(from as usize);
        }
        Ok(word)
    }

    /// The word of that number as a token, None past the last word.
    pub fn token(&self, word: u32) -> Result<Option<Token>, NoMemory> {
        let Some(range) = get(self.all.as_slice(), word) else {
            return Ok(None);
        };
        let mut text = String::new(self.alloc);
        for c in self.letters(range) {
            text.push(*c)?;
        }
        Token::new(self.alloc, text.as_str())
    }
}
