//! Strings put together, glued and taken apart.
use crate::data::{Datum, Range, Symbol, add, get, number, since};
use crate::machine::Machine;
use crate::stop::Stop;
use gft_core::{NoMemory, Place};
use gft_syntax::Predef;

/// From where to where the part goes, of so many characters.
fn part(which: Predef, count: u32, length: u32) -> (u32, u32) {
    let rest = length.saturating_sub(count);
    match which {
        Predef::Take => (0, count),
        Predef::Drop => (count, length),
        Predef::Tk => (0, rest),
        Predef::Dp => (rest, length),
    }
}

impl<'a> Machine<'a> {
    /// The symbols of a string.
    pub fn string(&self, value: u32) -> Result<Range, Stop> {
        match self.datum(value)? {
            Datum::Text(symbols) => Ok(symbols),
            _ => Err(Stop::Nothing), // excluded by typing
        }
    }

    fn symbol(&self, place: u32) -> Result<Symbol, Stop> {
        match get(self.data.symbols.as_slice(), place) {
            Some(symbol) => Ok(symbol),
            None => Err(Stop::Nothing), // excluded: the symbols of a string were made
        }
    }

    /// Adds the symbols once more.
    fn push_symbols(&mut self, symbols: Range) -> Result<(), Stop> {
        for place in symbols.from..symbols.to {
            let symbol = self.symbol(place)?;
            self.data.symbols.push(symbol)?;
        }
        Ok(())
    }

    /// Puts the string of the symbols since that place on the stack.
    fn push_since(&mut self, from: u32) -> Result<(), Stop> {
        let symbols = since(from, self.data.symbols.len())?;
        self.push_datum(Datum::Text(symbols))
    }

    /// Puts the string of the words of a literal on the stack.
    pub fn push_words(&mut self, words: Range) -> Result<(), Stop> {
        let from = number(self.data.symbols.len())?;
        for place in words.from..words.to {
            if let Some(word) = get(self.code.literals.as_slice(), place) {
                self.data.symbols.push(Symbol::Word(word))?;
            }
        }
        self.push_since(from)
    }

    /// `a ++ b`. Where the symbols of a are the last ones, those of b are added to them.
    pub fn concat(&mut self, left: u32, right: u32) -> Result<(), Stop> {
        let ours = self.string(left)?;
        let theirs = self.string(right)?;
        if ours.count() == 0 {
            return self.push(right);
        }
        if theirs.count() == 0 {
            return self.push(left);
        }
        let end = number(self.data.symbols.len())?;
        if ours.to == end {
            self.push_symbols(theirs)?;
            return self.push_since(ours.from);
        }
        self.push_symbols(ours)?;
        self.push_symbols(theirs)?;
        self.push_since(end)
    }

    /// Whether a string holds words only.
    fn is_known(&self, symbols: Range) -> bool {
        for symbol in self.data.symbols_of(symbols) {
            if matches!(symbol, Symbol::Part(_, _)) {
                return false;
            }
        }
        true
    }

    /// `a + b`: the last word of a and the first of b become one.
    pub fn glue(&mut self, left: u32, right: u32, place: Place) -> Result<(), Stop> {
        let ours = self.string(left)?;
        let theirs = self.string(right)?;
        if !self.is_known(ours) || !self.is_known(theirs) {
            return Err(Stop::Glue(place));
        }
        if ours.count() == 0 {
            return self.push(right);
        }
        if theirs.count() == 0 {
            return self.push(left);
        }
        let last = ours.to.saturating_sub(1);
        let middle = self.joined(last, theirs.from)?;
        let from = number(self.data.symbols.len())?;
        self.push_symbols(Range {
            from: ours.from,
            to: last,
        })?;
        self.data.symbols.push(Symbol::Word(middle))?;
        self.push_symbols(Range {
            from: theirs.from.saturating_add(1),
            to: theirs.to,
        })?;
        self.push_since(from)
    }

    fn push_letters(&mut self, symbol: Symbol) -> Result<(), NoMemory> {
        match symbol {
            Symbol::Word(word) => self.words.push_word(word),
            Symbol::Part(_, _) => Ok(()), // excluded: the string holds words only
        }
    }

    /// The word of the letters of two words, given as symbols.
    fn joined(&mut self, left: u32, right: u32) -> Result<u32, Stop> {
        let left = self.symbol(left)?;
        let right = self.symbol(right)?;
        let from = number(self.words.letters.len())?;
        self.push_letters(left)?;
        self.push_letters(right)?;
        Ok(self.words.word_since(from)?)
    }

    /// The letters of a string's text, one space between two words; None where it holds a closed
    /// part.
    pub fn text_of(&mut self, symbols: Range) -> Result<Option<Range>, Stop> {
        if !self.is_known(symbols) {
            return Ok(None);
        }
        if symbols.count() == 1 {
            if let Symbol::Word(word) = self.symbol(symbols.from)? {
                return Ok(get(self.words.all.as_slice(), word));
            }
        }
        let from = number(self.words.letters.len())?;
        for place in symbols.from..symbols.to {
            if place > symbols.from {
                self.words.letters.push(' ')?;
            }
            let symbol = self.symbol(place)?;
            self.push_letters(symbol)?;
        }
        Ok(Some(since(from, self.words.letters.len())?))
    }

    /// Adds the word that goes from one letter to another, where there is a letter.
    fn add_word(&mut self, from: u32, to: u32) -> Result<(), NoMemory> {
        if from >= to {
            return Ok(());
        }
        let word = self.words.word_of(Range { from, to })?;
        self.data.symbols.push(Symbol::Word(word))?;
        Ok(())
    }

    /// The string of a text's words.
    pub fn string_of(&mut self, text: Range) -> Result<u32, NoMemory> {
        let from = number(self.data.symbols.len())?;
        let mut begin = text.from;
        for place in text.from..text.to {
            if self.words.is_space(place) {
                self.add_word(begin, place)?;
                begin = place.saturating_add(1);
            }
        }
        self.add_word(begin, text.to)?;
        let symbols = since(from, self.data.symbols.len())?;
        add(&mut self.data.all, Datum::Text(symbols))
    }

    /// A number of characters, the length of the text where it is greater.
    fn characters(&self, value: u32, length: u32) -> Result<u32, Stop> {
        match self.datum(self.resolved(value)?)? {
            Datum::Number(code) => {
                let number = self.number_of(code).min(u128::from(length));
                Ok(u32::try_from(number).unwrap_or(length))
            }
            _ => Err(Stop::Nothing), // excluded by typing
        }
    }

    /// The part of a string's text that a `Predef` function names.
    pub fn predef(
        &mut self,
        which: Predef,
        count: u32,
        string: u32,
        place: Place,
    ) -> Result<(), Stop> {
        let symbols = self.string(string)?;
        let Some(text) = self.text_of(symbols)? else {
            return Err(Stop::Match(place));
        };
        let count = self.characters(count, text.count())?;
        let (from, to) = part(which, count, text.count());
        let value = self.string_of(Range {
            from: text.at(from),
            to: text.at(to),
        })?;
        self.push(value)
    }
}
