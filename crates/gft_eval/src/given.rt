//! Values as arguments.
use crate::data::{Datum, Field, Symbol, add, number, since};
use crate::machine::Machine;
use crate::stop::Stop;
use gft_core::{Name, Sym};
use gft_syntax::{Param, Value, Whole};

impl<'a> Machine<'a> {
    /// One argument more, with this value. A recursion as deep as the value.
    pub fn give(&mut self, value: &'a Value) -> Result<(), Stop> {
        self.given(value, u32::MAX)?;
        let value = self.pop()?;
        self.args.push(value)?;
        self.stay();
        Ok(())
    }

    /// Puts a value on the stack. `left` bounds how high it is.
    #[cycle(given)]
    fn given(&mut self, value: &'a Value, left: u32) -> Result<(), Stop> {
        if left == 0 {
            return Err(Stop::Nothing); // excluded: no value is so high
        }
        match value {
            Value::Str(symbols) => self.given_string(symbols.as_slice()),
            Value::Param(one) => {
                let datum = self.given_param(one)?;
                self.push_datum(datum)
            }
            Value::Record(fields) => self.given_record(fields.as_slice(), left - 1),
            Value::Table(entries) => self.given_table(entries.as_slice(), left - 1),
        }
    }

    fn given_string(&mut self, symbols: &[Sym]) -> Result<(), Stop> {
        let from = number(self.data.symbols.len())?;
        for symbol in symbols {
            let symbol = match symbol {
                Sym::Tok(word) => self.given_word(word.as_str())?,
                Sym::Arg(argument, cell) => Symbol::Part(*argument, *cell),
            };
            self.data.symbols.push(symbol)?;
        }
        let symbols = since(from, self.data.symbols.len())?;
        self.push_datum(Datum::Text(symbols))
    }

    fn given_word(&mut self, word: &str) -> Result<Symbol, Stop> {
        let from = number(self.words.letters.len())?;
        self.words.push_text(word)?;
        Ok(Symbol::Word(self.words.word_since(from)?))
    }

    #[cycle(given)]
    fn given_record(&mut self, fields: &'a [(Name, Value)], left: u32) -> Result<(), Stop> {
        let mut count = 0u32;
        'fields: for field in fields {
            let label = add(&mut self.code.labels, &field.0)?;
            self.push(label)?;
            self.given(&field.1, left)?;
            count = count.saturating_add(1);
        }
        self.gather_fields(count)
    }

    /// A table is over a type of which the values that stand in it are known.
    #[cycle(given)]
    fn given_table(&mut self, entries: &'a [(Param, Value)], left: u32) -> Result<(), Stop> {
        let mut keys = Vec::new(self.alloc);
        let mut count = 0u32;
        'entries: for entry in entries {
            keys.push(self.given_param(&entry.0)?)?;
            self.given(&entry.1, left)?;
            count = count.saturating_add(1);
        }
        let of = self.add_keys(keys.as_slice())?;
        self.make_table(of, count)
    }

    fn add_keys(&mut self, keys: &[Datum]) -> Result<u32, Stop> {
        let from = number(self.data.all.len())?;
        for key in keys {
            self.data.all.push(*key)?;
        }
        let keys = since(from, self.data.all.len())?;
        Ok(self.types.add(None, keys)?)
    }

    #[cycle(given_params)]
    fn given_param(&mut self, param: &'a Param) -> Result<Datum, Stop> {
        match param {
            Param::Ints(one) => Ok(Datum::Number(self.code_of(*one)?)),
            Param::Con(name, args) => self.given_con(name, args.as_slice()),
            Param::Record(fields) => self.given_fields(fields.as_slice()),
        }
    }

    #[cycle(given_params)]
    fn given_con(&mut self, name: &'a Whole, args: &'a [Param]) -> Result<Datum, Stop> {
        let whole = add(&mut self.code.wholes, name)?;
        let mut count = 0u32;
        'args: for arg in args {
            let datum = self.given_param(arg)?;
            self.push_datum(datum)?;
            count = count.saturating_add(1);
        }
        Ok(Datum::Con(whole, self.gather(count)?))
    }

    #[cycle(given_params)]
    fn given_fields(&mut self, fields: &'a [(Name, Param)]) -> Result<Datum, Stop> {
        let mut made = Vec::new(self.alloc);
        'fields: for field in fields {
            let label = add(&mut self.code.labels, &field.0)?;
            let datum = self.given_param(&field.1)?;
            let value = add(&mut self.data.all, datum)?;
            made.push(Field { label, value })?;
        }
        let from = number(self.data.fields.len())?;
        for field in made.iter() {
            self.data.fields.push(*field)?;
        }
        Ok(Datum::Record(since(from, self.data.fields.len())?))
    }

    /// What the values are, each once, in the order of the scripts that lead to them.
    pub fn all_values(&mut self) -> Result<Vec<u32>, Stop> {
        let mut found = Vec::new(self.alloc);
        self.choices.begin();
        for _ in 0..u64::MAX {
            match self.value() {
                Ok(value) => self.add_new(value, &mut found)?,
                Err(Stop::Nothing) => {}
                Err(stop) => return Err(stop),
            }
            if !self.choices.advance() {
                break;
            }
        }
        Ok(found)
    }

    /// Adds a value that is not there yet.
    fn add_new(&mut self, value: u32, found: &mut Vec<u32>) -> Result<(), Stop> {
        for place in 0..found.len() {
            let one = found.get(place).copied().unwrap_or(value);
            if self.same(one, value)? {
                return Ok(());
            }
        }
        found.push(value)?;
        Ok(())
    }
}
