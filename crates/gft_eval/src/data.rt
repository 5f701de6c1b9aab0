//! What values are while a term runs: numbers of tables.
use gft_core::NoMemory;
use std::alloc::Global;

/// The entries of a table from one number on, up to another one, which is no longer among them.
#[derive(Clone, Copy)]
pub struct Range {
    pub from: u32,
    pub to: u32,
}

/// No entry.
pub const NONE: Range = Range { from: 0, to: 0 };

impl Range {
    /// How many entries.
    pub fn count(&self) -> u32 {
        self.to.saturating_sub(self.from)
    }

    /// The number of the entry at that place, from 0.
    pub fn at(&self, place: u32) -> u32 {
        self.from.saturating_add(place)
    }
}

/// An item of a string: a word by its number, where equal words have equal numbers, or a closed
/// part, `Part(argument, string cell)`, both from 0.
#[derive(Clone, Copy, PartialEq, Eq)]
pub enum Symbol {
    Word(u32),
    Part(u32, u32),
}

/// A field: the number of its label, and that of its value.
#[derive(Clone, Copy)]
pub struct Field {
    pub label: u32,
    pub value: u32,
}

/// A value. The fields of a record stand in byte order of their labels, the items of a table in the
/// order of the values of its type. What a value is made of has smaller numbers.
#[derive(Clone, Copy)]
pub enum Datum {
    /// A string: its symbols.
    Text(Range),
    /// A number, by its code.
    Number(u32),
    /// A constructor and the parts that are its arguments.
    Con(u32, Range),
    /// The fields of a record.
    Record(Range),
    /// The type that a table is over and the parts that are its items.
    Table(u32, Range),
    /// A parameter cell of an argument.
    Cell(u32),
}

/// The length of a table as a number. Tables end before the greatest number: past that the answer
/// is want of memory.
pub fn number(length: usize) -> Result<u32, NoMemory> {
    match u32::try_from(length) {
        Ok(number) if number < u32::MAX => Ok(number),
        _ => Err(NoMemory),
    }
}

/// The entry of that number, None past the last.
pub fn get<T: Copy>(table: &[T], place: u32) -> Option<T> {
    match table.get(place as usize) {
        Some(one) => Some(*one),
        None => None,
    }
}

/// One entry more, and its number.
pub fn add<T: Drop>(table: &mut Vec<T>, one: T) -> Result<u32, NoMemory> {
    let place = number(table.len())?;
    table.push(one)?;
    Ok(place)
}

/// The entries of a table of that length from one on.
pub fn since(from: u32, length: usize) -> Result<Range, NoMemory> {
    let to = number(length)?;
    Ok(Range { from, to })
}

/// How far the tables of values are filled.
#[derive(Clone, Copy)]
pub struct Mark {
    all: usize,
    parts: usize,
    fields: usize,
    symbols: usize,
}

/// The tables of values.
#[derive(Drop)]
pub struct Data {
    pub all: Vec<Datum>,
    pub parts: Vec<u32>,
    pub fields: Vec<Field>,
    pub symbols: Vec<Symbol>,
}

impl Data {
    /// No value.
    pub fn new(alloc: Global) -> Data {
        Data {
            all: Vec::new(alloc),
            parts: Vec::new(alloc),
            fields: Vec::new(alloc),
            symbols: Vec::new(alloc),
        }
    }

    /// The symbols of a string.
    pub fn symbols_of(&self, range: Range) -> &[Symbol] {
        let all = self.symbols.as_slice();
        all.get(range.from as usize..range.to as usize)
            .unwrap_or(&[])
    }

    /// How far the tables are filled.
    pub fn mark(&self) -> Mark {
        Mark {
            all: self.all.len(),
            parts: self.parts.len(),
            fields: self.fields.len(),
            symbols: self.symbols.len(),
        }
    }

    /// Forgets what was added since.
    pub fn cut_back(&mut self, mark: Mark) {
        self.all.truncate(mark.all);
        self.parts.truncate(mark.parts);
        self.fields.truncate(mark.fields);
        self.symbols.truncate(mark.symbols);
    }
}
