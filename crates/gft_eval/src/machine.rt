//! The machine that runs a term, and what it knows of the parameters of arguments.
use crate::choices::Choices;
use crate::code::Code;
use crate::data::{Data, Datum, Mark, add, get};
use crate::node::Task;
use crate::stop::Stop;
use crate::types::Types;
use crate::words::Words;
use gft_core::{NoMemory, Token};
use gft_syntax::LinTerm;
use std::alloc::Global;

/// A parameter cell of an argument: its type, and its value by number where it is known.
#[derive(Clone, Copy)]
pub struct Cell {
    pub of: u32,
    pub known: Option<u32>,
}

/// How far the tables are filled by what stays from one term to the next: the values of types, with
/// the labels and constructors that they speak of.
#[derive(Clone, Copy)]
pub struct Kept {
    pub data: Mark,
    pub labels: usize,
    pub wholes: usize,
}

/// Runs one term after another. Terms and types are those of one grammar. It keeps nothing but
/// numbers and references, so it lets go of no term.
#[derive(Drop)]
pub struct Machine<'a> {
    pub alloc: Global,
    pub words: Words,
    pub data: Data,
    pub types: Types<'a>,
    pub code: Code<'a>,
    pub choices: Choices,
    pub cells: Vec<Cell>,
    pub args: Vec<u32>,
    /// How many string cells of the next argument there are so far.
    pub strings: u32,
    /// Numbers that are too great to be their own codes.
    pub larges: Vec<u128>,
    pub tasks: Vec<Task>,
    pub stack: Vec<u32>,
    /// The values of the variables, the innermost last.
    pub env: Vec<u32>,
    /// Values that are to be compared.
    pub pairs: Vec<(u32, u32)>,
    pub kept: Kept,
    /// How far the tables are filled at the beginning of a run.
    pub base: Mark,
}

impl<'a> Machine<'a> {
    /// A machine without a term.
    pub fn new(alloc: Global) -> Machine<'a> {
        let data = Data::new(alloc);
        let base = data.mark();
        Machine {
            alloc,
            words: Words::new(alloc),
            data,
            types: Types::new(alloc),
            code: Code::new(alloc),
            choices: Choices::new(alloc),
            cells: Vec::new(alloc),
            args: Vec::new(alloc),
            strings: 0,
            larges: Vec::new(alloc),
            tasks: Vec::new(alloc),
            stack: Vec::new(alloc),
            env: Vec::new(alloc),
            pairs: Vec::new(alloc),
            kept: Kept {
                data: base,
                labels: 0,
                wholes: 0,
            },
            base,
        }
    }

    /// Takes up a term, and forgets the one before with its arguments. What types have stays, and
    /// so do the words.
    pub fn begin(&mut self, term: &'a LinTerm) -> Result<(), NoMemory> {
        self.data.cut_back(self.kept.data);
        self.base = self.kept.data;
        self.code.clear(self.kept.labels, self.kept.wholes);
        self.cells.clear();
        self.args.clear();
        self.stack.clear();
        self.code.add(term)?;
        Ok(())
    }

    /// What was added to the tables so far stays for all terms.
    pub fn keep(&mut self) {
        let data = self.data.mark();
        self.kept = Kept {
            data,
            labels: self.code.labels.len(),
            wholes: self.code.wholes.len(),
        };
        self.base = data;
    }

    /// What was added to the tables so far stays for all runs of this term.
    pub fn stay(&mut self) {
        self.base = self.data.mark();
    }

    /// How many parameter cells the arguments have.
    pub fn cell_count(&self) -> u32 {
        u32::try_from(self.cells.len()).unwrap_or(u32::MAX)
    }

    /// How many values a parameter cell has.
    pub fn cell_size(&self, cell: u32) -> u32 {
        match get(self.cells.as_slice(), cell) {
            Some(cell) => self.types.values(cell.of).count(),
            None => 0,
        }
    }

    /// Says which value a parameter cell has, by its number in the order of its type, or that it is
    /// not known.
    pub fn set(&mut self, cell: u32, value: Option<u32>) {
        if let Some(cell) = self.cells.get_mut(cell as usize) {
            cell.known = value;
        }
    }

    /// How many words there are.
    pub fn word_count(&self) -> u32 {
        u32::try_from(self.words.all.len()).unwrap_or(u32::MAX)
    }

    /// The word of that number, None past the last word.
    pub fn token(&self, word: u32) -> Result<Option<Token>, NoMemory> {
        self.words.token(word)
    }

    /// The value of that number.
    pub fn datum(&self, place: u32) -> Result<Datum, Stop> {
        match get(self.data.all.as_slice(), place) {
            Some(datum) => Ok(datum),
            None => Err(Stop::Nothing), // excluded: values are named by their numbers
        }
    }

    /// The value itself of a parameter cell, which is asked for where it is not known.
    pub fn resolved(&self, place: u32) -> Result<u32, Stop> {
        let Datum::Cell(cell) = self.datum(place)? else {
            return Ok(place);
        };
        match get(self.cells.as_slice(), cell) {
            Some(
                Cell {
                    of,
                    known: Some(value),
                },
            ) => Ok(self.types.values(of).at(value)),
            _ => Err(Stop::Ask(cell)),
        }
    }

    /// Puts a value on the stack.
    pub fn push(&mut self, place: u32) -> Result<(), Stop> {
        self.stack.push(place)?;
        Ok(())
    }

    /// Puts a new value on the stack.
    pub fn push_datum(&mut self, datum: Datum) -> Result<(), Stop> {
        let place = add(&mut self.data.all, datum)?;
        self.push(place)
    }

    /// Takes the last value from the stack.
    pub fn pop(&mut self) -> Result<u32, Stop> {
        match self.stack.pop() {
            Some(place) => Ok(place),
            None => Err(Stop::Nothing), // excluded: each task finds what it takes
        }
    }
}
