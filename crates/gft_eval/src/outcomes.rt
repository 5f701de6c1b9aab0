//! Outcomes of terms as the leaves of their values.
use crate::data::{NONE, Range, Symbol, get, number, since};
use crate::slots::{Slots, mixed};
use crate::stop::Stop;
use gft_core::NoMemory;
use std::alloc::Global;

/// A parameter leaf: a value by its number in the order of its type, or that of a parameter cell of
/// the arguments which is not known.
#[derive(Clone, Copy)]
pub enum Leaf {
    Known(u32),
    Of(u32),
}

/// The leaves of a value: its strings and its parameters, each in order.
#[derive(Clone, Copy)]
pub struct Outcome {
    pub strings: Range,
    pub leaves: Range,
}

/// How far the tables are filled.
#[derive(Clone, Copy)]
pub struct Filled {
    symbols: usize,
    strings: usize,
    leaves: usize,
    outcomes: usize,
}

/// Outcomes one after the other, with the tables of what they are made of. The outcomes of one call
/// are distinct.
#[derive(Drop)]
pub struct Outcomes {
    alloc: Global,
    pub symbols: Vec<Symbol>,
    /// The symbols of each string.
    pub strings: Vec<Range>,
    pub leaves: Vec<Leaf>,
    pub outcomes: Vec<Outcome>,
    /// For each outcome the next one of this call with the same strings.
    next: Vec<u32>,
    /// The first outcome of this call with its strings, by these.
    slots: Slots,
}

/// What stands for no outcome.
const END: u32 = u32::MAX;

fn hashed(hash: u32, symbol: Symbol) -> u32 {
    match symbol {
        Symbol::Word(word) => mixed(hash, word),
        Symbol::Part(argument, cell) => mixed(mixed(hash, argument), !cell),
    }
}

/// Whether two leaves are equal; asks for what decides it.
fn same_leaf(one: Leaf, other: Leaf) -> Result<bool, Stop> {
    match one {
        Leaf::Known(ours) => match other {
            Leaf::Known(theirs) => Ok(ours == theirs),
            Leaf::Of(cell) => Err(Stop::Ask(cell)),
        },
        Leaf::Of(ours) => match other {
            Leaf::Of(theirs) if ours == theirs => Ok(true),
            _ => Err(Stop::Ask(ours)),
        },
    }
}

impl Outcomes {
    /// No outcome.
    pub fn new(alloc: Global) -> Outcomes {
        Outcomes {
            alloc,
            symbols: Vec::new(alloc),
            strings: Vec::new(alloc),
            leaves: Vec::new(alloc),
            outcomes: Vec::new(alloc),
            next: Vec::new(alloc),
            slots: Slots::new(alloc),
        }
    }

    /// Begins the outcomes of another call.
    pub fn begin(&mut self) {
        self.slots = Slots::new(self.alloc);
    }

    /// How far the tables are filled.
    pub fn filled(&self) -> Filled {
        Filled {
            symbols: self.symbols.len(),
            strings: self.strings.len(),
            leaves: self.leaves.len(),
            outcomes: self.outcomes.len(),
        }
    }

    /// Forgets what was added since.
    pub fn cut_back(&mut self, filled: Filled) {
        self.symbols.truncate(filled.symbols);
        self.strings.truncate(filled.strings);
        self.leaves.truncate(filled.leaves);
        self.outcomes.truncate(filled.outcomes);
        self.next.truncate(filled.outcomes);
    }

    /// How many outcomes were added since.
    pub fn since(&self, filled: Filled) -> Result<u32, NoMemory> {
        number(self.outcomes.len().saturating_sub(filled.outcomes))
    }

    /// Adds a string.
    pub fn push_string(&mut self, symbols: &[Symbol]) -> Result<(), NoMemory> {
        let from = number(self.symbols.len())?;
        for symbol in symbols {
            self.symbols.push(*symbol)?;
        }
        let string = since(from, self.symbols.len())?;
        self.strings.push(string)?;
        Ok(())
    }

    /// The symbols of the string of that number.
    pub fn string(&self, place: u32) -> &[Symbol] {
        let range = get(self.strings.as_slice(), place).unwrap_or(NONE);
        let all = self.symbols.as_slice();
        all.get(range.from as usize..range.to as usize)
            .unwrap_or(&[])
    }

    /// The leaf of that number.
    pub fn leaf(&self, place: u32) -> Leaf {
        get(self.leaves.as_slice(), place).unwrap_or(Leaf::Known(0))
    }

    fn hash_of(&self, strings: Range) -> u32 {
        let mut hash = 0u32;
        for place in strings.from..strings.to {
            hash = mixed(hash, END);
            for symbol in self.string(place) {
                hash = hashed(hash, *symbol);
            }
        }
        hash
    }

    fn same_strings(&self, one: Range, other: Range) -> bool {
        for place in 0..one.count() {
            if self.string(one.at(place)) != self.string(other.at(place)) {
                return false;
            }
        }
        one.count() == other.count()
    }

    fn same_leaves(&self, one: Range, other: Range) -> Result<bool, Stop> {
        for place in 0..one.count() {
            if !same_leaf(self.leaf(one.at(place)), self.leaf(other.at(place)))? {
                return Ok(false);
            }
        }
        Ok(true)
    }

    /// The first outcome of this call with these strings.
    fn first_with(&self, strings: Range, hash: u32) -> Option<u32> {
        for step in 0..self.slots.count() {
            let slot = self.slots.at(hash, step)?;
            if slot.hash == hash {
                let outcome = get(self.outcomes.as_slice(), slot.number)?;
                if self.same_strings(outcome.strings, strings) {
                    return Some(slot.number);
                }
            }
        }
        None
    }

    /// The last of the outcomes with the same strings from this one on, None where one of them has
    /// these leaves. Asks for what decides it.
    fn last_without(&self, first: u32, leaves: Range) -> Result<Option<u32>, Stop> {
        let mut at = first;
        for _ in 0..self.outcomes.len() {
            let Some(outcome) = get(self.outcomes.as_slice(), at) else {
                return Ok(Some(at)); // excluded: outcomes are named by their numbers
            };
            if self.same_leaves(outcome.leaves, leaves)? {
                return Ok(None);
            }
            match get(self.next.as_slice(), at) {
                Some(next) if next != END => at = next,
                _ => return Ok(Some(at)),
            }
        }
        Ok(Some(at))
    }

    fn link(&mut self, last: u32, place: u32) {
        if let Some(next) = self.next.get_mut(last as usize) {
            *next = place;
        }
    }

    /// Adds the outcome whose strings and leaves were added since, where it is not there yet.
    pub fn add_since(&mut self, filled: Filled) -> Result<(), Stop> {
        let strings = since(number(filled.strings)?, self.strings.len())?;
        let leaves = since(number(filled.leaves)?, self.leaves.len())?;
        let place = number(self.outcomes.len())?;
        let hash = self.hash_of(strings);
        match self.first_with(strings, hash) {
            None => self.slots.add(self.alloc, hash, place)?,
            Some(first) => match self.last_without(first, leaves)? {
                Some(last) => self.link(last, place),
                None => {
                    self.cut_back(filled);
                    return Ok(());
                }
            },
        }
        self.next.push(END)?;
        self.outcomes.push(Outcome { strings, leaves })?;
        Ok(())
    }
}
