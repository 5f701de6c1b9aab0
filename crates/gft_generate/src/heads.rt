//! What may stand at the head of a tree of a category.
use crate::literals::Literals;
use gft_abs::{NONE, at, filled, function_named, put};
use gft_core::{NoMemory, Tree};
use gft_pmcfg::{Abstract, Fun};
use std::alloc::Global;

/// The head of a tree: a function by number, or a literal by its place among those of its kind.
#[derive(Clone, Copy, PartialEq, Eq, PartialOrd, Ord)]
pub enum Head {
    Fun(u32),
    Int(u32),
    Word(u32),
}

/// The heads of each category, category by category, and in each by the function that stands first
/// in the first index of the head's type: those without such a function, then by its number.
#[derive(Drop)]
pub struct Heads {
    all: Vec<(u64, Head)>,
    /// The place of each function among them.
    places: Vec<u32>,
}

/// Heads, by the places of two runs of them.
#[derive(Clone, Copy)]
pub struct Span {
    next: u32,
    end: u32,
    other: u32,
    last: u32,
}

impl Span {
    /// How many places there are.
    pub fn count(&self) -> u32 {
        let first = self.end.saturating_sub(self.next);
        first.saturating_add(self.last.saturating_sub(self.other))
    }

    /// Takes the first place. None where there is none.
    pub fn take(&mut self) -> Option<u32> {
        if self.next >= self.end {
            self.next = self.other;
            self.end = self.last;
            self.other = self.last;
        }
        if self.next >= self.end {
            return None;
        }
        let place = self.next;
        self.next = place.saturating_add(1);
        Some(place)
    }
}

/// The order of heads: by category, then by the function of the first index.
fn key(cat: u32, index: u32) -> u64 {
    u64::from(cat)
        .saturating_mul(0x1_0000_0000)
        .saturating_add(u64::from(index))
}

/// The function that stands first in an index, from 1. 0 where it is none.
fn function_of(funs: &[Fun], index: &Tree) -> u32 {
    match index {
        Tree::App(name, _) => match function_named(funs, name.as_str()) {
            None => 0, // each function of a type is there
            Some(fun) => fun.saturating_add(1),
        },
        Tree::Hole(_) => 0,
        Tree::Int(_) => 0,
        Tree::Str(_) => 0,
    }
}

/// The key of a function's trees.
fn key_of(funs: &[Fun], fun: &Fun) -> u64 {
    match fun.result.args.as_slice().first() {
        None => key(fun.result.cat, 0),
        Some(index) => key(fun.result.cat, function_of(funs, index)),
    }
}

fn add_literals(all: &mut Vec<(u64, Head)>, literals: &Literals) -> Result<(), NoMemory> {
    'ints: for place in 0..literals.int_count() {
        all.push((key(0, 0), Head::Int(place)))?;
    }
    'words: for place in 0..literals.word_count() {
        all.push((key(1, 0), Head::Word(place)))?;
    }
    Ok(())
}

fn add_functions(all: &mut Vec<(u64, Head)>, funs: &[Fun]) -> Result<(), NoMemory> {
    let mut number = 0u32;
    'funs: for fun in funs {
        all.push((key_of(funs, fun), Head::Fun(number)))?;
        number = number.saturating_add(1);
    }
    Ok(())
}

/// Where each function stands.
fn places_of(alloc: Global, all: &[(u64, Head)], funs: &[Fun]) -> Result<Vec<u32>, NoMemory> {
    let count = u32::try_from(funs.len()).unwrap_or(NONE);
    let mut places = filled(alloc, count, NONE)?;
    let mut place = 0u32;
    'heads: for one in all {
        if let Head::Fun(fun) = one.1 {
            put(&mut places, fun, place);
        }
        place = place.saturating_add(1);
    }
    Ok(places)
}

impl Heads {
    /// The heads for an abstract syntax.
    pub fn of(alloc: Global, abs: &Abstract, literals: &Literals) -> Result<Heads, NoMemory> {
        let mut all = Vec::new(alloc);
        add_literals(&mut all, literals)?;
        add_functions(&mut all, abs.funs.as_slice())?;
        all.sort_unstable();
        let places = places_of(alloc, all.as_slice(), abs.funs.as_slice())?;
        Ok(Heads { all, places })
    }

    /// The place of the first head whose key is not less.
    fn from(&self, least: u64) -> u32 {
        let place = self.all.as_slice().partition_point(|one| one.0 < least);
        u32::try_from(place).unwrap_or(NONE)
    }

    /// The heads of a category.
    pub fn all_of(&self, cat: u32) -> Span {
        let end = self.from(key(cat.saturating_add(1), 0));
        Span {
            next: self.from(key(cat, 0)),
            end,
            other: end,
            last: end,
        }
    }

    /// The heads of a category whose types may have a first index with this function.
    pub fn indexed_by(&self, cat: u32, fun: u32) -> Span {
        let index = fun.saturating_add(1);
        Span {
            next: self.from(key(cat, 0)),
            end: self.from(key(cat, 1)),
            other: self.from(key(cat, index)),
            last: self.from(key(cat, index.saturating_add(1))),
        }
    }

    /// A function alone.
    pub fn only(&self, fun: u32) -> Span {
        let place = at(self.places.as_slice(), fun);
        let end = place.saturating_add(1);
        Span {
            next: place,
            end,
            other: end,
            last: end,
        }
    }

    /// The head at a place.
    pub fn at(&self, place: u32) -> Option<Head> {
        match self.all.get(place as usize) {
            None => None,
            Some(one) => Some(one.1),
        }
    }
}
