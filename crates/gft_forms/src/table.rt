//! The table of terms, and the tables of their parts.
use crate::form::{Binding, Branch, Form, Item, Span};
use gft_core::{NoMemory, Place, Shared, Token};
use gft_syntax::{Pattern, Sort};
use sqlite_items::Items;
use std::alloc::Global;

/// Terms, each by the number of terms that were laid out before it: parts come before what they are
/// part of. The tables of parts are filled a list at a time; what is pending is of lists that are
/// begun.
#[derive(Drop)]
pub struct Forms {
    pub(crate) forms: Vec<Form>,
    pub(crate) places: Vec<Place>,
    pub(crate) parts: Vec<u32>,
    pub(crate) items: Vec<Item>,
    pub(crate) branches: Vec<Branch>,
    pub(crate) bindings: Vec<Binding>,
    pub(crate) literals: Vec<Shared<Items<Token>>>,
    pub(crate) patterns: Vec<Shared<Pattern>>,
    pub(crate) pending_parts: Vec<u32>,
    pub(crate) pending_items: Vec<Item>,
    pub(crate) pending_branches: Vec<Branch>,
}

/// The number of a place in a table.
pub(crate) fn number_at(at: usize) -> Result<u32, NoMemory> {
    match u32::try_from(at) {
        Ok(number) => Ok(number),
        Err(_) => Err(NoMemory),
    }
}

impl Forms {
    /// No term. It takes no memory.
    pub fn new(alloc: Global) -> Forms {
        Forms {
            forms: Vec::new(alloc),
            places: Vec::new(alloc),
            parts: Vec::new(alloc),
            items: Vec::new(alloc),
            branches: Vec::new(alloc),
            bindings: Vec::new(alloc),
            literals: Vec::new(alloc),
            patterns: Vec::new(alloc),
            pending_parts: Vec::new(alloc),
            pending_items: Vec::new(alloc),
            pending_branches: Vec::new(alloc),
        }
    }

    /// Forgets all terms.
    pub fn clear(&mut self) {
        self.forms.clear();
        self.places.clear();
        self.parts.clear();
        self.items.clear();
        self.branches.clear();
        self.bindings.clear();
        self.literals.clear();
        self.patterns.clear();
        self.pending_parts.clear();
        self.pending_items.clear();
        self.pending_branches.clear();
    }

    /// Adds a term whose parts are there, and says its number.
    pub fn add(&mut self, form: Form, place: Place) -> Result<u32, NoMemory> {
        let number = number_at(self.forms.len())?;
        self.places.push(place)?;
        self.forms.push(form)?;
        Ok(number)
    }

    /// The form of a term.
    pub fn form(&self, number: u32) -> Form {
        match self.forms.get(number as usize) {
            None => Form::Sort(Sort::Str), // excluded by add: numbers are given as terms are added
            Some(form) => *form,
        }
    }

    /// The place of a term's first token.
    pub fn place(&self, number: u32) -> Place {
        match self.places.get(number as usize) {
            // excluded by add
            None => Place {
                file: 0,
                line: 1,
                col: 1,
            },
            Some(place) => *place,
        }
    }

    /// The part at that place of a list, from 0.
    pub fn part(&self, list: Span, at: u32) -> u32 {
        match self.parts.get(list.first.saturating_add(at) as usize) {
            None => 0, // excluded by the list
            Some(part) => *part,
        }
    }

    /// The field or local at that place of a list, from 0. None past its end.
    pub fn item(&self, list: Span, at: u32) -> Option<Item> {
        self.items
            .get(list.first.saturating_add(at) as usize)
            .copied()
    }

    /// The branch at that place of a list, from 0. None past its end.
    pub fn branch(&self, list: Span, at: u32) -> Option<Branch> {
        self.branches
            .get(list.first.saturating_add(at) as usize)
            .copied()
    }

    /// What is bound at that place of a list, from 0. None past its end.
    pub fn binding(&self, list: Span, at: u32) -> Option<Binding> {
        self.bindings
            .get(list.first.saturating_add(at) as usize)
            .copied()
    }

    /// One more owner of a literal's words. None where there is no such literal.
    pub fn literal(&self, number: u32) -> Result<Option<Shared<Items<Token>>>, NoMemory> {
        match self.literals.get(number as usize) {
            None => Ok(None),
            Some(words) => Ok(Some(words.share()?)),
        }
    }

    /// One more owner of a pattern. None where there is no such pattern.
    pub fn pattern(&self, number: u32) -> Result<Option<Shared<Pattern>>, NoMemory> {
        match self.patterns.get(number as usize) {
            None => Ok(None),
            Some(pattern) => Ok(Some(pattern.share()?)),
        }
    }

    /// A pattern by reference. None where there is no such pattern.
    pub fn pattern_ref(&self, number: u32) -> Option<&Pattern> {
        match self.patterns.get(number as usize) {
            None => None,
            Some(pattern) => Some(pattern.get()),
        }
    }
}
