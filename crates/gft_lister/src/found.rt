//! The patterns that are listed: each once, in the order of their texts.
use crate::entry::{Entry, Form};
use gft_core::{NoMemory, Text, Tree};
use gft_tree::print;
use indexmap::IndexSet;
use std::alloc::Global;

/// Patterns with their texts.
#[derive(Drop)]
pub struct Found {
    forms: Vec<Option<Form>>,
    texts: IndexSet<String>,
}

impl Found {
    /// No pattern. It takes no memory.
    pub fn new(alloc: Global) -> Found {
        Found {
            forms: Vec::new(alloc),
            texts: IndexSet::new(alloc),
        }
    }

    /// Whether a text is that of a pattern.
    pub fn has(&self, text: &str) -> bool {
        self.texts.contains(text)
    }

    /// Adds a pattern that is not there.
    pub fn add(&mut self, text: String, form: Form) -> Result<(), NoMemory> {
        if self.texts.insert(text)? {
            self.forms.push(Some(form))?;
        }
        Ok(())
    }

    /// The order of the patterns, by their texts.
    fn order(&self, alloc: Global) -> Result<Vec<usize>, NoMemory> {
        let mut keys: Vec<(&str, usize)> = Vec::new(alloc);
        let mut place = 0usize;
        'texts: for text in self.texts.iter() {
            keys.push((text.as_str(), place))?;
            place = place.saturating_add(1);
        }
        keys.sort()?;
        let mut order: Vec<usize> = Vec::new(alloc);
        'keys: for (_, place) in keys.as_slice() {
            order.push(*place)?;
        }
        Ok(order)
    }

    /// Takes the pattern at a place.
    fn take(&mut self, alloc: Global, place: usize) -> Result<Option<Entry>, NoMemory> {
        let Some(text) = self.texts.get_index(place) else {
            return Ok(None);
        };
        let text = Text::from_str(alloc, text.as_str())?;
        match take(&mut self.forms, place) {
            Some(form) => Ok(Some(Entry { text, form })),
            None => Ok(None),
        }
    }

    /// Takes all patterns, in the byte order of their texts.
    pub fn take_sorted(&mut self, alloc: Global) -> Result<Vec<Entry>, NoMemory> {
        let order = self.order(alloc)?;
        let mut sorted: Vec<Entry> = Vec::new(alloc);
        'patterns: for place in order.as_slice() {
            if let Some(entry) = self.take(alloc, *place)? {
                sorted.push(entry)?;
            }
        }
        Ok(sorted)
    }
}

/// Takes the form at a place.
fn take(forms: &mut Vec<Option<Form>>, place: usize) -> Option<Form> {
    match forms.get_mut(place) {
        Some(here) => here.take(),
        None => None,
    }
}

/// The text of a tree.
pub fn text_of(alloc: Global, tree: &Tree) -> Result<String, NoMemory> {
    let text = print(alloc, tree)?;
    Ok(String::from_str(alloc, text.as_str())?)
}
