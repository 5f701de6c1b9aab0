//! Which parts of a text a pattern matches, as a relation of places, made once for each part of the
//! pattern from the bottom up.
use crate::matching::ends_at;
use gft_core::NoMemory;
use gft_syntax::{Pattern, Reference};
use std::alloc::Global;

/// Pairs of places: row i has a bit for each j where the text from i to j matches. `parts` are
/// those of the pattern's parts.
#[derive(Drop)]
pub struct Relation {
    rows: Vec<u64>,
    pub parts: Vec<Relation>,
}

/// The number of words of a row, for so many characters.
pub fn width(length: usize) -> usize {
    length / 64 + 1
}

fn word_at(from: usize, to: usize, width: usize) -> usize {
    from.saturating_mul(width).saturating_add(to / 64)
}

impl Relation {
    fn empty(alloc: Global, length: usize) -> Result<Relation, NoMemory> {
        let words = length.saturating_add(1).saturating_mul(width(length));
        let rows = vec![in alloc; 0u64; words]?;
        let parts = Vec::new(alloc);
        Ok(Relation { rows, parts })
    }

    /// Whether the text from one place to another matches.
    pub fn has(&self, from: usize, to: usize, width: usize) -> bool {
        match self.rows.get(word_at(from, to, width)) {
            Some(word) => word >> (to % 64) as u32 & 1 == 1,
            None => false,
        }
    }

    fn set(&mut self, from: usize, to: usize, width: usize) {
        if let Some(word) = self.rows.get_mut(word_at(from, to, width)) {
            *word |= 1 << (to % 64) as u32;
        }
    }

    fn word(&self, at: usize) -> u64 {
        self.rows.get(at).copied().unwrap_or(0)
    }

    /// Adds bits to a word of a row.
    fn add(&mut self, at: usize, more: u64) {
        if let Some(word) = self.rows.get_mut(at) {
            *word |= more;
        }
    }

    /// Adds to a row what a row of another relation has.
    fn join(&mut self, row: usize, other: &Relation, from: usize, width: usize) {
        for k in 0..width {
            let more = other.word(word_at(from, 0, width).saturating_add(k));
            self.add(word_at(row, 0, width).saturating_add(k), more);
        }
    }

    /// Adds to a row what another row of the same relation has.
    fn join_own(&mut self, row: usize, from: usize, width: usize) {
        for k in 0..width {
            let more = self.word(word_at(from, 0, width).saturating_add(k));
            self.add(word_at(row, 0, width).saturating_add(k), more);
        }
    }
}

/// Every part of the text.
fn any(alloc: Global, length: usize) -> Result<Relation, NoMemory> {
    let mut all = Relation::empty(alloc, length)?;
    for from in 0..length.saturating_add(1) {
        for to in from..length.saturating_add(1) {
            all.set(from, to, width(length));
        }
    }
    Ok(all)
}

/// Each single character.
fn one(alloc: Global, length: usize) -> Result<Relation, NoMemory> {
    let mut all = Relation::empty(alloc, length)?;
    for from in 0..length {
        all.set(from, from.saturating_add(1), width(length));
    }
    Ok(all)
}

fn literal(alloc: Global, text: &[char], word: &str) -> Result<Relation, NoMemory> {
    let mut all = Relation::empty(alloc, text.len())?;
    for from in 0..text.len().saturating_add(1) {
        if let Some(to) = ends_at(text, from, word) {
            all.set(from, to, width(text.len()));
        }
    }
    Ok(all)
}

fn either(alloc: Global, length: usize, a: Relation, b: Relation) -> Result<Relation, NoMemory> {
    let mut all = Relation::empty(alloc, length)?;
    for from in 0..length.saturating_add(1) {
        all.join(from, &a, from, width(length));
        all.join(from, &b, from, width(length));
    }
    all.parts.push(a)?;
    all.parts.push(b)?;
    Ok(all)
}

fn sequence(alloc: Global, length: usize, a: Relation, b: Relation) -> Result<Relation, NoMemory> {
    let mut all = Relation::empty(alloc, length)?;
    for from in 0..length.saturating_add(1) {
        for middle in from..length.saturating_add(1) {
            if a.has(from, middle, width(length)) {
                all.join(from, &b, middle, width(length));
            }
        }
    }
    all.parts.push(a)?;
    all.parts.push(b)?;
    Ok(all)
}

/// Any number of matches, one after the other. The last places come first, so each row is whole
/// where an earlier one takes it.
fn repeated(alloc: Global, length: usize, a: Relation) -> Result<Relation, NoMemory> {
    let mut all = Relation::empty(alloc, length)?;
    for from in (0..length.saturating_add(1)).rev() {
        all.set(from, from, width(length));
        for middle in from.saturating_add(1)..length.saturating_add(1) {
            if a.has(from, middle, width(length)) {
                all.join_own(from, middle, width(length));
            }
        }
    }
    Ok(all)
}

/// The relation of the pattern. A recursion as deep as the pattern; its time is cubic in the length
/// of the text for each part of the pattern.
pub fn relate(alloc: Global, pattern: &Pattern, text: &[char]) -> Result<Relation, NoMemory> {
    match pattern {
        Pattern::Any(_) => any(alloc, text.len()),
        Pattern::Name(Reference::Written(_), _) => any(alloc, text.len()),
        Pattern::As(_, inner, _) => relate(alloc, inner.get(), text),
        Pattern::One(_) => one(alloc, text.len()),
        Pattern::Text(word, _) => literal(alloc, text, word.as_str()),
        Pattern::Or(left, right, _) => {
            let a = relate(alloc, left.get(), text)?;
            let b = relate(alloc, right.get(), text)?;
            either(alloc, text.len(), a, b)
        }
        Pattern::Seq(left, right, _) => {
            let a = relate(alloc, left.get(), text)?;
            let b = relate(alloc, right.get(), text)?;
            sequence(alloc, text.len(), a, b)
        }
        Pattern::Star(inner, _) => {
            let a = relate(alloc, inner.get(), text)?;
            repeated(alloc, text.len(), a)
        }
        // excluded by typing: no other pattern has the type of strings
        _ => Relation::empty(alloc, text.len()),
    }
}
