//! A string pattern against a part of a text.
use crate::bound::Span;
use crate::measure::{fixed_length, variables};
use crate::relation::{Relation, relate, width};
use gft_core::{Name, NoMemory};
use gft_syntax::{Pattern, Reference};
use std::alloc::Global;

/// Where the word ends if the text goes on with it from that place.
pub fn ends_at(text: &[char], from: usize, word: &str) -> Option<usize> {
    let mut at = from;
    for c in word.chars() {
        if text.get(at) != Some(&c) {
            return None;
        }
        at = at.saturating_add(1);
    }
    Some(at)
}

/// A text that patterns are matched with, and what their variables have so far.
#[derive(Drop)]
pub struct Matcher<'a> {
    alloc: Global,
    text: &'a [char],
    found: Vec<Span>,
}

/// Where the left part of a sequence ends.
#[derive(Clone, Copy, Debug, PartialEq, Eq)]
enum Middle {
    At(usize),
    Nowhere,
    Open,
}

/// Where a side has texts of one length, the place between both is known.
fn middle_of(left: &Pattern, right: &Pattern, from: usize, to: usize) -> Middle {
    let middle = match (fixed_length(right), fixed_length(left)) {
        (Some(length), _) => to.checked_sub(length),
        (None, Some(length)) => from.checked_add(length),
        (None, None) => return Middle::Open,
    };
    match middle {
        Some(middle) if from <= middle && middle <= to => Middle::At(middle),
        _ => Middle::Nowhere,
    }
}

/// The least place at which the left part may end.
fn split(a: &Relation, b: &Relation, from: usize, to: usize, width: usize) -> usize {
    for middle in from..to {
        if a.has(from, middle, width) && b.has(middle, to, width) {
            return middle;
        }
    }
    to
}

/// The place of a name in a list.
fn place_in(names: &[&Name], name: &Name) -> usize {
    let mut at = 0usize;
    for one in names {
        if one.as_str() == name.as_str() {
            return at;
        }
        at = at.saturating_add(1);
    }
    at
}

/// What a list of variables has, in the order of the same variables in another list.
pub fn reordered(
    alloc: Global,
    left: &Pattern,
    right: &Pattern,
    spans: &[Span],
) -> Result<Vec<Span>, NoMemory> {
    let mut names = Vec::new(alloc);
    variables(left, &mut names)?;
    let mut other = Vec::new(alloc);
    variables(right, &mut other)?;
    let mut all = Vec::new(alloc);
    for name in names.iter() {
        if let Some(span) = spans.get(place_in(other.as_slice(), name)) {
            all.push(*span)?;
        }
    }
    Ok(all)
}

impl<'a> Matcher<'a> {
    /// With nothing found.
    pub fn new(alloc: Global, text: &'a [char]) -> Matcher<'a> {
        let found = Vec::new(alloc);
        Matcher { alloc, text, found }
    }

    /// What the variables have.
    pub fn into_found(self) -> Vec<Span> {
        let Matcher {
            alloc: _,
            text: _,
            found,
        } = self;
        found
    }

    fn bind(&mut self, from: usize, to: usize) -> Result<bool, NoMemory> {
        self.found.push(Span { from, to })?;
        Ok(true)
    }

    /// Puts what was found since in the order in which the left side has the variables.
    fn reorder(
        &mut self,
        before: usize,
        left: &Pattern,
        right: &Pattern,
    ) -> Result<bool, NoMemory> {
        let spans = match self.found.get(before..) {
            Some(spans) => reordered(self.alloc, left, right, spans)?,
            None => return Ok(true),
        };
        self.found.truncate(before);
        self.found.extend_from_slice(spans.as_slice())?;
        Ok(true)
    }

    /// Whether the pattern matches the text from one place to another. What its variables have is
    /// added to what was found; where it does not match, that is open. A recursion as deep as the
    /// pattern.
    pub fn matches(&mut self, pattern: &Pattern, from: usize, to: usize) -> Result<bool, NoMemory> {
        match pattern {
            Pattern::Any(_) => Ok(true),
            Pattern::Name(Reference::Written(_), _) => self.bind(from, to),
            Pattern::As(_, inner, _) => {
                self.bind(from, to)?;
                self.matches(inner.get(), from, to)
            }
            Pattern::One(_) => Ok(from.saturating_add(1) == to),
            Pattern::Text(word, _) => Ok(ends_at(self.text, from, word.as_str()) == Some(to)),
            Pattern::Or(left, right, _) => {
                let before = self.found.len();
                if self.matches(left.get(), from, to)? {
                    return Ok(true);
                }
                self.found.truncate(before);
                if !self.matches(right.get(), from, to)? {
                    return Ok(false);
                }
                self.reorder(before, left.get(), right.get())
            }
            Pattern::Seq(left, right, _) => match middle_of(left.get(), right.get(), from, to) {
                Middle::At(middle) => {
                    if !self.matches(left.get(), from, middle)? {
                        return Ok(false);
                    }
                    self.matches(right.get(), middle, to)
                }
                Middle::Nowhere => Ok(false),
                Middle::Open => self.matches_related(pattern, from, to),
            },
            Pattern::Star(_, _) => self.matches_related(pattern, from, to),
            _ => Ok(false), // excluded by typing
        }
    }

    /// The same by the relations of all its parts.
    fn matches_related(
        &mut self,
        pattern: &Pattern,
        from: usize,
        to: usize,
    ) -> Result<bool, NoMemory> {
        let Some(text) = self.text.get(from..to) else {
            return Ok(false); // excluded, since both are places of the text
        };
        let relation = relate(self.alloc, pattern, text)?;
        let width = width(text.len());
        if !relation.has(0, text.len(), width) {
            return Ok(false);
        }
        self.related(pattern, &relation, (from, width), 0, text.len())
    }

    /// Adds what the variables have where the pattern matches the text from one place to another.
    /// The places of the relations begin at `base.0`, and their rows have `base.1` words.
    fn related(
        &mut self,
        pattern: &Pattern,
        relation: &Relation,
        base: (usize, usize),
        from: usize,
        to: usize,
    ) -> Result<bool, NoMemory> {
        match pattern {
            Pattern::Name(Reference::Written(_), _) => self.bind_from(base.0, from, to),
            Pattern::As(_, inner, _) => {
                self.bind_from(base.0, from, to)?;
                self.related(inner.get(), relation, base, from, to)
            }
            Pattern::Or(left, right, _) => {
                let (Some(a), Some(b)) = (relation.parts.get(0), relation.parts.get(1)) else {
                    return Ok(true); // excluded by `relate`
                };
                if a.has(from, to, base.1) {
                    return self.related(left.get(), a, base, from, to);
                }
                let before = self.found.len();
                self.related(right.get(), b, base, from, to)?;
                self.reorder(before, left.get(), right.get())
            }
            Pattern::Seq(left, right, _) => {
                let (Some(a), Some(b)) = (relation.parts.get(0), relation.parts.get(1)) else {
                    return Ok(true); // excluded by `relate`
                };
                let middle = split(a, b, from, to, base.1);
                self.related(left.get(), a, base, from, middle)?;
                self.related(right.get(), b, base, middle, to)
            }
            _ => Ok(true),
        }
    }

    fn bind_from(&mut self, base: usize, from: usize, to: usize) -> Result<bool, NoMemory> {
        self.bind(base.saturating_add(from), base.saturating_add(to))
    }
}
