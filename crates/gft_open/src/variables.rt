//! Variables that are bound, and those of the patterns that are begun.
use gft_core::{NoMemory, Place};
use std::alloc::Global;

/// What is known of a name as a variable: how many times it is bound, whether the pattern that is
/// begun has it, and in which comparison it was met.
#[derive(Clone, Copy)]
struct Mark {
    bound: u32,
    is_seen: bool,
    stamp: u32,
}

/// A variable of a pattern, its name by number, at its first place.
#[derive(Clone, Copy)]
pub struct Variable {
    pub name: u32,
    pub place: Place,
}

/// Variables by the numbers of their names.
#[derive(Drop)]
pub struct Variables {
    marks: Vec<Mark>,
    bound: Vec<u32>,
    seen: Vec<Variable>,
    stamp: u32,
}

impl Variables {
    /// No variable. It takes no memory.
    pub fn new(alloc: Global) -> Variables {
        Variables {
            marks: Vec::new(alloc),
            bound: Vec::new(alloc),
            seen: Vec::new(alloc),
            stamp: 0,
        }
    }

    /// There is a mark for the name.
    fn ensure(&mut self, name: u32) -> Result<(), NoMemory> {
        'marks: for _ in self.marks.len()..(name as usize).saturating_add(1) {
            self.marks.push(Mark {
                bound: 0,
                is_seen: false,
                stamp: 0,
            })?;
        }
        Ok(())
    }

    /// Whether a variable of the name is bound.
    pub fn is_bound(&self, name: u32) -> bool {
        match self.marks.get(name as usize) {
            None => false,
            Some(mark) => mark.bound > 0,
        }
    }

    /// How many variables are bound.
    pub fn scope(&self) -> usize {
        self.bound.len()
    }

    /// A variable of the name is bound.
    pub fn bind(&mut self, name: u32) -> Result<(), NoMemory> {
        self.ensure(name)?;
        self.bound.push(name)?;
        if let Some(mark) = self.marks.get_mut(name as usize) {
            mark.bound = mark.bound.saturating_add(1);
        }
        Ok(())
    }

    /// Only so many variables are bound.
    pub fn leave(&mut self, scope: usize) {
        'bound: for _ in scope..self.bound.len() {
            if let Some(name) = self.bound.pop() {
                if let Some(mark) = self.marks.get_mut(name as usize) {
                    mark.bound = mark.bound.saturating_sub(1);
                }
            }
        }
    }

    /// How many variables the patterns that are begun have.
    pub fn len(&self) -> usize {
        self.seen.len()
    }

    /// A variable of the patterns that are begun.
    pub fn get(&self, at: usize) -> Option<Variable> {
        self.seen.get(at).copied()
    }

    fn set_seen(&mut self, name: u32, is_seen: bool) {
        if let Some(mark) = self.marks.get_mut(name as usize) {
            mark.is_seen = is_seen;
        }
    }

    fn is_seen(&self, name: u32) -> bool {
        match self.marks.get(name as usize) {
            None => false,
            Some(mark) => mark.is_seen,
        }
    }

    /// A variable in a pattern. Whether the pattern has it only now.
    pub fn see(&mut self, name: u32, place: Place) -> Result<bool, NoMemory> {
        self.ensure(name)?;
        if self.is_seen(name) {
            return Ok(false);
        }
        self.seen.push(Variable { name, place })?;
        self.set_seen(name, true);
        Ok(true)
    }

    /// The variables from `start` on may be seen again, or may no more.
    pub fn mark(&mut self, start: usize, is_seen: bool) {
        'seen: for at in start..self.seen.len() {
            if let Some(variable) = self.get(at) {
                self.set_seen(variable.name, is_seen);
            }
        }
    }

    /// The patterns that are begun have no more than so many variables.
    pub fn truncate(&mut self, start: usize) {
        self.mark(start, false);
        self.seen.truncate(start);
    }

    /// The variables from `start` to `end` are met in a comparison of their own, whose number it
    /// is.
    pub fn stamp(&mut self, start: usize, end: usize) -> u32 {
        self.stamp = self.stamp.saturating_add(1);
        let stamp = self.stamp;
        'seen: for at in start..end {
            if let Some(variable) = self.get(at) {
                if let Some(mark) = self.marks.get_mut(variable.name as usize) {
                    mark.stamp = stamp;
                }
            }
        }
        stamp
    }

    /// Whether the name was met in the comparison.
    pub fn is_met(&self, name: u32, stamp: u32) -> bool {
        match self.marks.get(name as usize) {
            None => false,
            Some(mark) => mark.stamp == stamp,
        }
    }
}
