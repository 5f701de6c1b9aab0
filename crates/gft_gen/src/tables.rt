//! The tables of a language: words, and outcomes as they were found and as numbers.
use crate::cells::Cells;
use crate::layout::{Layout, Sizes};
use crate::rows::{Outcome, Parts, Passed, number};
use crate::words::Words;
use gft_core::{NoMemory, Sym};
use gft_eval::{Leaf, Outcomes, Range, Symbol};
use sqlite_items::Items;
use std::alloc::Global;

/// The numbers of values of all categories' cells, the words, the outcomes as they were found, and
/// what these are as numbers.
#[derive(Drop)]
pub struct Tables {
    pub sizes: Sizes,
    pub words: Words,
    pub all: Outcomes,
    pub parts: Parts,
}

impl Tables {
    /// No word and no outcome; the cells of all categories.
    pub fn new(alloc: Global, sizes: Sizes) -> Tables {
        Tables {
            sizes,
            words: Words::new(alloc),
            all: Outcomes::new(alloc),
            parts: Parts::new(alloc),
        }
    }

    /// The last outcomes that were found, so many, as numbers.
    pub fn add_outcomes(
        &mut self,
        cells: &Cells,
        layout: Layout,
        count: u32,
    ) -> Result<(), NoMemory> {
        let end = self.all.outcomes.len();
        for place in end.saturating_sub(count as usize)..end {
            self.add_outcome(cells, layout, place)?;
        }
        Ok(())
    }

    /// An outcome's leaves as the nonterminal of the result. The last leaf counts least.
    fn add_outcome(&mut self, cells: &Cells, layout: Layout, place: usize) -> Result<(), NoMemory> {
        let Some(found) = self.all.outcomes.get(place) else {
            return Ok(()); // excluded: the place is below the end
        };
        let strings = found.strings;
        let leaves = found.leaves;
        let from = number(self.parts.passed.len())?;
        let mut result = layout.first;
        let mut weight = 1u32;
        for back in 0..layout.to.saturating_sub(layout.from) {
            let raised = self.add_leaf(cells, leaf_at(leaves, back), weight)?;
            result = result.saturating_add(raised);
            weight = weight.saturating_mul(self.sizes.at_end(layout, back));
        }
        let to = number(self.parts.passed.len())?;
        self.parts.outcomes.push(Outcome {
            result,
            from,
            to,
            sequences: strings.from,
        })?;
        Ok(())
    }

    /// By how much the leaf at that place raises the result, where that is known; else it is passed
    /// on.
    fn add_leaf(&mut self, cells: &Cells, place: u32, weight: u32) -> Result<u32, NoMemory> {
        match self.all.leaves.get(place as usize) {
            None => Ok(0), // excluded by typing: an outcome has a leaf for each cell
            Some(Leaf::Known(value)) => Ok(value.saturating_mul(weight)),
            Some(Leaf::Of(cell)) => {
                let cell = cells.at(*cell);
                self.parts.passed.push(Passed { cell, weight })?;
                Ok(0)
            }
        }
    }

    /// Adds so many times one sequence of one symbol, or without one; the answer is where they
    /// begin.
    pub fn add_sequences(&mut self, symbol: Option<Symbol>, count: u32) -> Result<u32, NoMemory> {
        let from = number(self.all.symbols.len())?;
        if let Some(symbol) = symbol {
            self.all.symbols.push(symbol)?;
        }
        let to = number(self.all.symbols.len())?;
        let first = number(self.all.strings.len())?;
        for _ in 0..count {
            self.all.strings.push(Range { from, to })?;
        }
        Ok(first)
    }

    /// The string of that number, written out.
    pub fn sequence(&self, alloc: Global, string: u32) -> Result<Items<Sym>, NoMemory> {
        match self.all.strings.get(string as usize) {
            None => Ok(Items::new(alloc)), // excluded: strings are asked for by their numbers
            Some(range) => self
                .words
                .sequence(alloc, self.all.symbols.as_slice(), *range),
        }
    }

    /// Adds an outcome with these sequences, whose result is a nonterminal; the answer is its
    /// number.
    pub fn add_plain(&mut self, nonterminal: u32, sequences: u32) -> Result<u32, NoMemory> {
        let outcome = number(self.parts.outcomes.len())?;
        let at = number(self.parts.passed.len())?;
        self.parts.outcomes.push(Outcome {
            result: nonterminal,
            from: at,
            to: at,
            sequences,
        })?;
        Ok(outcome)
    }
}

/// The place of a leaf that has so many leaves of its outcome after it.
fn leaf_at(leaves: Range, back: u32) -> u32 {
    leaves.to.saturating_sub(back).saturating_sub(1)
}
