//! Productions as rows of numbers.
use crate::cells::{Cell, digit};
use gft_core::NoMemory;
use std::alloc::Global;

/// A production of one function: the case of all its arguments together, the nonterminal of its
/// result, and the number of its outcome. Rows are in the order of productions.
#[derive(Clone, Copy, PartialEq, Eq, PartialOrd, Ord)]
pub struct Row {
    pub case: u32,
    pub result: u32,
    pub outcome: u32,
}

/// A parameter of a result that is that of an argument, and by how much one more of it raises the
/// number of the result.
#[derive(Clone, Copy)]
pub struct Passed {
    pub cell: Cell,
    pub weight: u32,
}

/// An outcome: the nonterminal of its result where all that is passed on is 0, where what is passed
/// on stands, and where its sequences begin.
#[derive(Clone, Copy)]
pub struct Outcome {
    pub result: u32,
    pub from: u32,
    pub to: u32,
    pub sequences: u32,
}

/// Cases with the same outcomes: the least, how many there are, where the cells that are open
/// stand, and where the outcomes stand.
#[derive(Clone, Copy)]
pub struct Part {
    pub least: u32,
    pub cases: u32,
    pub from: u32,
    pub to: u32,
    pub first: u32,
    pub end: u32,
}

/// The parts of a function, and the outcomes of a language.
#[derive(Drop)]
pub struct Parts {
    pub parts: Vec<Part>,
    pub open: Vec<Cell>,
    pub outcomes: Vec<Outcome>,
    pub passed: Vec<Passed>,
}

/// A number for a table, of which there are fewer than 2^32 - 1.
pub fn number(n: usize) -> Result<u32, NoMemory> {
    match u32::try_from(n) {
        Ok(number) if number < u32::MAX => Ok(number),
        _ => Err(NoMemory),
    }
}

impl Parts {
    /// No part and no outcome.
    pub fn new(alloc: Global) -> Parts {
        Parts {
            parts: Vec::new(alloc),
            open: Vec::new(alloc),
            outcomes: Vec::new(alloc),
            passed: Vec::new(alloc),
        }
    }

    /// Begins with the next function.
    pub fn begin(&mut self) {
        self.parts.clear();
        self.open.clear();
    }

    /// The outcomes from a place on.
    pub fn outcomes_from(&self, alloc: Global, first: u32) -> Result<Vec<Outcome>, NoMemory> {
        match self.outcomes.get(first as usize..) {
            None => Ok(Vec::new(alloc)),
            Some(outcomes) => Ok(Vec::from_slice(alloc, outcomes)?),
        }
    }

    /// Puts an outcome at a place.
    pub fn put_outcome(&mut self, place: u32, outcome: Outcome) {
        if let Some(here) = self.outcomes.get_mut(place as usize) {
            *here = outcome;
        }
    }

    /// How many productions the parts have, or the greatest number.
    pub fn count(&self) -> u64 {
        let mut count = 0u64;
        for part in self.parts.iter() {
            let outcomes = u64::from(part.end.saturating_sub(part.first));
            count = count.saturating_add(u64::from(part.cases).saturating_mul(outcomes));
        }
        count
    }

    /// The nonterminal of an outcome in a case.
    fn result(&self, outcome: Outcome, case: u32) -> u32 {
        let mut result = outcome.result;
        for at in outcome.from..outcome.to {
            if let Some(passed) = self.passed.get(at as usize) {
                let raised = digit(case, passed.cell).saturating_mul(passed.weight);
                result = result.saturating_add(raised);
            }
        }
        result
    }

    /// The case of a part that has this number among its cases.
    fn case(&self, part: Part, number: u32) -> u32 {
        let mut case = part.least;
        let mut rest = number;
        for at in (part.from..part.to).rev() {
            if let Some(cell) = self.open.get(at as usize) {
                let value = rest.checked_rem(cell.size).unwrap_or(0);
                rest = rest.checked_div(cell.size).unwrap_or(0);
                case = case.saturating_add(value.saturating_mul(cell.weight));
            }
        }
        case
    }

    /// Adds the rows of a case.
    fn add_case(&self, part: Part, case: u32, rows: &mut Vec<Row>) -> Result<(), NoMemory> {
        for number in part.first..part.end {
            if let Some(outcome) = self.outcomes.get(number as usize) {
                let result = self.result(*outcome, case);
                rows.push(Row {
                    case,
                    result,
                    outcome: number,
                })?;
            }
        }
        Ok(())
    }

    fn add_part(&self, part: Part, rows: &mut Vec<Row>) -> Result<(), NoMemory> {
        for number in 0..part.cases {
            self.add_case(part, self.case(part, number), rows)?;
        }
        Ok(())
    }

    /// Whether rows of the parts as they stand are in order: those of one part with one outcome.
    fn are_in_order(&self) -> bool {
        match self.parts.as_slice() {
            [] => true,
            [only] => only.end.saturating_sub(only.first) < 2,
            _ => false,
        }
    }

    /// Adds the rows of all parts, in order.
    pub fn add_rows(&self, alloc: Global, rows: &mut Vec<Row>) -> Result<(), NoMemory> {
        let mut added = Vec::new(alloc);
        for part in self.parts.iter() {
            self.add_part(*part, &mut added)?;
        }
        if !self.are_in_order() {
            added.sort_unstable();
        }
        rows.extend_from_slice(added.as_slice())?;
        Ok(())
    }

    /// Where the sequences of an outcome begin.
    pub fn sequences(&self, outcome: u32) -> u32 {
        match self.outcomes.get(outcome as usize) {
            None => 0, // a row has the number of an outcome
            Some(outcome) => outcome.sequences,
        }
    }
}
