//! Which productions a tree uses: for each row the arguments that still lack a run are counted.
use crate::rows::{Row, number};
use crate::signature::Signature;
use gft_core::NoMemory;
use std::alloc::Global;

/// No slot: the end of a chain.
const NONE: u32 = u32::MAX;

/// One argument of a row. Those that wait for one nonterminal are chained.
#[derive(Clone, Copy)]
struct Slot {
    owner: u32,
    next: u32,
}

/// What is known so far. `missing` has for each row how many of its arguments have no run yet;
/// `waiting` has for each nonterminal the first slot of its chain; `reached` lists the nonterminals
/// that have a run, in the order in which that was found.
#[derive(Drop)]
pub struct Keeping {
    missing: Vec<u32>,
    slots: Vec<Slot>,
    waiting: Vec<u32>,
    is_reached: Vec<bool>,
    reached: Vec<u32>,
}

impl Keeping {
    /// Literals alone have a run, of so many nonterminals.
    pub fn new(alloc: Global, count: u32) -> Result<Keeping, NoMemory> {
        let mut waiting = Vec::new(alloc);
        let mut is_reached = Vec::new(alloc);
        for _ in 0..count {
            waiting.push(NONE)?;
            is_reached.push(false)?;
        }
        let mut keeping = Keeping {
            missing: Vec::new(alloc),
            slots: Vec::new(alloc),
            waiting,
            is_reached,
            reached: Vec::new(alloc),
        };
        keeping.reach(0)?;
        keeping.reach(1)?;
        Ok(keeping)
    }

    /// The nonterminal has a run.
    pub fn reach(&mut self, nonterminal: u32) -> Result<(), NoMemory> {
        match self.is_reached.get_mut(nonterminal as usize) {
            None => return Ok(()), // excluded: nonterminals are in range
            Some(is_reached) => {
                if *is_reached {
                    return Ok(());
                }
                *is_reached = true;
            }
        }
        self.reached.push(nonterminal)?;
        Ok(())
    }

    /// The row's argument waits for the nonterminal.
    fn wait(&mut self, owner: u32, nonterminal: u32) -> Result<(), NoMemory> {
        let slot = number(self.slots.len())?;
        match self.waiting.get_mut(nonterminal as usize) {
            None => Ok(()), // excluded: nonterminals are in range
            Some(first) => {
                let next = *first;
                *first = slot;
                self.slots.push(Slot { owner, next })?;
                Ok(())
            }
        }
    }

    /// A further row, of a function with this signature.
    pub fn add(&mut self, signature: &Signature, row: Row) -> Result<(), NoMemory> {
        let owner = number(self.missing.len())?;
        let count = signature.count();
        self.missing.push(count)?;
        if count == 0 {
            return self.reach(row.result);
        }
        for argument in 0..count {
            self.wait(owner, signature.nonterminal(argument, row.case))?;
        }
        Ok(())
    }

    /// One argument of the row has a run.
    fn meet(&mut self, owner: u32, rows: &[Row]) -> Result<(), NoMemory> {
        match self.missing.get_mut(owner as usize) {
            None => return Ok(()), // a slot has the number of a row
            Some(missing) => {
                *missing = missing.saturating_sub(1);
                if *missing > 0 {
                    return Ok(());
                }
            }
        }
        match rows.get(owner as usize) {
            None => Ok(()), // a slot has the number of a row
            Some(row) => self.reach(row.result),
        }
    }

    /// Goes through the chain of a nonterminal that has a run.
    fn pass_on(&mut self, nonterminal: u32, rows: &[Row]) -> Result<(), NoMemory> {
        let mut at = match self.waiting.get(nonterminal as usize) {
            None => return Ok(()), // excluded: nonterminals are in range
            Some(first) => *first,
        };
        for _ in 0..self.slots.len() {
            let slot = match self.slots.get(at as usize) {
                None => return Ok(()),
                Some(slot) => *slot,
            };
            self.meet(slot.owner, rows)?;
            at = slot.next;
        }
        Ok(())
    }

    /// Goes through all nonterminals that have a run, those that are found on the way included.
    /// `rows` are all that were added.
    pub fn close(&mut self, rows: &[Row]) -> Result<(), NoMemory> {
        for turn in 0..self.waiting.len() {
            let nonterminal = match self.reached.get(turn) {
                None => return Ok(()),
                Some(nonterminal) => *nonterminal,
            };
            self.pass_on(nonterminal, rows)?;
        }
        Ok(())
    }

    /// Whether each argument of the row has a run.
    pub fn is_kept(&self, row: u32) -> bool {
        match self.missing.get(row as usize) {
            None => false, // a row has its number
            Some(missing) => *missing == 0,
        }
    }
}
