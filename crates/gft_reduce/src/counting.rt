//! Which nonterminals have a run: for each production the arguments that still lack one are
//! counted.
use gft_core::NoMemory;
use gft_pmcfg::{Concrete, Info, Prod};
use std::alloc::Global;

/// No slot: the end of a chain.
const NONE: u32 = u32::MAX;

/// One argument of a production. Those that wait for one nonterminal are chained.
#[derive(Clone, Copy)]
struct Slot {
    owner: u32,
    next: u32,
}

/// What is known so far. `missing` has for each production how many of its arguments have no run
/// yet; `waiting` has for each nonterminal the first slot of its chain; `reached` lists the
/// nonterminals that have a run, in the order in which that was found.
#[derive(Drop)]
struct Counting {
    missing: Vec<u32>,
    slots: Vec<Slot>,
    waiting: Vec<u32>,
    is_reached: Vec<bool>,
    reached: Vec<u32>,
}

/// How many nonterminals the categories have.
fn nonterminals(infos: &[Info]) -> u32 {
    match infos.last() {
        None => 0,
        Some(info) => info.first.saturating_add(info.count),
    }
}

fn number(n: usize) -> u32 {
    u32::try_from(n).unwrap_or(NONE)
}

impl Counting {
    fn new(alloc: Global, count: u32) -> Result<Counting, NoMemory> {
        let mut waiting = Vec::new(alloc);
        let mut is_reached = Vec::new(alloc);
        for _ in 0..count {
            waiting.push(NONE)?;
            is_reached.push(false)?;
        }
        Ok(Counting {
            missing: Vec::new(alloc),
            slots: Vec::new(alloc),
            waiting,
            is_reached,
            reached: Vec::new(alloc),
        })
    }

    /// The nonterminal has a run.
    fn reach(&mut self, nonterminal: u32) -> Result<(), NoMemory> {
        match self.is_reached.get_mut(nonterminal as usize) {
            None => return Ok(()), // excluded by the ranges of a grammar
            Some(is_reached) => {
                if *is_reached {
                    return Ok(());
                }
                *is_reached = true;
            }
        }
        self.reached.push(nonterminal)?;
        Ok(())
    }

    /// The production's argument waits for the nonterminal.
    fn wait(&mut self, owner: u32, nonterminal: u32) -> Result<(), NoMemory> {
        let slot = number(self.slots.len());
        match self.waiting.get_mut(nonterminal as usize) {
            None => Ok(()), // excluded by the ranges of a grammar
            Some(first) => {
                let next = *first;
                *first = slot;
                self.slots.push(Slot { owner, next })?;
                Ok(())
            }
        }
    }

    /// A further production.
    fn add(&mut self, prod: &Prod) -> Result<(), NoMemory> {
        let owner = number(self.missing.len());
        let args = prod.args.as_slice();
        self.missing.push(number(args.len()))?;
        if args.is_empty() {
            return self.reach(prod.result);
        }
        for arg in args {
            self.wait(owner, *arg)?;
        }
        Ok(())
    }

    /// One argument of the production has a run.
    fn meet(&mut self, owner: u32, prods: &[Prod]) -> Result<(), NoMemory> {
        match self.missing.get_mut(owner as usize) {
            None => return Ok(()), // a slot has the number of a production
            Some(missing) => {
                *missing = missing.saturating_sub(1);
                if *missing > 0 {
                    return Ok(());
                }
            }
        }
        match prods.get(owner as usize) {
            None => Ok(()), // a slot has the number of a production
            Some(prod) => self.reach(prod.result),
        }
    }

    /// Goes through the chain of a nonterminal that has a run.
    fn pass_on(&mut self, nonterminal: u32, prods: &[Prod]) -> Result<(), NoMemory> {
        let mut at = match self.waiting.get(nonterminal as usize) {
            None => return Ok(()), // excluded by the ranges of a grammar
            Some(first) => *first,
        };
        for _ in 0..self.slots.len() {
            let slot = match self.slots.get(at as usize) {
                None => return Ok(()),
                Some(slot) => *slot,
            };
            self.meet(slot.owner, prods)?;
            at = slot.next;
        }
        Ok(())
    }

    /// Goes through all nonterminals that have a run, those that are found on the way included.
    fn close(&mut self, prods: &[Prod]) -> Result<(), NoMemory> {
        for turn in 0..self.waiting.len() {
            let nonterminal = match self.reached.get(turn) {
                None => return Ok(()),
                Some(nonterminal) => *nonterminal,
            };
            self.pass_on(nonterminal, prods)?;
        }
        Ok(())
    }
}

/// The literals have runs.
fn begun(alloc: Global, c: &Concrete) -> Result<Counting, NoMemory> {
    let mut counting = Counting::new(alloc, nonterminals(c.infos.as_slice()))?;
    counting.reach(0)?;
    counting.reach(1)?;
    Ok(counting)
}

/// For each production how many of its arguments have no run beyond what has one at the beginning.
fn missing(counting: Counting, c: &Concrete) -> Result<Vec<u32>, NoMemory> {
    let prods = c.prods.as_slice();
    let mut counting = counting;
    for prod in prods {
        counting.add(prod)?;
    }
    counting.close(prods)?;
    Ok(counting.missing)
}

/// For each production how many of its arguments have no run. A hole is one where a def gives it.
pub fn counted(alloc: Global, c: &Concrete) -> Result<Vec<u32>, NoMemory> {
    let mut counting = begun(alloc, c)?;
    for def in c.defs.as_slice() {
        counting.reach(def.result)?;
    }
    missing(counting, c)
}

/// For each production how many of its arguments have no run without holes.
pub fn counted_closed(alloc: Global, c: &Concrete) -> Result<Vec<u32>, NoMemory> {
    missing(begun(alloc, c)?, c)
}
