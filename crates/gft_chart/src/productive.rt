//! Which nonterminals have runs without holes.
use crate::count::{NONE, count, read};
use gft_core::NoMemory;
use gft_pmcfg::{Concrete, Info, Prod};
use std::alloc::Global;

/// One more than the last nonterminal, and at least 2.
pub fn nonterminals_of(infos: &[Info]) -> u32 {
    let mut most = 2u32;
    for info in infos {
        most = most.max(info.first.saturating_add(info.count));
    }
    most
}

/// Productions by what they wait for.
#[derive(Drop)]
struct Waiting {
    /// For each production its result, and how many of its arguments have no run yet.
    results: Vec<u32>,
    missing: Vec<u32>,
    /// For each nonterminal the last use, and for each use the one before it and its production.
    last: Vec<u32>,
    before: Vec<u32>,
    users: Vec<u32>,
    has_run: Vec<bool>,
    /// The nonterminals that have runs, in the order in which that was seen.
    reached: Vec<u32>,
}

impl Waiting {
    fn new(alloc: Global, total: u32) -> Result<Waiting, NoMemory> {
        let mut waiting = Waiting {
            results: Vec::new(alloc),
            missing: Vec::new(alloc),
            last: Vec::new(alloc),
            before: Vec::new(alloc),
            users: Vec::new(alloc),
            has_run: Vec::new(alloc),
            reached: Vec::new(alloc),
        };
        waiting.last.resize(total as usize, NONE)?;
        waiting.has_run.resize(total as usize, false)?;
        Ok(waiting)
    }

    fn reach(&mut self, nonterminal: u32) -> Result<(), NoMemory> {
        if let Some(has_run) = self.has_run.get_mut(nonterminal as usize) {
            if !*has_run {
                *has_run = true;
                self.reached.push(nonterminal)?;
            }
        }
        Ok(())
    }

    fn use_argument(&mut self, production: u32, argument: u32) -> Result<(), NoMemory> {
        let number = count(self.before.len())?;
        let mut before = NONE;
        if let Some(last) = self.last.get_mut(argument as usize) {
            before = *last;
            *last = number;
        }
        self.before.push(before)?;
        self.users.push(production)?;
        Ok(())
    }

    fn add(&mut self, production: &Prod) -> Result<(), NoMemory> {
        let number = count(self.results.len())?;
        self.results.push(production.result)?;
        self.missing.push(count(production.args.len())?)?;
        for argument in production.args.as_slice() {
            self.use_argument(number, *argument)?;
        }
        if production.args.is_empty() {
            self.reach(production.result)?;
        }
        Ok(())
    }

    /// One more argument of the production has runs.
    fn supply(&mut self, production: u32) -> Result<(), NoMemory> {
        if let Some(missing) = self.missing.get_mut(production as usize) {
            *missing = missing.saturating_sub(1);
            if *missing == 0 {
                let result = read(&self.results, production as usize);
                self.reach(result)?;
            }
        }
        Ok(())
    }

    fn supply_users(&mut self, nonterminal: u32) -> Result<(), NoMemory> {
        let mut link = read(&self.last, nonterminal as usize);
        'uses: for _ in 0..self.users.len() {
            if link == NONE {
                break 'uses;
            }
            let user = read(&self.users, link as usize);
            self.supply(user)?;
            link = read(&self.before, link as usize);
        }
        Ok(())
    }

    fn close(&mut self) -> Result<(), NoMemory> {
        'reached: for at in 0..self.has_run.len() {
            match self.reached.get(at) {
                Some(&nonterminal) => self.supply_users(nonterminal)?,
                None => break 'reached,
            }
        }
        Ok(())
    }
}

/// For each nonterminal whether it has a run without holes. Linear in the productions.
pub fn runs_of(alloc: Global, c: &Concrete, total: u32) -> Result<Vec<bool>, NoMemory> {
    let mut waiting = Waiting::new(alloc, total)?;
    waiting.reach(0)?;
    waiting.reach(1)?;
    for production in c.prods.as_slice() {
        waiting.add(production)?;
    }
    waiting.close()?;
    let Waiting {
        results: _,
        missing: _,
        last: _,
        before: _,
        users: _,
        has_run,
        reached: _,
    } = waiting;
    Ok(has_run)
}
