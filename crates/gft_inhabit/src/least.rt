//! The least depth of a run without holes of each nonterminal.
use gft_abs::{NONE, at, count, filled, put};
use gft_core::NoMemory;
use gft_pmcfg::{Concrete, Info, Prod};
use std::alloc::Global;

/// One more than the last nonterminal, and at least 2.
pub fn nonterminals_of(infos: &[Info]) -> u32 {
    let mut most = 2u32;
    'infos: for info in infos {
        most = most.max(info.first.saturating_add(info.count));
    }
    most
}

/// Productions by what they wait for.
#[derive(Drop)]
struct Waiting {
    /// For each production its result, and how many of its arguments have no depth yet.
    results: Vec<u32>,
    missing: Vec<u32>,
    /// For each nonterminal the last use, and for each use the one before it and its production.
    last: Vec<u32>,
    before: Vec<u32>,
    users: Vec<u32>,
    /// For each nonterminal its least depth, or `NONE`.
    least: Vec<u32>,
    /// The nonterminals that have a depth, the least first.
    reached: Vec<u32>,
}

impl Waiting {
    fn new(alloc: Global, total: u32) -> Result<Waiting, NoMemory> {
        Ok(Waiting {
            results: Vec::new(alloc),
            missing: Vec::new(alloc),
            last: filled(alloc, total, NONE)?,
            before: Vec::new(alloc),
            users: Vec::new(alloc),
            least: filled(alloc, total, NONE)?,
            reached: Vec::new(alloc),
        })
    }

    fn reach(&mut self, nonterminal: u32, depth: u32) -> Result<(), NoMemory> {
        if let Some(least) = self.least.get_mut(nonterminal as usize) {
            if *least == NONE {
                *least = depth;
                self.reached.push(nonterminal)?;
            }
        }
        Ok(())
    }

    fn use_argument(&mut self, production: u32, argument: u32) -> Result<(), NoMemory> {
        let number = count(self.before.as_slice())?;
        let before = at(self.last.as_slice(), argument);
        put(&mut self.last, argument, number);
        self.before.push(before)?;
        self.users.push(production)?;
        Ok(())
    }

    fn add(&mut self, production: &Prod) -> Result<(), NoMemory> {
        let number = count(self.results.as_slice())?;
        self.results.push(production.result)?;
        self.missing.push(count(production.args.as_slice())?)?;
        'arguments: for argument in production.args.as_slice() {
            self.use_argument(number, *argument)?;
        }
        Ok(())
    }

    /// Productions without arguments have depth 1, as literals have.
    fn begin(&mut self, prods: &[Prod]) -> Result<(), NoMemory> {
        self.reach(0, 1)?;
        self.reach(1, 1)?;
        'constants: for production in prods {
            if production.args.is_empty() {
                self.reach(production.result, 1)?;
            }
        }
        Ok(())
    }

    /// One more argument of the production has a depth.
    fn supply(&mut self, production: u32, depth: u32) -> Result<(), NoMemory> {
        let missing = at(self.missing.as_slice(), production).saturating_sub(1);
        put(&mut self.missing, production, missing);
        if missing == 0 {
            let result = at(self.results.as_slice(), production);
            self.reach(result, depth.saturating_add(1))?;
        }
        Ok(())
    }

    fn supply_users(&mut self, nonterminal: u32) -> Result<(), NoMemory> {
        let depth = at(self.least.as_slice(), nonterminal);
        let mut link = at(self.last.as_slice(), nonterminal);
        'uses: for _ in 0..self.users.len() {
            if link == NONE {
                break;
            }
            let user = at(self.users.as_slice(), link);
            self.supply(user, depth)?;
            link = at(self.before.as_slice(), link);
        }
        Ok(())
    }

    fn close(&mut self) -> Result<(), NoMemory> {
        'reached: for place in 0..self.least.len() {
            match self.reached.get(place).copied() {
                Some(nonterminal) => self.supply_users(nonterminal)?,
                None => break,
            }
        }
        Ok(())
    }
}

/// For each nonterminal the least depth of a run without holes, `NONE` where it has none. Linear in
/// the productions.
pub fn least_depths(alloc: Global, c: &Concrete, total: u32) -> Result<Vec<u32>, NoMemory> {
    let mut waiting = Waiting::new(alloc, total)?;
    'productions: for production in c.prods.as_slice() {
        waiting.add(production)?;
    }
    waiting.begin(c.prods.as_slice())?;
    waiting.close()?;
    let Waiting {
        results: _,
        missing: _,
        last: _,
        before: _,
        users: _,
        least,
        reached: _,
    } = waiting;
    Ok(least)
}
