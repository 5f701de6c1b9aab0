//! A concrete syntax by what can be built within a depth, made once for many fillings.
use crate::least::{least_depths, nonterminals_of};
use gft_abs::{NONE, at, filled, put};
use gft_core::NoMemory;
use gft_pmcfg::{Abstract, Cat, Concrete, Prod};
use std::alloc::Global;

/// A production with the least depth of a run that begins with it.
#[derive(Clone, Copy)]
pub struct Candidate {
    pub production: u32,
    pub least: u32,
}

/// The least depth of a run without holes of each nonterminal, and the productions that begin such
/// runs: by their result, then by that depth, then in file order.
#[derive(Drop)]
pub struct Tables {
    least: Vec<u32>,
    starts: Vec<u32>,
    candidates: Vec<Candidate>,
    plain: bool,
}

/// The least depth of a run that begins with a production, `NONE` where there is none.
fn depth_of(least: &[u32], production: &Prod) -> u32 {
    let mut most = 0u32;
    'arguments: for argument in production.args.as_slice() {
        most = most.max(at(least, *argument));
    }
    most.saturating_add(1)
}

type Key = (u32, u32, u32);

/// The productions that begin runs, by their result, their depth and their number.
fn keys_of(alloc: Global, c: &Concrete, least: &[u32]) -> Result<Vec<Key>, NoMemory> {
    let mut keys: Vec<Key> = Vec::new(alloc);
    let mut number = 0u32;
    'productions: for production in c.prods.as_slice() {
        let depth = depth_of(least, production);
        if depth != NONE {
            keys.push((production.result, depth, number))?;
        }
        number = number.saturating_add(1);
    }
    keys.sort()?;
    Ok(keys)
}

/// Where the keys of each nonterminal begin, and after the last one where all end.
fn starts_of(alloc: Global, keys: &[Key], total: u32) -> Result<Vec<u32>, NoMemory> {
    let mut starts = filled(alloc, total.saturating_add(1), 0)?;
    'counts: for (result, _, _) in keys {
        let next = result.saturating_add(1);
        let counted = at(starts.as_slice(), next).saturating_add(1);
        put(&mut starts, next, counted);
    }
    let mut sum = 0u32;
    'sums: for place in 0..total.saturating_add(1) {
        sum = sum.saturating_add(at(starts.as_slice(), place));
        put(&mut starts, place, sum);
    }
    Ok(starts)
}

fn candidates_of(alloc: Global, keys: &[Key]) -> Result<Vec<Candidate>, NoMemory> {
    let mut candidates: Vec<Candidate> = Vec::new(alloc);
    'keys: for (_, least, production) in keys {
        candidates.push(Candidate {
            production: *production,
            least: *least,
        })?;
    }
    Ok(candidates)
}

/// Whether no category takes indices.
fn is_plain(cats: &[Cat]) -> bool {
    'categories: for cat in cats {
        if !cat.context.is_empty() {
            return false;
        }
    }
    true
}

impl Tables {
    /// The tables of a concrete syntax, in time that is all but linear.
    pub fn new(alloc: Global, c: &Concrete, abs: &Abstract) -> Result<Tables, NoMemory> {
        let total = nonterminals_of(c.infos.as_slice());
        let least = least_depths(alloc, c, total)?;
        let keys = keys_of(alloc, c, least.as_slice())?;
        let starts = starts_of(alloc, keys.as_slice(), total)?;
        let candidates = candidates_of(alloc, keys.as_slice())?;
        Ok(Tables {
            least,
            starts,
            candidates,
            plain: is_plain(abs.cats.as_slice()),
        })
    }

    /// Whether no category of the grammar takes indices: then each skeleton tree has a type.
    pub fn is_plain(&self) -> bool {
        self.plain
    }

    /// Whether a nonterminal has a run without holes within a depth.
    pub fn has_run_within(&self, nonterminal: u32, depth: u32) -> bool {
        let least = at(self.least.as_slice(), nonterminal);
        least != NONE && least <= depth
    }

    /// Where the candidates of a nonterminal begin.
    pub fn first(&self, nonterminal: u32) -> u32 {
        at(self.starts.as_slice(), nonterminal)
    }

    /// Where the candidates of a nonterminal end.
    pub fn last(&self, nonterminal: u32) -> u32 {
        at(self.starts.as_slice(), nonterminal.saturating_add(1))
    }

    /// A candidate by its place.
    pub fn candidate(&self, place: u32) -> Option<Candidate> {
        self.candidates.get(place as usize).copied()
    }
}
