//! Productions as rows of numbers.
use crate::encoding::encoded;
use gft_core::NoMemory;
use gft_pmcfg::Prod;
use indexmap::IndexSet;
use std::alloc::Global;

/// A production. Where two of its function are alike but for their sequences, `rank` is less for
/// those that come first in order; `sample` is the first production with these sequences. Rows are
/// in the order of productions.
#[derive(PartialEq, Eq, PartialOrd, Ord, Hash, Drop)]
pub struct Row {
    pub fun: u32,
    pub args: Vec<u64>,
    pub result: u32,
    pub rank: usize,
    pub sample: usize,
}

/// The bytes of sequences, with their number among those that were met.
#[derive(PartialEq, Eq, PartialOrd, Ord, Drop)]
struct Ranked {
    bytes: Vec<u8>,
    number: usize,
}

/// What was met of the sequences of a function: for each production in turn the number of its
/// sequences, and for each of these numbers the first production.
#[derive(Drop)]
struct Met {
    seqs: IndexSet<Vec<u8>>,
    numbers: Vec<usize>,
    samples: Vec<usize>,
}

impl Met {
    fn new(alloc: Global) -> Met {
        Met {
            seqs: IndexSet::new(alloc),
            numbers: Vec::new(alloc),
            samples: Vec::new(alloc),
        }
    }

    fn add(&mut self, alloc: Global, prod: &Prod, at: usize) -> Result<(), NoMemory> {
        let bytes = encoded(alloc, prod.seqs.as_slice())?;
        let (number, is_new) = self.seqs.insert_full(bytes)?;
        if is_new {
            self.samples.push(at)?;
        }
        self.numbers.push(number)?;
        Ok(())
    }
}

/// The place of each number in the order of the bytes.
fn ranks(alloc: Global, seqs: IndexSet<Vec<u8>>) -> Result<Vec<usize>, NoMemory> {
    let mut ranks = Vec::new(alloc);
    let mut all = Vec::new(alloc);
    for bytes in seqs {
        all.push(Ranked {
            bytes,
            number: ranks.len(),
        })?;
        ranks.push(0)?;
    }
    all.sort()?;
    let mut rank = 0usize;
    for one in all.as_slice() {
        if let Some(place) = ranks.get_mut(one.number) {
            *place = rank;
        }
        rank = rank.saturating_add(1);
    }
    Ok(ranks)
}

/// The nonterminals of the arguments, as codes.
fn codes(alloc: Global, prod: &Prod) -> Result<Vec<u64>, NoMemory> {
    let mut codes = Vec::new(alloc);
    for arg in prod.args.as_slice() {
        codes.push(*arg as u64)?;
    }
    Ok(codes)
}

fn at(numbers: &[usize], place: usize) -> usize {
    match numbers.get(place) {
        None => 0, // each production has a number, and each number a rank and a sample
        Some(number) => *number,
    }
}

/// A production as a row.
fn row_of(alloc: Global, prod: &Prod, rank: usize, sample: usize) -> Result<Row, NoMemory> {
    Ok(Row {
        fun: prod.fun,
        args: codes(alloc, prod)?,
        result: prod.result,
        rank,
        sample,
    })
}

/// Adds the rows of the productions from one place to another, of which no two can become one: that
/// of a function which has no other, or those of a function without arguments. Their own order is
/// that of rows.
pub fn add_alone(
    alloc: Global,
    prods: &[Prod],
    from: usize,
    to: usize,
    all: &mut Vec<Row>,
) -> Result<(), NoMemory> {
    for place in from..to {
        if let Some(prod) = prods.get(place) {
            all.push(row_of(alloc, prod, place, place)?)?;
        }
    }
    Ok(())
}

/// The rows of the productions from one place to another, which are those of a function.
pub fn rows(alloc: Global, prods: &[Prod], from: usize, to: usize) -> Result<Vec<Row>, NoMemory> {
    let mut met = Met::new(alloc);
    for place in from..to {
        if let Some(prod) = prods.get(place) {
            met.add(alloc, prod, place)?;
        }
    }
    let Met {
        seqs,
        numbers,
        samples,
    } = met;
    let ranks = ranks(alloc, seqs)?;
    let mut rows = Vec::new(alloc);
    for place in from..to {
        if let Some(prod) = prods.get(place) {
            let number = at(numbers.as_slice(), place - from);
            let (rank, sample) = (at(ranks.as_slice(), number), at(samples.as_slice(), number));
            rows.push(row_of(alloc, prod, rank, sample)?)?;
        }
    }
    Ok(rows)
}
