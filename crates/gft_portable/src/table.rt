//! The sequences of a concrete syntax, each once, in the order of their bytes.
use crate::output::{Output, count};
use gft_core::{NoMemory, Shared, Sym};
use gft_pmcfg::Coerced;
use indexmap::IndexSet;
use sqlite_items::Items;
use std::alloc::Global;

/// The bytes of a sequence, with its number among those that were met.
#[derive(PartialEq, Eq, PartialOrd, Ord, Drop)]
struct Ranked {
    bytes: Vec<u8>,
    number: u32,
}

/// The bytes of the sequences that were met, each once, and for each occurrence, in the order of
/// the file, which of them it is.
#[derive(Drop)]
struct Met {
    seqs: IndexSet<Vec<u8>>,
    numbers: Vec<u32>,
}

/// The sequences in order, and for each occurrence, in the order of the file, the place of its
/// sequence.
#[derive(Drop)]
pub struct Table {
    ordered: Vec<Ranked>,
    places: Vec<u32>,
}

impl Met {
    fn add(&mut self, alloc: Global, seq: &[Sym]) -> Result<(), NoMemory> {
        let mut out = Output::new(alloc);
        out.sequence(seq)?;
        let (number, _) = self.seqs.insert_full(out.bytes)?;
        self.numbers.push(count(number))?;
        Ok(())
    }

    fn add_all(&mut self, alloc: Global, seqs: &[Shared<Items<Sym>>]) -> Result<(), NoMemory> {
        for seq in seqs {
            self.add(alloc, seq.get().as_slice())?;
        }
        Ok(())
    }

    fn of(alloc: Global, c: &Coerced) -> Result<Met, NoMemory> {
        let mut met = Met {
            seqs: IndexSet::new(alloc),
            numbers: Vec::new(alloc),
        };
        for prod in c.prods.as_slice() {
            met.add_all(alloc, prod.seqs.as_slice())?;
        }
        for def in c.defs.as_slice() {
            met.add_all(alloc, def.seqs.as_slice())?;
        }
        for one in c.refs.as_slice() {
            met.add(alloc, one.seq.get().as_slice())?;
        }
        Ok(met)
    }
}

/// The place of each sequence in the order, by its number.
fn ranks(alloc: Global, ordered: &[Ranked]) -> Result<Vec<u32>, NoMemory> {
    let mut ranks = Vec::new(alloc);
    for _ in ordered {
        ranks.push(0)?;
    }
    let mut rank = 0u32;
    for one in ordered {
        if let Some(place) = ranks.get_mut(one.number as usize) {
            *place = rank;
        }
        rank = rank.saturating_add(1);
    }
    Ok(ranks)
}

/// The number at a place.
pub fn at(numbers: &[u32], place: usize) -> u32 {
    match numbers.get(place) {
        None => 0, // each occurrence has a number, and each number a place
        Some(number) => *number,
    }
}

fn in_order(alloc: Global, seqs: IndexSet<Vec<u8>>) -> Result<Vec<Ranked>, NoMemory> {
    let mut ordered = Vec::new(alloc);
    for bytes in seqs {
        let number = count(ordered.len());
        ordered.push(Ranked { bytes, number })?;
    }
    ordered.sort()?;
    Ok(ordered)
}

impl Table {
    /// The table of the sequences of productions, defs and refs.
    pub fn of(alloc: Global, c: &Coerced) -> Result<Table, NoMemory> {
        let Met { seqs, numbers } = Met::of(alloc, c)?;
        let ordered = in_order(alloc, seqs)?;
        let ranks = ranks(alloc, ordered.as_slice())?;
        let mut places = Vec::new(alloc);
        for number in numbers.as_slice() {
            places.push(at(ranks.as_slice(), *number as usize))?;
        }
        Ok(Table { ordered, places })
    }

    /// Writes the sequences.
    pub fn put(&self, out: &mut Output) -> Result<(), NoMemory> {
        out.many(self.ordered.len())?;
        for one in self.ordered.as_slice() {
            out.raw(one.bytes.as_slice())?;
        }
        Ok(())
    }

    /// The place of the sequence of this occurrence.
    pub fn place(&self, occurrence: usize) -> u32 {
        at(self.places.as_slice(), occurrence)
    }
}
