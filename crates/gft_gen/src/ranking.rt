//! The outcomes of a part in the order of their sequences' bytes.
use crate::rows::{Outcome, number};
use crate::tables::Tables;
use gft_core::NoMemory;
use std::alloc::Global;

/// The bytes of an outcome's sequences, and its place in the part.
#[derive(PartialEq, Eq, PartialOrd, Ord, Drop)]
struct Ranked {
    bytes: Vec<u8>,
    place: usize,
}

impl Tables {
    /// The bytes of so many sequences from a place on, as files have them.
    fn encoded(&self, alloc: Global, from: u32, count: u32) -> Result<Vec<u8>, NoMemory> {
        let mut bytes = Vec::new(alloc);
        for place in from..from.saturating_add(count) {
            if let Some(range) = self.all.strings.get(place as usize) {
                self.words
                    .add_sequence(self.all.symbols.as_slice(), *range, &mut bytes)?;
            }
        }
        Ok(bytes)
    }

    /// The outcomes, with so many sequences each, in order.
    fn ranked(
        &self,
        alloc: Global,
        outcomes: &[Outcome],
        dim: u32,
    ) -> Result<Vec<Ranked>, NoMemory> {
        let mut ranked = Vec::new(alloc);
        for (place, outcome) in outcomes.iter().enumerate() {
            let bytes = self.encoded(alloc, outcome.sequences, dim)?;
            ranked.push(Ranked { bytes, place })?;
        }
        ranked.sort()?;
        Ok(ranked)
    }

    /// Puts the outcomes from the place `first` on, which have so many sequences each, in the order
    /// of the bytes of these. So rows of one case and one result are in order by their outcomes'
    /// numbers.
    pub fn rank(&mut self, alloc: Global, first: u32, dim: u32) -> Result<(), NoMemory> {
        let outcomes = self.parts.outcomes_from(alloc, first)?;
        let ranked = self.ranked(alloc, outcomes.as_slice(), dim)?;
        for (place, one) in ranked.iter().enumerate() {
            if let Some(outcome) = outcomes.get(one.place) {
                let place = first.saturating_add(number(place)?);
                self.parts.put_outcome(place, *outcome);
            }
        }
        Ok(())
    }
}
