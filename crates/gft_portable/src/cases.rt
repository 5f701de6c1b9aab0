//! The cases of the categories of a language: its nonterminals.
use crate::fault::ReadErr;
use crate::field::{Reader, bad};
use crate::terms::push;
use gft_pmcfg::Info;
use gft_rules::Rule;
use std::alloc::Global;

/// The most nonterminals of a language.
const MOST_NONTERMINALS: u64 = 1_073_741_826;
/// The largest dimension.
const LARGEST_DIMENSION: u32 = 65_536;

/// The version of a file.
#[derive(Clone, Copy, PartialEq, Eq)]
pub enum Version {
    One,
    Two,
}

impl Version {
    /// The most cases of a category.
    fn most_cases(self) -> u32 {
        match self {
            Version::One => 65_536,
            Version::Two => 1_048_576,
        }
    }
}

/// The categories of a language by number, and how many nonterminals they have.
#[derive(Drop)]
pub struct Cases {
    pub infos: Vec<Info>,
    pub total: u32,
}

impl Cases {
    /// `Int` and `String`.
    fn literals(alloc: Global) -> Result<Cases, ReadErr> {
        let mut infos = Vec::new(alloc);
        for first in 0..2u32 {
            let (count, dim) = (1, 1);
            push(&mut infos, Info { first, count, dim })?;
        }
        Ok(Cases { infos, total: 2 })
    }

    /// The number of cases and the dimension of one more category.
    fn add(&mut self, reader: &mut Reader, version: Version) -> Result<(), ReadErr> {
        let at = reader.at();
        let count = reader.number()?;
        if count < 1 || count > version.most_cases() {
            return Err(bad(Rule::BadNumber, at));
        }
        let total = u64::from(self.total).saturating_add(u64::from(count));
        if version == Version::Two && total > MOST_NONTERMINALS {
            return Err(bad(Rule::BadNumber, at));
        }
        let dim = reader.below(LARGEST_DIMENSION + 1)?;
        let first = self.total;
        push(&mut self.infos, Info { first, count, dim })?;
        self.total = u32::try_from(total).unwrap_or(u32::MAX);
        Ok(())
    }

    /// The category of a nonterminal. None past the last one.
    pub fn category(&self, nonterminal: u32) -> Option<u32> {
        if nonterminal >= self.total {
            return None;
        }
        let after = self
            .infos
            .as_slice()
            .partition_point(|info| info.first <= nonterminal);
        u32::try_from(after)
            .ok()
            .and_then(|after| after.checked_sub(1))
    }

    /// The dimension of a category, 0 past the last one.
    pub fn dimension(&self, cat: u32) -> u32 {
        match self.infos.get(cat as usize) {
            None => 0,
            Some(info) => info.dim,
        }
    }

    /// A nonterminal of the category.
    pub fn read_of(&self, reader: &mut Reader, cat: u32) -> Result<u32, ReadErr> {
        let at = reader.at();
        let nonterminal = reader.number()?;
        if self.category(nonterminal) != Some(cat) {
            return Err(bad(Rule::BadNumber, at));
        }
        Ok(nonterminal)
    }

    /// A nonterminal of some listed category, with the dimension of that.
    pub fn read_listed(&self, reader: &mut Reader) -> Result<(u32, u32), ReadErr> {
        let at = reader.at();
        let nonterminal = reader.number()?;
        match self.category(nonterminal) {
            None => Err(bad(Rule::BadNumber, at)),
            Some(cat) => {
                if cat < 2 {
                    return Err(bad(Rule::BadNumber, at));
                }
                Ok((nonterminal, self.dimension(cat)))
            }
        }
    }
}

/// Reads the cases and the dimension of each listed category.
pub fn read_cases(
    alloc: Global,
    reader: &mut Reader,
    version: Version,
    categories: u32,
) -> Result<Cases, ReadErr> {
    let mut cases = Cases::literals(alloc)?;
    for _ in 0..categories {
        cases.add(reader, version)?;
    }
    Ok(cases)
}
