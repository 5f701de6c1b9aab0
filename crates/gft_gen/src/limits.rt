//! What a concrete module lacks, and the limits of its types, in the order of an import.
use crate::fault::{Halt, Subject, broken};
use crate::judgements::{Judgements, place_of, type_of};
use crate::layout::{Layout, PLAIN, Sizes};
use crate::rows::number;
use gft_core::NoMemory;
use gft_pmcfg::Abstract;
use gft_rules::Rule;
use gft_syntax::Flat;
use gft_value::cell_count;
use std::alloc::Global;

/// The most cells of a linearization type.
const CELLS: u64 = 65_536;

/// The most cases of a category or of a function, and the most results over all cases.
pub const CASES: u64 = 1_048_576;

/// The most nonterminals of a language.
const NONTERMINALS: u64 = 1_073_741_826;

/// The layout of each category by number, and the cells of all of them.
#[derive(Drop)]
pub struct Layouts {
    pub all: Vec<Layout>,
    pub sizes: Sizes,
}

/// Each category has a linearization type of few enough cells.
pub fn check_cells(
    flat: &Flat,
    abs: &Abstract,
    c: u32,
    judgements: &Judgements,
) -> Result<(), Halt> {
    for place in 2..abs.cats.len() {
        let category = number(place)?;
        let Some(found) = judgements.lincat(category) else {
            return broken(Rule::NoLincat, None, Subject::Category(category));
        };
        let cells = match type_of(flat, found) {
            None => 0, // excluded by typing: a linearization type is typed
            Some(of) => cell_count(of),
        };
        if cells > CELLS {
            let place = place_of(flat, c, found);
            return broken(Rule::TooManyCells, place, Subject::Category(category));
        }
    }
    Ok(())
}

/// Each function has a linearization.
pub fn check_functions(abs: &Abstract, judgements: &Judgements) -> Result<(), Halt> {
    for place in 0..abs.funs.len() {
        let function = number(place)?;
        if judgements.lin(function).is_none() {
            return broken(Rule::NoLin, None, Subject::Function(function));
        }
    }
    Ok(())
}

impl Layouts {
    fn new(alloc: Global) -> Result<Layouts, NoMemory> {
        let mut all = Vec::new(alloc);
        all.push(PLAIN)?;
        all.push(PLAIN)?;
        Ok(Layouts {
            all,
            sizes: Sizes::new(alloc),
        })
    }

    /// Adds the layout of the next category, which has few enough cases.
    fn add(
        &mut self,
        flat: &Flat,
        c: u32,
        judgements: &Judgements,
        category: u32,
    ) -> Result<(), Halt> {
        let Some(found) = judgements.lincat(category) else {
            self.all.push(PLAIN)?; // excluded: each category has a linearization type
            return Ok(());
        };
        let Some(of) = type_of(flat, found) else {
            self.all.push(PLAIN)?; // excluded by typing: a linearization type is typed
            return Ok(());
        };
        let (layout, cases) = self.sizes.layout(of)?;
        if cases > CASES {
            let place = place_of(flat, c, found);
            return broken(Rule::TooManyCases, place, Subject::Category(category));
        }
        self.all.push(layout)?;
        Ok(())
    }

    /// Numbers the nonterminals of all categories, of which there are few enough.
    fn place(&mut self) -> Result<(), Halt> {
        let mut first = 0u64;
        for layout in self.all.iter_mut() {
            layout.first = u32::try_from(first).unwrap_or(u32::MAX);
            first = first.saturating_add(u64::from(layout.count));
        }
        if first > NONTERMINALS {
            return broken(Rule::TooManyNonterminals, None, Subject::Language);
        }
        Ok(())
    }

    /// The layouts of all categories. Each has a linearization type of few enough cells.
    pub fn of(
        alloc: Global,
        flat: &Flat,
        abs: &Abstract,
        c: u32,
        judgements: &Judgements,
    ) -> Result<Layouts, Halt> {
        let mut layouts = Layouts::new(alloc)?;
        for place in 2..abs.cats.len() {
            layouts.add(flat, c, judgements, number(place)?)?;
        }
        layouts.place()?;
        Ok(layouts)
    }
}
