//! The cells of a linearization type as numbers: strings are counted, parameters have their numbers
//! of values.
use gft_core::{Name, NoMemory};
use gft_syntax::CType;
use gft_value::{cell_count, count_of};
use std::alloc::Global;

/// What a type is for productions: its first nonterminal, the number of its cases, the number of
/// its string cells, and where its parameter cells stand among all of them.
#[derive(Clone, Copy)]
pub struct Layout {
    pub first: u32,
    pub count: u32,
    pub dim: u32,
    pub from: u32,
    pub to: u32,
}

/// The type of strings, `{s : Str}` among them: one string cell and one case.
pub const PLAIN: Layout = Layout {
    first: 0,
    count: 1,
    dim: 1,
    from: 0,
    to: 0,
};

/// The layout of a category by number.
pub fn layout_at(layouts: &[Layout], category: u32) -> Layout {
    match layouts.get(category as usize) {
        None => PLAIN, // excluded: the number of a category is in range
        Some(layout) => *layout,
    }
}

/// How many nonterminals all categories have.
pub fn nonterminals(layouts: &[Layout]) -> u32 {
    match layouts.last() {
        None => 0,
        Some(layout) => layout.first.saturating_add(layout.count),
    }
}

/// The numbers of values of parameter cells, one type after the other.
#[derive(Drop)]
pub struct Sizes {
    sizes: Vec<u32>,
}

fn number(n: u64) -> u32 {
    u32::try_from(n).unwrap_or(u32::MAX)
}

impl Sizes {
    /// No cell yet.
    pub fn new(alloc: Global) -> Sizes {
        Sizes {
            sizes: Vec::new(alloc),
        }
    }

    /// How many cells there are.
    fn count(&self) -> Result<u32, NoMemory> {
        u32::try_from(self.sizes.len()).map_err(|_| NoMemory)
    }

    /// The number of values of a cell.
    pub fn at(&self, cell: u32) -> u32 {
        match self.sizes.get(cell as usize) {
            None => 1, // a layout has its cells
            Some(size) => *size,
        }
    }

    /// The number of values of the cell of a layout that has so many of its cells after it.
    pub fn at_end(&self, layout: Layout, back: u32) -> u32 {
        self.at(layout.to.saturating_sub(back).saturating_sub(1))
    }

    /// Adds the parameter cells of a type in order; the answer is the number of string cells, after
    /// so many.
    #[cycle(add)]
    fn add(&mut self, of: &CType, strings: u32) -> Result<u32, NoMemory> {
        match of {
            CType::Str => Ok(strings.saturating_add(1)),
            CType::Param(_, _) => self.add_size(count_of(of), strings),
            CType::Ints(_) => self.add_size(count_of(of), strings),
            CType::Record(fields) => self.add_fields(fields.get().as_slice(), strings),
            CType::Table(over, values) => {
                self.add_values(count_of(over.get()), values.get(), strings)
            }
            _ => Ok(strings), // a sort has no cell, and a function is no data
        }
    }

    fn add_size(&mut self, size: u64, strings: u32) -> Result<u32, NoMemory> {
        self.sizes.push(number(size))?;
        Ok(strings)
    }

    #[cycle(add)]
    fn add_fields(&mut self, fields: &[(Name, CType)], strings: u32) -> Result<u32, NoMemory> {
        let mut strings = strings;
        'fields: for field in fields {
            strings = self.add(&field.1, strings)?;
        }
        Ok(strings)
    }

    /// Adds the cells of so many values of one type.
    #[cycle(add)]
    fn add_values(&mut self, count: u64, of: &CType, strings: u32) -> Result<u32, NoMemory> {
        if cell_count(of) == 0 {
            return Ok(strings);
        }
        let mut strings = strings;
        'values: for _ in 0..count {
            strings = self.add(of, strings)?;
        }
        Ok(strings)
    }

    /// How many choices of a value for each cell there are, or the greatest number.
    fn cases(&self, from: u32, to: u32) -> u64 {
        let mut cases = 1u64;
        for cell in from..to {
            cases = cases.saturating_mul(u64::from(self.at(cell)));
        }
        cases
    }

    /// The layout of a type of at most 65,536 cells, and the number of its cases, or the greatest
    /// number. The layout's first nonterminal is 0.
    pub fn layout(&mut self, of: &CType) -> Result<(Layout, u64), NoMemory> {
        let from = self.count()?;
        let strings = self.add(of, 0)?;
        let to = self.count()?;
        let cases = self.cases(from, to);
        let layout = Layout {
            first: 0,
            count: number(cases),
            dim: strings,
            from,
            to,
        };
        Ok((layout, cases))
    }
}
