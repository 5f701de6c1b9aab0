//! Cases by number: the values of parameter cells in order, the first counting most.
use gft_core::NoMemory;
use std::alloc::Global;

/// A parameter cell: the number of its values, and by how much one more of it raises the number of
/// a case.
#[derive(Clone, Copy)]
pub struct Cell {
    pub size: u32,
    pub weight: u32,
}

/// The parameter cells of arguments, all in order.
#[derive(Drop)]
pub struct Cells {
    all: Vec<Cell>,
}

/// The cell that is taken where there is none: it has one value.
const NONE: Cell = Cell { size: 1, weight: 1 };

impl Cells {
    /// No cell.
    pub fn new(alloc: Global) -> Cells {
        Cells {
            all: Vec::new(alloc),
        }
    }

    /// Adds a cell of so many values.
    pub fn add(&mut self, size: u32) -> Result<(), NoMemory> {
        self.all.push(Cell { size, weight: 1 })?;
        Ok(())
    }

    /// Gives each cell its weight, once all are there.
    pub fn weigh(&mut self) {
        let mut weight = 1u32;
        for cell in self.all.iter_mut().rev() {
            cell.weight = weight;
            weight = weight.saturating_mul(cell.size);
        }
    }

    /// The cell of that number.
    pub fn at(&self, cell: u32) -> Cell {
        match self.all.get(cell as usize) {
            None => NONE, // excluded: cells are asked for by their numbers
            Some(cell) => *cell,
        }
    }

    /// All cells in order.
    pub fn as_slice(&self) -> &[Cell] {
        self.all.as_slice()
    }
}

/// The value of a cell in a case.
pub fn digit(case: u32, cell: Cell) -> u32 {
    let above = case.checked_div(cell.weight).unwrap_or(0);
    above.checked_rem(cell.size).unwrap_or(0)
}
