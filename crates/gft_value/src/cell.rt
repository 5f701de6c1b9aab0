//! The cells of a type: the ways to its leaves, in order.
use crate::count::cell_count;
use crate::values::{split, value_at};
use gft_core::{Name, NoMemory};
use gft_syntax::{CType, Path, PathStep};
use sqlite_items::Items;
use std::alloc::Global;

/// Adds the steps to the cell of that number.
#[cycle(push_steps)]
fn push_steps(
    alloc: Global,
    of: &CType,
    number: u64,
    steps: &mut Items<PathStep>,
) -> Result<(), NoMemory> {
    match of {
        CType::Record(fields) => push_field(alloc, fields.get().as_slice(), number, steps),
        CType::Table(over, values) => {
            let (entry, rest) = split(number, cell_count(values.get()));
            if let Some(value) = value_at(alloc, over.get(), entry)? {
                steps.push(PathStep::Cell(value))?;
            }
            push_steps(alloc, values.get(), rest, steps)
        }
        _ => Ok(()),
    }
}

#[cycle(push_steps)]
fn push_field(
    alloc: Global,
    fields: &[(Name, CType)],
    number: u64,
    steps: &mut Items<PathStep>,
) -> Result<(), NoMemory> {
    let mut left = number;
    'each: for field in fields {
        let count = cell_count(&field.1);
        if left < count {
            steps.push(PathStep::Label(field.0.copy(alloc)?))?;
            return push_steps(alloc, &field.1, left, steps);
        }
        left -= count;
    }
    Ok(())
}

/// The way to the cell of that number, from 0.
pub fn cell_at(alloc: Global, of: &CType, number: u64) -> Result<Path, NoMemory> {
    let mut steps = Items::new(alloc);
    push_steps(alloc, of, number, &mut steps)?;
    Ok(Path { steps })
}

/// The cells of a linearization type of at most 65,536 cells whose tables are over types of at most
/// 4,096 values: labels in byte order, tables in the order of their values.
pub fn cells(alloc: Global, of: &CType) -> Result<Vec<Path>, NoMemory> {
    let mut paths = Vec::new(alloc);
    'each: for number in 0..cell_count(of) {
        paths.push(cell_at(alloc, of, number)?)?;
    }
    Ok(paths)
}
