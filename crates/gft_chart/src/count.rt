//! Lengths of tables as numbers.
use gft_core::NoMemory;

/// Stands for "none" where a table holds numbers.
pub const NONE: u32 = u32::MAX;

/// A length as a number of a table. Tables end before `NONE`: past that the answer is want of
/// memory.
pub fn count(length: usize) -> Result<u32, NoMemory> {
    match u32::try_from(length) {
        Ok(number) if number < NONE => Ok(number),
        _ => Err(NoMemory),
    }
}

/// The number at a place of a table, or `NONE` past its end.
pub fn read(table: &Vec<u32>, at: usize) -> u32 {
    match table.get(at) {
        Some(&value) => value,
        None => NONE,
    }
}

/// The sum of two places, or the last place where it is greater.
pub fn place(base: u32, offset: u32) -> usize {
    (base as usize).saturating_add(offset as usize)
}
