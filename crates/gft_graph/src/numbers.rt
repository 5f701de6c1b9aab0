//! Tables of numbers, read and written at any place.
use gft_core::NoMemory;
use std::alloc::Global;

/// No number.
pub const NONE: u32 = u32::MAX;

/// The number at a place, `NONE` past the end. It takes no memory.
pub fn at(numbers: &[u32], place: u32) -> u32 {
    numbers.get(place as usize).copied().unwrap_or(NONE)
}

/// Puts a number at a place, nowhere past the end. It takes no memory.
pub fn put(numbers: &mut Vec<u32>, place: u32, number: u32) {
    if let Some(here) = numbers.get_mut(place as usize) {
        *here = number;
    }
}

/// As many times the same number.
pub fn filled(alloc: Global, count: u32, number: u32) -> Result<Vec<u32>, NoMemory> {
    let mut numbers = Vec::new(alloc);
    'numbers: for _ in 0..count {
        numbers.push(number)?;
    }
    Ok(numbers)
}

/// How many there are; as many as fit no number are want of memory.
pub fn count<T>(list: &[T]) -> Result<u32, NoMemory> {
    match u32::try_from(list.len()) {
        Ok(count) if count < NONE => Ok(count),
        _ => Err(NoMemory),
    }
}
