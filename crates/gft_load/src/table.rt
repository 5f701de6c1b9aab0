//! Tables by number.
use gft_core::NoMemory;

/// No number.
pub const NONE: u32 = u32::MAX;

/// Puts a value in the place of another, which is let go of; nowhere past the end.
pub fn put<T: Drop>(table: &mut Vec<T>, number: u32, value: T) {
    if let Some(place) = table.get_mut(number as usize) {
        *place = value;
    }
}

/// Adds a value at the end.
pub fn push<T: Drop>(table: &mut Vec<T>, value: T) -> Result<(), NoMemory> {
    table.push(value)?;
    Ok(())
}

/// Takes the value of that number, if it is still there.
pub fn take<T: Drop>(table: &mut Vec<Option<T>>, number: u32) -> Option<T> {
    match table.get_mut(number as usize) {
        Some(place) => place.take(),
        None => None,
    }
}

/// How many there are; as many as fit no number are want of memory.
pub fn count<T>(list: &[T]) -> Result<u32, NoMemory> {
    match u32::try_from(list.len()) {
        Ok(count) if count < NONE => Ok(count),
        _ => Err(NoMemory),
    }
}

/// Whether a number is among some.
pub fn has(numbers: &[u32], number: u32) -> bool {
    numbers.iter().any(|one| *one == number)
}
