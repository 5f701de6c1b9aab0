//! The labels `p1`, `p2`, .. of tuples.
use gft_core::{Name, NoMemory};
use std::alloc::Global;

/// The number that a label `p1`, `p2`, .. has among those of a tuple, from 0. It takes no memory.
pub fn tuple_number(label: &Name) -> Option<usize> {
    match label.as_str().as_bytes() {
        [b'p', b'1'..=b'9', ..] => {
            let number = label.as_str().get(1..)?.parse::<usize>().ok()?;
            number.checked_sub(1)
        }
        _ => None,
    }
}

/// The label of a tuple's item, from 0.
pub fn tuple_label(alloc: Global, number: usize) -> Result<Name, NoMemory> {
    let text = format!(in alloc; "p{}", (number as u128) + 1)?;
    match Name::new(alloc, text.as_str())? {
        Some(name) => Ok(name),
        // excluded by what an identifier is: a letter and digits are one
        None => Err(NoMemory),
    }
}
