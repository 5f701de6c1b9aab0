//! The parts that were built last, as a list.
use gft_core::NoMemory;
use sqlite_items::Items;

/// The last parts, as many as are counted, in their order.
pub(crate) fn last<T: Drop>(parts: &mut Vec<T>, count: u32) -> Result<Items<T>, NoMemory> {
    let first = parts.len().saturating_sub(count as usize);
    let parts = parts.split_off(first)?;
    Ok(Items::from_vec(parts))
}
