//! What may stand right after the words that a chart has read.
use crate::places::Places;
use crate::words::{Next, Seen};
use gft_chart::Chart;
use gft_core::NoMemory;
use std::alloc::Global;

fn seen_after(alloc: Global, chart: &Chart<'_>) -> Result<Seen, NoMemory> {
    let awaited = chart.awaited()?;
    let mut seen = Seen::new(alloc);
    let mut places = Places::new(alloc);
    for item in awaited.items.as_slice() {
        seen.add_item(alloc, item, &mut places)?;
    }
    places.read_all(alloc, &awaited.forest, chart.concrete(), &mut seen)?;
    Ok(seen)
}

/// What may stand right after the words that the chart has read.
pub fn next(chart: &Chart<'_>) -> Result<Next, NoMemory> {
    let alloc = chart.allocator();
    let mut seen = seen_after(alloc, chart)?;
    let tokens = seen.tokens(alloc)?;
    Ok(Next {
        tokens,
        any_int: seen.any_int,
        any_string: seen.any_string,
    })
}
