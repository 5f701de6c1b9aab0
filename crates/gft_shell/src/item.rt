//! What passes between the commands of a pipe.
use gft_core::{NoMemory, Text, Tree};
use gft_lister::Entry;
use std::alloc::Global;

/// What a command hands on: a tree, a tree that was listed, what is said of one, with single spaces
/// between its words, or a line that passes unchanged.
#[derive(Drop)]
pub enum Item {
    Tree(Tree),
    Listed(Entry),
    Said(Text),
    Line(Text),
}

/// Adds an item.
pub fn push(items: &mut Vec<Item>, item: Item) -> Result<(), NoMemory> {
    items.push(item)?;
    Ok(())
}

/// Adds a line.
pub fn push_line(alloc: Global, items: &mut Vec<Item>, text: &str) -> Result<(), NoMemory> {
    push(items, Item::Line(Text::from_str(alloc, text)?))
}
