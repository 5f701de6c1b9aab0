//! `generate_trees`: all trees of a category within a depth.
use super::Given;
use crate::item::{Item, push};
use crate::refusing::stop_at;
use crate::settings::Settings;
use gft_core::{NoMemory, Tree};
use gft_generate::trees;
use gft_rules::{Rule, Stop};

/// How deep trees are where no depth is given.
const DEPTH: u32 = 4;

fn push_trees(items: &mut Vec<Item>, trees: Vec<Tree>) -> Result<(), NoMemory> {
    'trees: for tree in trees {
        push(items, Item::Tree(tree))?;
    }
    Ok(())
}

/// Adds the trees, in byte order of their texts; too many are refused.
pub fn generate_trees(
    given: Given<'_>,
    settings: Settings,
    items: &mut Vec<Item>,
) -> Result<(), Stop> {
    let depth = settings.depth.unwrap_or(DEPTH);
    match trees(given.alloc, &given.held.grammar.abs, settings.cat, depth)? {
        Some(trees) => Ok(push_trees(items, trees)?),
        None => Err(stop_at(given.alloc, Rule::TooManyTrees, &[])),
    }
}
