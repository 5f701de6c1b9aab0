//! The commands: one file each. What a command answers to an item, and to its own argument.
mod abstract_info;
mod complete;
mod context_free;
pub mod empty;
mod generate_trees;
pub mod import;
mod linearize;
mod morpho_analyse;
mod parse;
pub mod quit;
pub mod write_portable;

use crate::held::Held;
use crate::item::{Item, push};
use crate::settings::Settings;
use gft_command::{Argument, Verb};
use gft_core::{Token, Tree, words};
use gft_lister::Form;
use gft_rules::Stop;
use std::alloc::Global;

/// What commands answer over: the allocator and what is held.
#[derive(Clone, Copy)]
pub struct Given<'a> {
    pub alloc: Global,
    pub held: &'a Held,
}

/// What a command answers to a tree.
fn answer_tree(
    given: Given<'_>,
    settings: Settings,
    tree: &Tree,
    items: &mut Vec<Item>,
) -> Result<(), Stop> {
    match settings.verb {
        Verb::Linearize => linearize::linearize(given, settings, tree, items),
        _ => Ok(()), // excluded by reading: no other command takes trees
    }
}

/// What a command answers to a tree that was listed.
fn answer_form(
    given: Given<'_>,
    settings: Settings,
    form: &Form,
    items: &mut Vec<Item>,
) -> Result<(), Stop> {
    match settings.verb {
        Verb::Linearize => linearize::linearize_form(given, settings, form, items),
        _ => Ok(()), // excluded by reading: no other command takes trees
    }
}

/// What a command answers to the words of a text.
fn answer_words(
    given: Given<'_>,
    settings: Settings,
    words: &Vec<Token>,
    items: &mut Vec<Item>,
) -> Result<(), Stop> {
    match settings.verb {
        Verb::Parse => parse::parse(given, settings, words, items),
        Verb::Complete => complete::complete(given, settings, words, items),
        Verb::MorphoAnalyse => morpho_analyse::morpho_analyse(given, settings, words, items),
        _ => Ok(()), // excluded by reading: no other command takes texts
    }
}

/// What a command answers to a text.
fn answer_text(
    given: Given<'_>,
    settings: Settings,
    text: &str,
    items: &mut Vec<Item>,
) -> Result<(), Stop> {
    let words = words(given.alloc, text)?;
    answer_words(given, settings, &words, items)
}

/// What a command answers without an argument.
fn answer_nothing(given: Given<'_>, settings: Settings, items: &mut Vec<Item>) -> Result<(), Stop> {
    match settings.verb {
        Verb::AbstractInfo => Ok(abstract_info::all(given, items)?),
        Verb::GenerateTrees => generate_trees::generate_trees(given, settings, items),
        Verb::ContextFree => Ok(context_free::context_free(given, settings, items)?),
        _ => Ok(()), // excluded by reading: no other command that answers comes without an argument
    }
}

/// What a command answers to its own argument.
pub fn answer_argument(
    given: Given<'_>,
    settings: Settings,
    argument: &Argument,
    items: &mut Vec<Item>,
) -> Result<(), Stop> {
    match argument {
        Argument::Nothing => answer_nothing(given, settings, items),
        Argument::Words(words) => answer_words(given, settings, words, items),
        Argument::Tree(tree) => answer_tree(given, settings, tree, items),
        Argument::Name(name) => abstract_info::named(given, name.as_str(), items),
        Argument::Files(_) => Ok(()), // excluded by reading: no other command takes files
    }
}

/// What a command answers to an item that an earlier one handed on.
pub fn answer_item(
    given: Given<'_>,
    settings: Settings,
    item: &Item,
    items: &mut Vec<Item>,
) -> Result<(), Stop> {
    match item {
        Item::Tree(tree) => answer_tree(given, settings, tree, items),
        Item::Listed(entry) => answer_form(given, settings, &entry.form, items),
        Item::Said(text) => answer_text(given, settings, text.as_str(), items),
        Item::Line(text) => Ok(push(items, Item::Line(text.copy(given.alloc)?))?),
    }
}
