//! `parse`: the patterns of a text, or one notice.
use super::Given;
use crate::item::{Item, push, push_line};
use crate::settings::Settings;
use crate::texts::{check_text, push_failure};
use gft_core::{NoMemory, Token};
use gft_lister::{Entries, Entry, entries_with};
use gft_rules::Stop;

/// How deep is listed where no depth is given.
const DEPTH: u32 = 12;

/// What is listed.
fn entries(given: Given<'_>, settings: Settings, words: &Vec<Token>) -> Result<Entries, NoMemory> {
    let lang = settings.lang.unwrap_or(0);
    let grammar = &given.held.grammar;
    match given.held.language(lang) {
        Some(language) => entries_with(
            given.alloc,
            &language.tables,
            grammar,
            lang,
            settings.cat,
            words,
            settings.depth.unwrap_or(DEPTH),
        ),
        None => Ok(Entries::NoTree), // excluded by the settings: the language is there
    }
}

/// Adds patterns.
fn push_patterns(items: &mut Vec<Item>, patterns: Vec<Entry>) -> Result<(), NoMemory> {
    'patterns: for pattern in patterns {
        push(items, Item::Listed(pattern))?;
    }
    Ok(())
}

/// Adds the patterns of the words, or the notice why there are none.
pub fn parse(
    given: Given<'_>,
    settings: Settings,
    words: &Vec<Token>,
    items: &mut Vec<Item>,
) -> Result<(), Stop> {
    check_text(given.alloc, words)?;
    let added = match entries(given, settings, words)? {
        Entries::Patterns(patterns) => push_patterns(items, patterns),
        Entries::FailedAt(number) => push_failure(given.alloc, items, words.as_slice(), number),
        Entries::NotComplete => push_line(given.alloc, items, "not complete"),
        Entries::NoTree => push_line(given.alloc, items, "no tree"),
    };
    Ok(added?)
}
