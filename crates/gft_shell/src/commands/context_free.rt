//! `context_free`: the context-free approximation of a language.
use super::Given;
use crate::item::{Item, push_line};
use crate::settings::Settings;
use gft_cfg::{approximate, show_cfg};
use gft_core::NoMemory;

/// Adds the rules, in byte order of their lines.
pub fn context_free(
    given: Given<'_>,
    settings: Settings,
    items: &mut Vec<Item>,
) -> Result<(), NoMemory> {
    let (alloc, lang, cat) = (given.alloc, settings.lang.unwrap_or(0), settings.cat);
    let grammar = &given.held.grammar;
    let cfg = approximate(alloc, grammar, lang, cat)?;
    let text = show_cfg(alloc, &cfg, grammar, lang, cat)?;
    match text.as_str().strip_suffix('\n') {
        Some(lines) => push_line(alloc, items, lines),
        None => Ok(()), // there is no rule
    }
}
