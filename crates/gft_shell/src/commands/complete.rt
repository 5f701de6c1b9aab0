//! `complete`: what may stand next.
use super::Given;
use crate::item::{Item, push_line};
use crate::settings::Settings;
use crate::texts::{check_text, push_failure, push_word};
use gft_chart::Chart;
use gft_complete::{Next, next};
use gft_core::{NoMemory, Token};
use gft_rules::Stop;

/// A chart over no words, None where the language is not there.
fn chart_of<'a>(given: Given<'a>, settings: Settings) -> Result<Option<Chart<'a>>, NoMemory> {
    let lang = settings.lang.unwrap_or(0);
    let Some(concrete) = given.held.grammar.concretes.get(lang as usize) else {
        return Ok(None);
    };
    let Some(language) = given.held.language(lang) else {
        return Ok(None);
    };
    let tables = language.tables.chart();
    Ok(Some(Chart::start_over(given.alloc, tables, concrete, settings.cat)?))
}

/// Reads words, and gives the number of the first that no sentence allows, from 1; 0 where all are
/// allowed.
fn read_all(chart: &mut Chart<'_>, words: &[Token]) -> Result<u32, NoMemory> {
    let mut number = 0u32;
    'words: for word in words {
        number = number.saturating_add(1);
        if !chart.feed(word)? {
            return Ok(number);
        }
    }
    Ok(0)
}

/// Adds the words that may stand next, then the literals.
fn push_next(given: Given<'_>, next: &Next, items: &mut Vec<Item>) -> Result<(), NoMemory> {
    'words: for word in next.tokens.as_slice() {
        push_word(given.alloc, items, word.as_str())?;
    }
    if next.any_int {
        push_line(given.alloc, items, "<Int>")?;
    }
    if next.any_string {
        push_line(given.alloc, items, "<String>")?;
    }
    Ok(())
}

fn complete_words(
    given: Given<'_>,
    settings: Settings,
    words: &[Token],
    items: &mut Vec<Item>,
) -> Result<(), NoMemory> {
    let Some(mut chart) = chart_of(given, settings)? else {
        return Ok(()); // excluded by the settings: the language is there
    };
    let failed = read_all(&mut chart, words)?;
    if failed != 0 {
        return push_failure(given.alloc, items, words, failed);
    }
    let next = next(&chart)?;
    push_next(given, &next, items)
}

/// Adds the words that may stand right after the text, in byte order, then `<Int>`, then
/// `<String>`; or the notice that the text begins no sentence.
pub fn complete(
    given: Given<'_>,
    settings: Settings,
    words: &Vec<Token>,
    items: &mut Vec<Item>,
) -> Result<(), Stop> {
    check_text(given.alloc, words)?;
    Ok(complete_words(given, settings, words.as_slice(), items)?)
}
