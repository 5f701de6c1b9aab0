//! `morpho_analyse`: what the words of a text can be.
use super::Given;
use crate::item::{Item, push_line};
use crate::settings::Settings;
use crate::texts::check_text;
use gft_core::{NoMemory, Token};
use gft_morpho::{Analysis, analyses};
use gft_pmcfg::{Abstract, Fun};
use gft_rules::Stop;

/// The name of a function's category.
fn category_of<'a>(abs: &'a Abstract, fun: &Fun) -> &'a str {
    match abs.cats.get(fun.result.cat as usize) {
        Some(cat) => cat.name.as_str(),
        None => "", // excluded by the grammar: categories are in range
    }
}

/// Adds the line of what a word can be.
fn push_analysis(
    given: Given<'_>,
    word: &str,
    analysis: Analysis,
    items: &mut Vec<Item>,
) -> Result<(), NoMemory> {
    let abs = &given.held.grammar.abs;
    let Some(fun) = abs.funs.get(analysis.fun as usize) else {
        return Ok(()); // excluded by the grammar: functions are in range
    };
    let (name, category) = (fun.name.as_str(), category_of(abs, fun));
    let (case, cell) = (analysis.case, analysis.cell);
    let mut line = String::from_str(given.alloc, word)?;
    write!(line, " {} {} {} {}", name, category, case, cell)?;
    push_line(given.alloc, items, line.as_str())
}

/// Adds the line of a word that can be nothing.
fn push_unknown(given: Given<'_>, word: &str, items: &mut Vec<Item>) -> Result<(), NoMemory> {
    let mut line = String::from_str(given.alloc, word)?;
    line.push_str(" ?")?;
    push_line(given.alloc, items, line.as_str())
}

/// Adds the lines of a word.
fn push_word(
    given: Given<'_>,
    word: &str,
    found: &[Analysis],
    items: &mut Vec<Item>,
) -> Result<(), NoMemory> {
    if found.is_empty() {
        return push_unknown(given, word, items);
    }
    'analyses: for analysis in found {
        push_analysis(given, word, *analysis, items)?;
    }
    Ok(())
}

fn analyse_words(
    given: Given<'_>,
    settings: Settings,
    words: &[Token],
    items: &mut Vec<Item>,
) -> Result<(), NoMemory> {
    let lang = settings.lang.unwrap_or(0);
    let found = analyses(given.alloc, &given.held.grammar, lang, words)?;
    let mut place = 0usize;
    'words: for word in words {
        push_word(given, word.as_str(), found.of(place), items)?;
        place = place.saturating_add(1);
    }
    Ok(())
}

/// Adds for each word of the text what it can be, by function, case and cell.
pub fn morpho_analyse(
    given: Given<'_>,
    settings: Settings,
    words: &Vec<Token>,
    items: &mut Vec<Item>,
) -> Result<(), Stop> {
    check_text(given.alloc, words)?;
    Ok(analyse_words(given, settings, words.as_slice(), items)?)
}
