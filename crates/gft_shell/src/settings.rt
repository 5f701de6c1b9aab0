//! A command over the grammar that is held: what it lacks, and its options by number.
use crate::held::Held;
use crate::refusing::stop_at;
use gft_abs::category_named;
use gft_command::{Command, Verb};
use gft_core::Name;
use gft_pmcfg::Grammar;
use gft_rules::{Rule, Stop};
use std::alloc::Global;

/// A command with its options. A language and a depth that are not given are None, a category the
/// start category.
#[derive(Clone, Copy)]
pub struct Settings {
    pub verb: Verb,
    pub lang: Option<u32>,
    pub cat: u32,
    pub depth: Option<u32>,
    pub bracket: bool,
}

/// Whether the command needs no grammar.
fn is_free(verb: Verb) -> bool {
    match verb {
        Verb::Import => true,
        Verb::Empty => true,
        Verb::Quit => true,
        _ => false,
    }
}

/// Whether the command has an option for a language, and so needs one.
fn takes_language(verb: Verb) -> bool {
    match verb {
        Verb::Parse => true,
        Verb::Linearize => true,
        Verb::Complete => true,
        Verb::MorphoAnalyse => true,
        Verb::ContextFree => true,
        _ => false,
    }
}

/// The number of the language of that name.
fn language_named(grammar: &Grammar, name: &str) -> Option<u32> {
    let mut lang = 0u32;
    'languages: for concrete in grammar.concretes.as_slice() {
        if concrete.name.as_str() == name {
            return Some(lang);
        }
        lang = lang.saturating_add(1);
    }
    None
}

/// The language that is given, if one is.
fn language_of(
    alloc: Global,
    grammar: &Grammar,
    given: &Option<Name>,
) -> Result<Option<u32>, Stop> {
    match given {
        None => Ok(None),
        Some(name) => match language_named(grammar, name.as_str()) {
            Some(lang) => Ok(Some(lang)),
            None => Err(stop_at(alloc, Rule::NoSuchLanguage, &[name.as_str()])),
        },
    }
}

/// The category that is given, or the start category.
fn category_of(alloc: Global, grammar: &Grammar, given: &Option<Name>) -> Result<u32, Stop> {
    match given {
        None => Ok(grammar.abs.start),
        Some(name) => match category_named(grammar.abs.cats.as_slice(), name.as_str()) {
            Some(cat) => Ok(cat),
            None => Err(stop_at(alloc, Rule::NoSuchCategory, &[name.as_str()])),
        },
    }
}

/// The command over a grammar, or what the grammar lacks.
fn settings_over(alloc: Global, grammar: &Grammar, command: &Command) -> Result<Settings, Stop> {
    let verb = command.verb;
    if takes_language(verb) && grammar.concretes.is_empty() {
        return Err(stop_at(alloc, Rule::NoLanguage, &[]));
    }
    let lang = language_of(alloc, grammar, &command.lang)?;
    let cat = category_of(alloc, grammar, &command.cat)?;
    Ok(Settings {
        verb,
        lang,
        cat,
        depth: command.depth,
        bracket: command.bracket,
    })
}

/// The command over what is held, or what that lacks.
pub fn settings_of(
    alloc: Global,
    held: Option<&Held>,
    command: &Command,
) -> Result<Settings, Stop> {
    match held {
        Some(held) => settings_over(alloc, &held.grammar, command),
        None => {
            if !is_free(command.verb) {
                return Err(stop_at(alloc, Rule::NoGrammar, &[]));
            }
            Ok(Settings {
                verb: command.verb,
                lang: None,
                cat: 0,
                depth: None,
                bracket: false,
            })
        }
    }
}
