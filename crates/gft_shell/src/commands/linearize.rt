//! `linearize`: the strings of a tree.
use super::Given;
use crate::held::Language;
use crate::item::{Item, push};
use crate::refusing::stop_at;
use crate::settings::Settings;
use gft_abs::{SolveErr, solve};
use gft_core::{Name, NoMemory, Text, Tree};
use gft_lin::{bracketed_of, functions_of, texts_of, texts_of_functions};
use gft_lister::{Form, tree_of};
use gft_rules::{Rule, Stop};
use gft_tree::print;
use std::alloc::Global;

fn stop_at_name(alloc: Global, rule: Rule, name: &Name) -> Stop {
    stop_at(alloc, rule, &[name.as_str()])
}

/// The stop at a subtree without a type.
fn stop_at_tree(alloc: Global, tree: &Tree) -> Stop {
    match print(alloc, tree) {
        Ok(text) => stop_at(alloc, Rule::IllTyped, &[text.as_str()]),
        Err(_) => Stop::NoMemory,
    }
}

fn stop_of(alloc: Global, error: &SolveErr) -> Stop {
    match error {
        SolveErr::UnknownFun(name) => stop_at_name(alloc, Rule::UnknownFun, name),
        SolveErr::WrongArity(name) => stop_at_name(alloc, Rule::WrongArity, name),
        SolveErr::WrongCategory(expected, found) => stop_at(
            alloc,
            Rule::WrongCategory,
            &[expected.as_str(), found.as_str()],
        ),
        SolveErr::IllTyped(tree) => stop_at_tree(alloc, tree),
        SolveErr::NoMemory => Stop::NoMemory,
    }
}

/// Refuses a tree that has no typed instance.
fn check_tree(given: Given<'_>, cat: u32, tree: &Tree) -> Result<(), Stop> {
    match solve(given.alloc, &given.held.grammar.abs, tree, cat) {
        Ok(_) => Ok(()),
        Err(error) => Err(stop_of(given.alloc, &error)),
    }
}

/// What is linearized: a tree that has a type, by its functions, each after its arguments, unless
/// it has literals or holes.
#[derive(Clone, Copy)]
enum Typed<'a> {
    Functions(&'a [u32]),
    Tree(&'a Tree),
}

/// The texts of the strings of a tree in one language.
fn texts_of_tree(
    given: Given<'_>,
    language: &Language,
    cat: u32,
    tree: &Tree,
) -> Result<Vec<Text>, NoMemory> {
    let abs = &given.held.grammar.abs;
    texts_of(given.alloc, &language.coerced, abs, cat, tree)
}

/// The texts of the strings of the tree with these functions in one language.
fn texts_of_typed(
    given: Given<'_>,
    language: &Language,
    cat: u32,
    functions: &[u32],
) -> Result<Vec<Text>, NoMemory> {
    let (alloc, coerced) = (given.alloc, &language.coerced);
    match texts_of_functions(alloc, coerced, &language.index, functions)? {
        Some(texts) => Ok(texts),
        None => {
            let tree = tree_of(alloc, &given.held.grammar.abs, functions)?;
            texts_of_tree(given, language, cat, &tree)
        }
    }
}

/// Adds the strings of a tree in one language.
fn push_strings(
    given: Given<'_>,
    language: &Language,
    cat: u32,
    typed: Typed<'_>,
    items: &mut Vec<Item>,
) -> Result<(), NoMemory> {
    let texts = match typed {
        Typed::Functions(functions) => texts_of_typed(given, language, cat, functions)?,
        Typed::Tree(tree) => texts_of_tree(given, language, cat, tree)?,
    };
    'strings: for text in texts {
        push(items, Item::Said(text))?;
    }
    Ok(())
}

/// Adds the strings of a tree in one language, with brackets that show its parts.
fn push_bracketed_tree(
    given: Given<'_>,
    language: &Language,
    cat: u32,
    tree: &Tree,
    items: &mut Vec<Item>,
) -> Result<(), NoMemory> {
    let abs = &given.held.grammar.abs;
    'texts: for text in bracketed_of(given.alloc, &language.coerced, abs, cat, tree)? {
        push(items, Item::Line(text))?;
    }
    Ok(())
}

fn push_bracketed(
    given: Given<'_>,
    language: &Language,
    cat: u32,
    typed: Typed<'_>,
    items: &mut Vec<Item>,
) -> Result<(), NoMemory> {
    match typed {
        Typed::Functions(functions) => {
            let tree = tree_of(given.alloc, &given.held.grammar.abs, functions)?;
            push_bracketed_tree(given, language, cat, &tree, items)
        }
        Typed::Tree(tree) => push_bracketed_tree(given, language, cat, tree, items),
    }
}

/// Adds what is said of a tree in one language.
fn push_language(
    given: Given<'_>,
    settings: Settings,
    lang: u32,
    typed: Typed<'_>,
    items: &mut Vec<Item>,
) -> Result<(), NoMemory> {
    match given.held.language(lang) {
        None => Ok(()), // excluded by the settings: the language is there
        Some(language) if settings.bracket => {
            push_bracketed(given, language, settings.cat, typed, items)
        }
        Some(language) => push_strings(given, language, settings.cat, typed, items),
    }
}

/// Adds what is said of a tree in each language, by name.
fn push_all(
    given: Given<'_>,
    settings: Settings,
    typed: Typed<'_>,
    items: &mut Vec<Item>,
) -> Result<(), NoMemory> {
    let mut lang = 0u32;
    'languages: for _ in 0..given.held.languages.len() {
        push_language(given, settings, lang, typed, items)?;
        lang = lang.saturating_add(1);
    }
    Ok(())
}

/// Adds what is said of a tree, for each language in turn or for the one that is given.
fn push_typed(
    given: Given<'_>,
    settings: Settings,
    typed: Typed<'_>,
    items: &mut Vec<Item>,
) -> Result<(), NoMemory> {
    match settings.lang {
        Some(lang) => push_language(given, settings, lang, typed, items),
        None => push_all(given, settings, typed, items),
    }
}

/// Adds the strings of the tree, for each language in turn or for the one that is given; or the
/// first reason why the tree has no type. Where no category takes indices, a tree whose functions
/// stand in place has a type.
pub fn linearize(
    given: Given<'_>,
    settings: Settings,
    tree: &Tree,
    items: &mut Vec<Item>,
) -> Result<(), Stop> {
    let functions = functions_of(given.alloc, &given.held.grammar.abs, tree)?;
    if !given.held.is_plain || functions.is_none() {
        check_tree(given, settings.cat, tree)?;
    }
    let added = match &functions {
        Some(functions) => {
            push_typed(
                given,
                settings,
                Typed::Functions(functions.as_slice()),
                items,
            )
        }
        None => push_typed(given, settings, Typed::Tree(tree), items),
    };
    Ok(added?)
}

/// Adds the strings of a tree that was listed, which has a type.
pub fn linearize_form(
    given: Given<'_>,
    settings: Settings,
    form: &Form,
    items: &mut Vec<Item>,
) -> Result<(), Stop> {
    match form {
        Form::Functions(functions) => {
            let typed = Typed::Functions(functions.as_slice());
            Ok(push_typed(given, settings, typed, items)?)
        }
        Form::Tree(tree) => linearize(given, settings, tree, items),
    }
}
