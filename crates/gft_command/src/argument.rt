//! The argument of a command.
use crate::command::Argument;
use crate::refusing::{push, stop, stop_at};
use crate::verb::Verb;
use gft_core::{Name, NoMemory, Text, Token, words};
use gft_rules::{Rule, Stop};
use gft_tree::{TreeErr, read_tree};
use std::alloc::Global;

/// How far a text in quotes is read.
#[derive(Clone, Copy, PartialEq, Eq)]
enum Reading {
    Inside,
    Escaped,
    Ended,
    Bad,
}

/// How far it is read after one more character.
fn next_reading(reading: Reading, c: char) -> Reading {
    match reading {
        Reading::Inside if c == '"' => Reading::Ended,
        Reading::Inside if c == '\\' => Reading::Escaped,
        Reading::Inside => Reading::Inside,
        Reading::Escaped if c == '"' || c == '\\' => Reading::Inside,
        Reading::Escaped => Reading::Bad,
        Reading::Ended => Reading::Bad,
        Reading::Bad => Reading::Bad,
    }
}

/// The text that stands in quotes, its escapes read. None where the argument is not of that form.
fn quoted(alloc: Global, argument: &str) -> Result<Option<String>, NoMemory> {
    let mut text = String::new(alloc);
    let Some(inner) = argument.strip_prefix('"') else {
        return Ok(None);
    };
    let mut reading = Reading::Inside;
    'characters: for c in inner.chars() {
        reading = next_reading(reading, c);
        if reading == Reading::Inside {
            text.push(c)?;
        }
    }
    if reading == Reading::Ended {
        Ok(Some(text))
    } else {
        Ok(None)
    }
}

/// The words of a text in quotes.
fn read_words(alloc: Global, argument: &str) -> Result<Argument, Stop> {
    match quoted(alloc, argument)? {
        Some(text) => Ok(Argument::Words(words(alloc, text.as_str())?)),
        None => Err(stop(alloc, Rule::BadArgument)),
    }
}

/// A tree, with a text of fewer than 2^32 bytes.
fn tree_of(alloc: Global, argument: &str) -> Result<Argument, TreeErr> {
    if argument.len() >= 4_294_967_296 {
        return Err(TreeErr::NoMemory); // excluded by the limit of a line
    }
    Ok(Argument::Tree(read_tree(alloc, argument)?))
}

/// The stop at a fault of a tree's text, whose name is its place in bytes.
fn stop_in_tree(alloc: Global, rule: Rule, at: u32) -> Stop {
    match at.to_string(alloc) {
        Ok(place) => stop_at(alloc, rule, place.as_str()),
        Err(_) => Stop::NoMemory,
    }
}

/// A tree, or its fault.
fn read_a_tree(alloc: Global, argument: &str) -> Result<Argument, Stop> {
    match tree_of(alloc, argument) {
        Ok(tree) => Ok(tree),
        Err(TreeErr::Syntax(at)) => Err(stop_in_tree(alloc, Rule::TreeSyntax, at)),
        Err(TreeErr::TooDeep(at)) => Err(stop_in_tree(alloc, Rule::TreeTooDeep, at)),
        Err(TreeErr::BadLiteral(at)) => Err(stop_in_tree(alloc, Rule::BadLiteral, at)),
        Err(TreeErr::NoMemory) => Err(Stop::NoMemory),
    }
}

/// Whether the command takes a file of that name: sources and portable files are imported, portable
/// files are written.
fn takes_file(verb: Verb, name: &str) -> bool {
    name.ends_with(".gft") || (verb == Verb::Import && name.ends_with(".gf"))
}

/// Adds the name of a file that the command takes.
fn push_file(alloc: Global, verb: Verb, files: &mut Vec<Text>, word: &Token) -> Result<(), Stop> {
    if !takes_file(verb, word.as_str()) {
        return Err(stop(alloc, Rule::BadArgument));
    }
    push(files, Text::from_str(alloc, word.as_str())?)?;
    Ok(())
}

/// One file name or more; one alone of a file that is written.
fn read_files(alloc: Global, verb: Verb, argument: &str) -> Result<Argument, Stop> {
    let names = words(alloc, argument)?;
    if names.is_empty() || (verb == Verb::WritePortable && names.len() > 1) {
        return Err(stop(alloc, Rule::BadArgument));
    }
    let mut files = Vec::new(alloc);
    'names: for name in &names {
        push_file(alloc, verb, &mut files, name)?;
    }
    Ok(Argument::Files(files))
}

/// A name, or nothing.
fn read_name(alloc: Global, argument: &str) -> Result<Argument, Stop> {
    if argument.is_empty() {
        return Ok(Argument::Nothing);
    }
    match Name::new(alloc, argument)? {
        Some(name) => Ok(Argument::Name(name)),
        None => Err(stop(alloc, Rule::BadArgument)),
    }
}

/// Nothing.
fn read_nothing(alloc: Global, argument: &str) -> Result<Argument, Stop> {
    if argument.is_empty() {
        Ok(Argument::Nothing)
    } else {
        Err(stop(alloc, Rule::BadArgument))
    }
}

/// The argument of a command, trimmed. A later command of a pipe may be without one whatever it
/// takes.
pub fn read_argument(
    alloc: Global,
    verb: Verb,
    argument: &str,
    later: bool,
) -> Result<Argument, Stop> {
    if later && argument.is_empty() {
        return Ok(Argument::Nothing);
    }
    match verb {
        Verb::Import => read_files(alloc, verb, argument),
        Verb::Empty => read_nothing(alloc, argument),
        Verb::Quit => read_nothing(alloc, argument),
        Verb::Parse => read_words(alloc, argument),
        Verb::Linearize => read_a_tree(alloc, argument),
        Verb::Complete => read_words(alloc, argument),
        Verb::AbstractInfo => read_name(alloc, argument),
        Verb::WritePortable => read_files(alloc, verb, argument),
        Verb::GenerateTrees => read_nothing(alloc, argument),
        Verb::MorphoAnalyse => read_words(alloc, argument),
        Verb::ContextFree => read_nothing(alloc, argument),
    }
}
