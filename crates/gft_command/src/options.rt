//! The options of a command.
ghost use Rattle.std.specs.Prelude.{◌≤◌, IfSome};

use crate::cutting::first_word;
use crate::refusing::stop_at;
use crate::verb::Verb;
use gft_core::Name;
use gft_rules::{Rule, Stop};
use std::alloc::Global;

/// The names of options.
#[derive(Clone, Copy, PartialEq, Eq)]
enum Key {
    Lang,
    Cat,
    Depth,
    Bracket,
}

/// The options that are written.
#[derive(Drop)]
pub struct Options {
    pub lang: Option<Name>,
    pub cat: Option<Name>,
    pub depth: Option<u32>,
    pub bracket: bool,
}

/// The option of that name.
fn key_of(name: &str) -> Option<Key> {
    match name {
        "lang" => Some(Key::Lang),
        "cat" => Some(Key::Cat),
        "depth" => Some(Key::Depth),
        _ => None,
    }
}

/// Whether the command has the option.
fn has(verb: Verb, key: Key) -> bool {
    match verb {
        Verb::Parse => key != Key::Bracket,
        Verb::Linearize => key != Key::Depth,
        Verb::Complete => key == Key::Lang || key == Key::Cat,
        Verb::GenerateTrees => key == Key::Cat || key == Key::Depth,
        Verb::MorphoAnalyse => key == Key::Lang,
        Verb::ContextFree => key == Key::Lang || key == Key::Cat,
        Verb::Import => false,
        Verb::Empty => false,
        Verb::Quit => false,
        Verb::AbstractInfo => false,
        Verb::WritePortable => false,
    }
}

/// The name and the value of `-NAME=VALUE`; of `-bracket`, which has no value, the empty text.
fn parts_of(word: &str) -> Option<(Key, &str)> {
    if word == "-bracket" {
        return Some((Key::Bracket, ""));
    }
    let (name, value) = word.strip_prefix('-')?.split_once('=')?;
    Some((key_of(name)?, value))
}

/// The value of a decimal digit.
fn digit(byte: u8) -> Option<u32>
    ensures { IfSome result (λ value. value ≤ 9) }
{
    if byte.is_ascii_digit() {
        Some(u32::from(byte) - 48)
    } else {
        None
    }
}

/// The number of two digits, of which the first is not 0.
fn two_digits(tens: u8, ones: u8) -> Option<u32> {
    if tens == b'0' {
        return None;
    }
    Some(digit(tens)? * 10 + digit(ones)?)
}

/// The number of a canonical decimal of one or two digits.
fn decimal(text: &str) -> Option<u32> {
    match text.as_bytes() {
        [ones] => digit(*ones),
        [tens, ones] => two_digits(*tens, *ones),
        _ => None,
    }
}

/// The depth that the text is: a canonical decimal from 1 to 64.
fn depth_of(text: &str) -> Option<u32> {
    match decimal(text) {
        Some(depth) if 1 <= depth && depth <= 64 => Some(depth),
        _ => None,
    }
}

/// The identifier that the value of an option is; `word` is the whole option.
fn identifier(alloc: Global, word: &str, value: &str) -> Result<Name, Stop> {
    match Name::new(alloc, value)? {
        Some(name) => Ok(name),
        None => Err(stop_at(alloc, Rule::BadOption, word)),
    }
}

impl Options {
    /// Whether the option is written.
    fn holds(&self, key: Key) -> bool {
        match key {
            Key::Lang => self.lang.is_some(),
            Key::Cat => self.cat.is_some(),
            Key::Depth => self.depth.is_some(),
            Key::Bracket => self.bracket,
        }
    }

    /// Sets an option to the value; `word` is the whole option.
    fn set(&mut self, alloc: Global, key: Key, word: &str, value: &str) -> Result<(), Stop> {
        match key {
            Key::Lang => self.lang = Some(identifier(alloc, word, value)?),
            Key::Cat => self.cat = Some(identifier(alloc, word, value)?),
            Key::Depth => match depth_of(value) {
                Some(depth) => self.depth = Some(depth),
                None => return Err(stop_at(alloc, Rule::BadOption, word)),
            },
            Key::Bracket => self.bracket = true,
        }
        Ok(())
    }

    /// Reads one more option.
    fn read(&mut self, alloc: Global, verb: Verb, word: &str) -> Result<(), Stop> {
        match parts_of(word) {
            Some((key, value)) if has(verb, key) && !self.holds(key) => {
                self.set(alloc, key, word, value)
            }
            _ => Err(stop_at(alloc, Rule::BadOption, word)),
        }
    }
}

/// The options that the text begins with, and what follows them. Each stands at most once, so a
/// fourth one is refused.
pub fn read_options(alloc: Global, verb: Verb, text: &str) -> Result<(Options, &str), Stop> {
    let mut options = Options {
        lang: None,
        cat: None,
        depth: None,
        bracket: false,
    };
    let mut rest = text;
    'options: for _ in 0..4u8 {
        let (word, after) = first_word(rest);
        if !word.starts_with('-') {
            break;
        }
        options.read(alloc, verb, word)?;
        rest = after;
    }
    Ok((options, rest))
}
