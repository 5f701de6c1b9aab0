//! A command with its options and its argument.
use crate::verb::Verb;
use gft_core::{Name, Text, Token, Tree};
use gft_rules::Refusal;

/// What a command works on. `Nothing` where no argument is written.
#[derive(Drop)]
pub enum Argument {
    Nothing,
    Files(Vec<Text>),
    /// The words of a text in quotes.
    Words(Vec<Token>),
    Tree(Tree),
    Name(Name),
}

/// A command: an option that is not written is None.
#[derive(Drop)]
pub struct Command {
    pub verb: Verb,
    pub lang: Option<Name>,
    pub cat: Option<Name>,
    /// From 1 to 64.
    pub depth: Option<u32>,
    /// Whether strings show in brackets which words are of which part of a tree.
    pub bracket: bool,
    pub argument: Argument,
}

/// A pipe of a line: its commands, one or more, or its refusal.
#[derive(Drop)]
pub enum Read {
    Pipe(Vec<Command>),
    Refused(Refusal),
}
