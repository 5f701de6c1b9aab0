//! Rules of a context-free grammar.
use gft_core::Token;

/// A symbol that has rules: the start symbol, or a component of a nonterminal, both by number from
/// 0.
#[derive(Clone, Copy, Debug, PartialEq, Eq)]
pub enum CfName {
    Start,
    Part(u32, u32),
}

/// A symbol of a right side: a word, a component of a nonterminal, or any literal of a kind.
#[derive(Drop)]
pub enum CfSym {
    Word(Token),
    Part(u32, u32),
    AnyInt,
    AnyString,
}

/// A rule.
#[derive(Drop)]
pub struct CfRule {
    pub left: CfName,
    pub right: Vec<CfSym>,
}

/// The rules of a category of a language, in byte order of their lines.
#[derive(Drop)]
pub struct Cfg {
    pub rules: Vec<CfRule>,
}
