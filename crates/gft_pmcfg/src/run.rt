//! Runs: how productions are applied.
use gft_core::Token;
use sqlite_items::Items;

/// A run of a concrete syntax: a production, by its number in file order, applied to one run for
/// each of its argument nonterminals; a literal; or a hole, with its nonterminal.
#[derive(Drop)]
pub enum Run {
    App(u32, Items<Run>),
    Int(u128),
    Str(Token),
    Hole(u32),
}
