//! Packed forests: many runs in shared nodes.
use gft_core::Token;
use sqlite_items::Items;

/// A set of runs. It holds a run where one of its roots holds it.
#[derive(Drop)]
pub struct Forest {
    pub nodes: Items<Node>,
    /// Numbers of nodes, from 0.
    pub roots: Items<u32>,
}

/// A nonterminal with the spans of the components that were read. Without pins it holds the hole of
/// its nonterminal and no other run.
#[derive(Drop)]
pub struct Node {
    pub nonterminal: u32,
    /// A component, counted from 0, with its first word and the word after its last.
    pub pins: Items<(u32, u32, u32)>,
    pub alts: Items<Alt>,
}

/// One way to build a node's runs.
#[derive(Drop)]
pub enum Alt {
    /// A production, and for each argument a node; None is the hole of the argument's nonterminal.
    App(u32, Items<Option<u32>>),
    Int(u128),
    Str(Token),
}
