//! Patterns of branches.
use crate::reference::Reference;
use gft_core::{Name, Place, Text};
use sqlite_items::{Boxed, Items};

/// `a, b = p` in a record pattern.
#[derive(Drop)]
pub struct PatternField<P> {
    pub labels: Items<Name>,
    pub pattern: P,
}

/// A pattern. Each form ends with the place of its first token; parentheses leave no trace.
#[derive(Drop)]
pub enum Pattern {
    /// `p | q`
    Or(Boxed<Pattern>, Boxed<Pattern>, Place),
    /// `p + q`
    Seq(Boxed<Pattern>, Boxed<Pattern>, Place),
    /// A constructor with arguments, or one with the name of its module before it.
    Con(Option<Name>, Reference, Items<Pattern>, Place),
    /// `p*`
    Star(Boxed<Pattern>, Place),
    /// `x @ p`
    As(Name, Boxed<Pattern>, Place),
    /// `_`
    Any(Place),
    /// `?`
    One(Place),
    /// A constructor without arguments, or a variable.
    Name(Reference, Place),
    Text(Text, Place),
    Num(u128, Place),
    Fields(Items<PatternField<Pattern>>, Place),
    Tuple(Items<Pattern>, Place),
}
