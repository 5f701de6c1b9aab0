//! Terms of linearization after typing: overloads chosen, subtypes marked. In the form of which the
//! definitions speak until they follow `typed`.
use crate::ctype::CType;
use crate::pattern::Pattern;
use crate::reference::Whole;
use gft_core::{Name, Place, Token};
use sqlite_items::{Boxed, Items};

/// The parts of a text that `Predef` names: the first n characters, what is after them, what is
/// before the last n, and the last n.
#[derive(Clone, Copy, Debug, PartialEq, Eq)]
pub enum Predef {
    Take,
    Drop,
    Tk,
    Dp,
}

/// The branches of a table: the first whose pattern matches is taken, or one item for each value of
/// the type in order.
#[derive(Drop)]
pub enum Branches<T> {
    Matched(Items<(Pattern, T)>),
    Listed(CType, Items<T>),
}

/// A typed term. Places stand where evaluation may be stuck. `Oper`, `Lambda` and `App` stand only
/// in what typing gives; a term without them is normal.
#[derive(Drop)]
pub enum LinTerm {
    /// A variable of a lambda, of `let` or of a pattern.
    Var(Name),
    /// The value of an argument of the whole judgement, from 0.
    Arg(u32),
    /// The words of a literal.
    Words(Items<Token>),
    Num(u128),
    /// A constructor with all its arguments.
    Con(Whole, Items<LinTerm>),
    Concat(Boxed<LinTerm>, Boxed<LinTerm>),
    Glue(Boxed<LinTerm>, Boxed<LinTerm>, Place),
    Predef(Predef, Boxed<LinTerm>, Boxed<LinTerm>, Place),
    /// Fields as written, each label once.
    Record(Items<(Name, LinTerm)>),
    Extend(Boxed<LinTerm>, Boxed<LinTerm>),
    Proj(Boxed<LinTerm>, Name),
    /// A table over the type.
    Table(CType, Branches<LinTerm>),
    Select(Boxed<LinTerm>, Boxed<LinTerm>),
    /// A selection directly from a table expression: the selector, then its branches.
    Case(Boxed<LinTerm>, Branches<LinTerm>, Place),
    Variants(Items<LinTerm>),
    /// Variables, the term that is evaluated once for each, and the term that sees them.
    Let(Items<Name>, Boxed<LinTerm>, Boxed<LinTerm>),
    /// A term of the first type where its supertype, the second, stands: cut to the labels of that.
    Cut(Boxed<LinTerm>, CType, CType),
    /// The number of an oper's judgement or alternative.
    Oper(u32),
    Lambda(Option<Name>, Boxed<LinTerm>),
    App(Boxed<LinTerm>, Boxed<LinTerm>),
}

/// What typing gives for a judgement: its term and the type of that term. For a judgement that
/// gives a type this is that type, and the term is the empty record.
#[derive(Drop)]
pub struct Typed {
    pub term: LinTerm,
    pub ctype: CType,
}
