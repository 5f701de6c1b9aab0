//! Terms as numbers, and what is left to do of a run.
use crate::data::Range;
use gft_core::Place;
use gft_syntax::Predef;

/// What is made of two values.
#[derive(Clone, Copy)]
pub enum Operation {
    Concat,
    Glue(Place),
    Predef(Predef, Place),
    Extend,
    Select,
}

/// A term. Its parts are nodes by number; those of a list stand one after the other. Types, labels,
/// constructors and patterns are numbers too.
#[derive(Clone, Copy)]
pub enum Node {
    /// A term that no run has come to.
    Unread,
    /// The variable that was bound so many binders ago.
    Var(u32),
    Arg(u32),
    /// The words of a literal.
    Words(Range),
    Number(u32),
    Con(u32, Range),
    /// Two nodes from this one on.
    Both(Operation, u32),
    /// For each label in byte order the place of its field, and the fields as written.
    Record(Range, Range),
    Proj(u32, u32),
    /// The type, the first pattern, and the bodies.
    Table(u32, u32, Range),
    Listed(u32, Range),
    /// The selector, the first pattern, and the bodies.
    Case(u32, u32, Range, Place),
    /// The selector, its type, and the items.
    Item(u32, u32, Range),
    Variants(Range),
    Let(Range, u32),
    /// A node and the type to which its value is cut.
    Cut(u32, u32),
    /// What has no outcome.
    Nothing,
}

/// What is left to do. Values that are made lie on a stack, the last one on top.
#[derive(Clone, Copy)]
pub enum Task {
    Run(u32),
    Both(Operation),
    /// A constructor with so many arguments.
    Con(u32, u32),
    Record(Range),
    Proj(u32),
    /// The items of a table from that place on.
    Rows(u32, u32),
    /// A table over the type with so many items.
    Table(u32, u32),
    /// One of the branches, by the value of the selector.
    Choose(u32),
    /// So many variables.
    Bind(u32),
    /// Back to so many variables.
    Unbind(usize),
    Cut(u32),
}
