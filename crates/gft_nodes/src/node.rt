//! The forms of typed terms, with the numbers of their parts.
use gft_core::Place;
use gft_forms::Span;
use gft_syntax::Predef;
use gft_types::TypeId;

/// A part of a list: the number of its label or pattern, where it has one, and its term.
#[derive(Clone, Copy)]
pub struct Part {
    pub key: u32,
    pub node: u32,
}

/// A typed term. Types, labels, literals, patterns and constructors are numbers too.
#[derive(Clone, Copy)]
pub enum Node {
    /// The variable that was bound so many binders ago, the innermost 0.
    Var(u32),
    Words(u32),
    Num(u128),
    /// A constructor as a function of so many arguments, or alone where it takes none.
    Maker(u32, u32),
    /// A constructor with all its arguments.
    Con(u32, Span),
    /// A predefined function, and where it stands.
    Function(Predef, Place),
    /// A predefined function of a number and a string.
    Predef(Predef, u32, u32, Place),
    Concat(u32, u32),
    Glue(u32, u32, Place),
    Record(Span),
    Extend(u32, u32),
    Proj(u32, u32),
    /// A table of branches over the type.
    Table(TypeId, Span),
    /// A table of items over the type.
    TableList(TypeId, Span),
    Select(u32, u32),
    /// A selector, and the branches of the table that it is selected from.
    Case(u32, Span, Place),
    CaseList(u32, TypeId, Span, Place),
    Variants(Span),
    Let(Span, u32),
    /// A term of the first type where its supertype, the second, stands.
    Cut(u32, TypeId, TypeId),
    /// The number of an oper's judgement or alternative.
    Oper(u32),
    Lambda(u32, u32),
    App(u32, Span),
    /// What stands for a type.
    Type(TypeId),
}
