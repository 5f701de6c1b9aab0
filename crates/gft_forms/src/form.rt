//! The forms of terms, with the numbers of their parts.
use gft_syntax::{Predef, Sort};

/// Entries of a table: where the first one stands, and how many there are.
#[derive(Clone, Copy, Debug, PartialEq, Eq)]
pub struct Span {
    pub first: u32,
    pub count: u32,
}

/// A local definition or a field, one for each name. Those that are written together, as in
/// `x, y = e`, have the same parts, and only the first of them is `is_first`.
#[derive(Clone, Copy)]
pub struct Item {
    pub name: u32,
    pub of: Option<u32>,
    pub value: Option<u32>,
    pub is_first: bool,
}

/// A branch: the number of its pattern, and its body.
#[derive(Clone, Copy)]
pub struct Branch {
    pub pattern: u32,
    pub body: u32,
}

/// What a lambda binds: a name, None for `_`, and for a table lambda the pattern that binds it.
#[derive(Clone, Copy)]
pub struct Binding {
    pub name: Option<u32>,
    pub pattern: u32,
}

/// A term. Names of variables and labels, whole names, literals and patterns are numbers too.
#[derive(Clone, Copy)]
pub enum Form {
    /// A literal, also the one without words.
    Words(u32),
    Num(u128),
    /// A name that is still as it was written.
    Variable(u32),
    /// A whole name.
    Global(u32),
    Predef(Predef),
    /// `Str`, `Type` or `PType`; `Ints` and `Predef` where they stand alone.
    Sort(Sort),
    /// `Ints n`
    Numbers(u128),
    Concat(u32, u32),
    Glue(u32, u32),
    Select(u32, u32),
    Extend(u32, u32),
    Pair(u32, u32),
    TabType(u32, u32),
    App(u32, u32),
    /// `<e : T>`: the term, then the type.
    Typed(u32, u32),
    /// What is bound, what it is of, and the type of the result.
    Arrow(Span, u32, u32),
    Fun(Span, u32),
    TabFun(Span, u32),
    Let(Span, u32),
    Table(Span),
    /// The type that it is over, and its branches.
    TableOver(u32, Span),
    TableList(u32, Span),
    /// The selector, and the branches.
    Case(u32, Span),
    Variants(Span),
    Proj(u32, u32),
    /// A record or a tuple, also `{}`.
    Record(Span),
    RecordType(Span),
}
