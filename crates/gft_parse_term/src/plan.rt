//! The steps by which the forms of a slice are built, each after the steps of its parts. Tokens are
//! named by number.

/// The tokens from one up to another.
#[derive(Clone, Copy)]
pub(crate) struct Span {
    pub first: u32,
    pub end: u32,
}

/// The forms of two terms with a symbol between.
#[derive(Clone, Copy)]
pub(crate) enum Infix {
    Alternatives,
    FunctionType,
    TableType,
    Append,
    Glue,
    Selection,
    Extension,
    Pair,
}

/// How a term is built of the terms built last. A number counts the parts that stand in a list.
#[derive(Clone, Copy)]
pub(crate) enum TermStep {
    /// A name, a text, a number or a sort: the first token is the term.
    Token,
    /// `[]`
    Empty,
    /// `["s"]` or `[C]`
    Bracketed,
    Infix(Infix),
    Application,
    /// With the token that is the label.
    Projection(u32),
    /// `(` x, `:` A `) ->` B
    FunctionType(Span),
    Function(Span),
    TableFunction(Span),
    Let(u32),
    Table(u32),
    TableOver(u32),
    TableList(u32),
    CaseOf(u32),
    Variants(u32),
    Fields(u32),
    Tuple(u32),
    Typed,
}

/// How a pattern is built of the patterns built last.
#[derive(Clone, Copy)]
pub(crate) enum PatternStep {
    /// A name, a text, a number, `_` or `?`: the first token is the pattern.
    Token,
    Or,
    Seq,
    /// I Patt4 ..
    Constructor(u32),
    /// I `.` I Patt4 ..
    Qualified(u32),
    Star,
    /// I `@` Patt4
    As,
    Fields(u32),
    Tuple(u32),
}

/// How a local is built of the terms built last.
#[derive(Clone, Copy)]
pub(crate) enum LocalStep {
    Value,
    Label,
    TypedValue,
}

/// One step. A form goes with its first token.
#[derive(Clone, Copy)]
pub(crate) enum Step {
    Term(TermStep, u32),
    Pattern(PatternStep, u32),
    /// x, `=` e, x, `:` T or x, `:` T `=` e
    Local(LocalStep, Span),
    /// p `=>` e
    Branch,
    /// x, `=` p
    Label(Span),
    /// An argument of a category or of a constructor, with its variables.
    Context(Span),
    /// A constructor of a parameter type, with its name, and the number of its arguments.
    Constructor(u32, u32),
    /// f, `:` T `=` e
    Alternative(Span),
}

/// What an oper is defined as.
#[derive(Clone, Copy)]
pub(crate) enum Defined {
    Term,
    Overload(u32),
}

/// How a judgement is built of what the steps built.
#[derive(Clone, Copy)]
pub(crate) enum Whole {
    Cat(u32, u32),
    /// `[` C `]`, with the number.
    ListCat(u32, u128),
    Fun(Span),
    /// With the token that is the value.
    Flag(u32, u32),
    Lincat(Span),
    Lin(Span, Span),
    Lindef(Span, Span),
    Linref(Span, Span),
    ParamName(u32),
    Param(u32, u32),
    OperType(Span),
    OperTyped(Span, Defined),
    Oper(Span, Span, Defined),
}
