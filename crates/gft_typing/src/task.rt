//! What is still to be done.
use crate::scope::Mark;
use gft_forms::Span;
use gft_types::TypeId;

/// Which function types may stand where a type is written.
#[derive(Clone, Copy, Debug, PartialEq, Eq)]
pub enum Role {
    /// Each of them.
    Any,
    /// The parameter of a function type: those whose parameters are data.
    Parameter,
    /// The parameter of a parameter: none.
    Inner,
    /// Data: none.
    Data,
}

/// A step of typing. Terms stand by their numbers; what a step finds is on the stacks of the state:
/// terms with their types, written types, the types of calls, and tables whose branches are typed.
#[derive(Clone, Copy)]
pub enum Task {
    /// A term, given a type or none.
    Term(u32, Option<TypeId>),
    /// The term that was found fits what is given.
    Fit(u32, TypeId),
    /// The term that was found is data.
    Data(u32),
    /// A term is given the type that was written.
    Checked(u32),
    /// What is bound since then is bound no more.
    Leave(Mark),
    /// A term that must be a type of that sort.
    Written(u32, Role, TypeId),
    /// The name that was found is such a type.
    NameWritten(u32, Role, TypeId),
    /// The type that was written may stand there.
    FormWritten(u32, Role, TypeId),
    /// The term is of a form that no type has.
    NoTypeHere(u32),
    /// The type that was written, as a term.
    TypeTerm,
    ArrowTo(u32, Role),
    ArrowEnd(u32),
    TabTypeEnd(u32),
    PairEnd(u32),
    LabelsEnd(Span),
    Operands(u32),
    ExtendEnd(u32),
    ProjEnd(u32, u32),
    CallBegin,
    /// The argument of that application.
    Argument(u32),
    CallEnd(u32),
    /// The application of the overloaded oper of that name to so many arguments.
    OverloadEnd(u32, u32, u32),
    LambdaEnd(u32, TypeId),
    TableLambdaEnd(Span, TypeId),
    /// The locals with the names up to that one, which are bound together.
    Bind(Span, u32),
    LetEnd(Span),
    VariantsRest(Span),
    VariantsEnd(u32, Option<TypeId>),
    /// A field's own type fits the given one.
    FieldFit(u32, TypeId),
    RecordEnd(u32, Span, Option<TypeId>),
    /// A branch of the innermost table.
    Branch(Span, u32),
    /// An item of the innermost table.
    Item(u32),
    /// The body of a branch, or an item, was typed.
    ItemEnd(u32),
    TableBegin(u32, Option<TypeId>),
    TableEnd(u32, Option<TypeId>),
    ListBegin(u32, Option<TypeId>),
    ListEnd(u32, Option<TypeId>),
    /// The selector of a table was found: the table, the whole, and what is given.
    CaseBegin(u32, u32, Option<TypeId>),
    CaseEnd(u32, u32),
    /// The type of a table that is selected from directly was written.
    DirectBegin(u32, u32),
    DirectAt(u32, u32),
    DirectEnd(u32, u32),
    SelectAt(u32, u32),
    SelectEnd(u32, u32),
}
