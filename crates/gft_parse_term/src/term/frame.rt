//! Forms of terms that are open, each up to a term within it.
use crate::halt::Halt;
use crate::level::Level;
use crate::plan::{Infix, Span, Step, TermStep};
use crate::reader::Reader;

/// A term that was read: its level, its first token, an opening parenthesis counted, and its
/// height.
#[derive(Clone, Copy)]
pub(crate) struct Found {
    pub level: Level,
    pub start: u32,
    pub height: u32,
}

/// Whether the fields of a record have `=`, as far as they tell.
#[derive(Clone, Copy)]
pub(crate) enum FieldsAre {
    Open,
    Values,
    Labels,
}

/// What locals stand in.
#[derive(Clone, Copy)]
pub(crate) enum LocalsOf {
    /// `{`
    Record(FieldsAre, u32),
    /// `let`
    Let(u32),
    /// `let {`
    LetBraces(u32),
    /// e `where {`
    Where(Found),
}

/// Locals so far: how many, and the height of their highest part.
#[derive(Clone, Copy)]
pub(crate) struct Locals {
    pub of: LocalsOf,
    pub count: u32,
    pub height: u32,
}

/// What branches stand in.
#[derive(Clone, Copy)]
pub(crate) enum BranchesOf {
    /// `table {`
    Table,
    /// `table P {`
    TableOver,
    /// `case e of {`
    Case,
}

/// Branches so far: how many, and the height of the highest part of the form.
#[derive(Clone, Copy)]
pub(crate) struct Branches {
    pub of: BranchesOf,
    pub start: u32,
    pub count: u32,
    pub height: u32,
}

/// What terms with semicolons between stand in.
#[derive(Clone, Copy)]
pub(crate) enum MembersOf {
    /// `table P [`
    TableList,
    /// `variants {`
    Variants,
}

/// Terms with semicolons between so far: how many, and the height of the highest part of the form.
#[derive(Clone, Copy)]
pub(crate) struct Members {
    pub of: MembersOf,
    pub start: u32,
    pub count: u32,
    pub height: u32,
}

/// A form up to the term that is awaited. A number is its first token.
#[derive(Clone, Copy)]
pub(crate) enum Frame {
    /// e and a symbol
    Infix(Infix, Found),
    /// f
    Application(Found),
    /// `(` x, `:`
    Domain(Span, u32),
    /// `(` x, `:` A `) ->`, with the height of A
    FunctionTypeOf(Span, u32, u32),
    /// `\` x, `->`
    Function(Span, u32),
    /// `\\` x, `=>`
    TableFunction(Span, u32),
    /// `let` .. `in`
    LetIn(Locals, u32),
    /// x, `=`
    LocalValue(Locals, Span),
    /// x, `:`
    LocalType(Locals, Span),
    /// x, `:` T `=`, with the height of T
    TypedLocal(Locals, Span, u32),
    /// `table`
    Table(u32),
    /// `case`
    Case(u32),
    /// p `=>`
    Branch(Branches),
    /// `variants {` or `table P [`, and terms so far
    Member(Members),
    /// `<`
    InAngles(u32),
    /// `<` e, .., with the number of terms and the height of the highest
    Tuple(u32, u32, u32),
    /// `<` e `:`, with the height of e
    Typed(u32, u32),
    /// `(`
    InParentheses(u32),
}

/// What a form is up to the next token: whole, or open, and then a term of the level comes next.
#[derive(Clone, Copy)]
pub(crate) enum Turn {
    Whole(Found),
    Within(Frame, Level),
}

/// The form is whole: it has this level and first token, and its highest part this height.
pub(crate) fn whole(
    reader: &mut Reader<'_>,
    step: TermStep,
    level: Level,
    start: u32,
    below: u32,
) -> Result<Turn, Halt> {
    let height = reader.height_over(below, start);
    reader.put(Step::Term(step, start))?;
    Ok(Turn::Whole(Found {
        level,
        start,
        height,
    }))
}
