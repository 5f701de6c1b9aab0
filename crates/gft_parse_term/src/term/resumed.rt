//! Open forms of terms, each resumed with the term that it awaited.
use super::branches::{next_branch, resume_branch};
use super::frame::{Branches, BranchesOf, Found, Frame, Locals, Members, MembersOf, Turn, whole};
use super::infix::level_of;
use super::locals::{resume_local_type, resume_local_value, resume_typed_local};
use super::members::{next_member, resume_member};
use crate::halt::Halt;
use crate::level::Level;
use crate::plan::{Infix, Span, TermStep};
use crate::reader::Reader;
use gft_syntax::{Reserved, Symbol};

fn resume_infix(
    reader: &mut Reader<'_>,
    form: Infix,
    left: Found,
    height: u32,
) -> Result<Turn, Halt> {
    let height = height.max(left.height);
    whole(
        reader,
        TermStep::Infix(form),
        level_of(form),
        left.start,
        height,
    )
}

fn resume_application(reader: &mut Reader<'_>, function: Found, height: u32) -> Result<Turn, Halt> {
    let height = height.max(function.height);
    whole(
        reader,
        TermStep::Application,
        Level::Exp4,
        function.start,
        height,
    )
}

/// `) ->` behind the type of a domain
fn resume_domain(
    reader: &mut Reader<'_>,
    binds: Span,
    start: u32,
    height: u32,
) -> Result<Turn, Halt> {
    reader.symbol(Symbol::RightParenthesis)?;
    reader.symbol(Symbol::Arrow)?;
    let arrow = Frame::FunctionTypeOf(binds, start, height);
    Ok(Turn::Within(arrow, Level::Exp))
}

fn resume_let(
    reader: &mut Reader<'_>,
    locals: Locals,
    start: u32,
    height: u32,
) -> Result<Turn, Halt> {
    let height = height.max(locals.height);
    whole(
        reader,
        TermStep::Let(locals.count),
        Level::Exp,
        start,
        height,
    )
}

/// `{` or `[` behind what a table is over
fn resume_table(reader: &mut Reader<'_>, start: u32, height: u32) -> Result<Turn, Halt> {
    if reader.accept(Symbol::LeftBrace) {
        let branches = Branches {
            of: BranchesOf::TableOver,
            start,
            count: 0,
            height,
        };
        return next_branch(reader, branches);
    }
    reader.symbol(Symbol::LeftBracket)?;
    let members = Members {
        of: MembersOf::TableList,
        start,
        count: 0,
        height,
    };
    next_member(reader, members)
}

/// `of {` behind a selector
fn resume_case(reader: &mut Reader<'_>, start: u32, height: u32) -> Result<Turn, Halt> {
    reader.word(Reserved::Of)?;
    reader.symbol(Symbol::LeftBrace)?;
    let branches = Branches {
        of: BranchesOf::Case,
        start,
        count: 0,
        height,
    };
    next_branch(reader, branches)
}

/// A term of a tuple, with the number of terms with it and the height of the highest.
fn resume_tuple(
    reader: &mut Reader<'_>,
    start: u32,
    count: u32,
    height: u32,
) -> Result<Turn, Halt> {
    if reader.accept(Symbol::Comma) {
        return Ok(Turn::Within(Frame::Tuple(start, count, height), Level::Exp));
    }
    reader.symbol(Symbol::Greater)?;
    whole(reader, TermStep::Tuple(count), Level::Exp6, start, height)
}

/// The first term behind `<`, of a tuple or with its type
fn resume_angles(reader: &mut Reader<'_>, start: u32, height: u32) -> Result<Turn, Halt> {
    if reader.accept(Symbol::Colon) {
        return Ok(Turn::Within(Frame::Typed(start, height), Level::Exp));
    }
    resume_tuple(reader, start, 1, height)
}

fn resume_typed(reader: &mut Reader<'_>, start: u32, height: u32) -> Result<Turn, Halt> {
    reader.symbol(Symbol::Greater)?;
    whole(reader, TermStep::Typed, Level::Exp6, start, height)
}

/// Parentheses change the first token and the level of a term, and nothing else.
fn resume_parentheses(reader: &mut Reader<'_>, start: u32, height: u32) -> Result<Turn, Halt> {
    reader.symbol(Symbol::RightParenthesis)?;
    Ok(Turn::Whole(Found {
        level: Level::Exp6,
        start,
        height,
    }))
}

/// B behind `(` x, `:` A `) ->`
fn resume_function_type(
    reader: &mut Reader<'_>,
    binds: Span,
    start: u32,
    height: u32,
) -> Result<Turn, Halt> {
    whole(
        reader,
        TermStep::FunctionType(binds),
        Level::Exp,
        start,
        height,
    )
}

fn resume_function(
    reader: &mut Reader<'_>,
    binds: Span,
    start: u32,
    height: u32,
) -> Result<Turn, Halt> {
    whole(reader, TermStep::Function(binds), Level::Exp, start, height)
}

fn resume_table_function(
    reader: &mut Reader<'_>,
    binds: Span,
    start: u32,
    height: u32,
) -> Result<Turn, Halt> {
    whole(
        reader,
        TermStep::TableFunction(binds),
        Level::Exp,
        start,
        height,
    )
}

/// The form goes on with the term that it awaited.
pub(crate) fn resume(reader: &mut Reader<'_>, frame: Frame, found: Found) -> Result<Turn, Halt> {
    let height = found.height;
    match frame {
        Frame::Infix(form, left) => resume_infix(reader, form, left, height),
        Frame::Application(function) => resume_application(reader, function, height),
        Frame::Domain(binds, start) => resume_domain(reader, binds, start, height),
        Frame::FunctionTypeOf(binds, start, domain) => {
            resume_function_type(reader, binds, start, height.max(domain))
        }
        Frame::Function(binds, start) => resume_function(reader, binds, start, height),
        Frame::TableFunction(binds, start) => resume_table_function(reader, binds, start, height),
        Frame::LetIn(locals, start) => resume_let(reader, locals, start, height),
        Frame::LocalValue(locals, names) => resume_local_value(reader, locals, names, height),
        Frame::LocalType(locals, names) => resume_local_type(reader, locals, names, height),
        Frame::TypedLocal(locals, names, of_type) => {
            resume_typed_local(reader, locals, names, height.max(of_type))
        }
        Frame::Table(start) => resume_table(reader, start, height),
        Frame::Case(start) => resume_case(reader, start, height),
        Frame::Branch(branches) => resume_branch(reader, branches, height),
        Frame::Member(members) => resume_member(reader, members, height),
        Frame::InAngles(start) => resume_angles(reader, start, height),
        Frame::Tuple(start, count, highest) => {
            resume_tuple(reader, start, count.saturating_add(1), highest.max(height))
        }
        Frame::Typed(start, inner) => resume_typed(reader, start, height.max(inner)),
        Frame::InParentheses(start) => resume_parentheses(reader, start, height),
    }
}
