//! Open forms of patterns, each resumed with the pattern that it awaited.
use super::begun::{close_fields, next_argument, next_field};
use super::frame::{Found, Frame, Parts, Turn, one_more, whole};
use crate::halt::Halt;
use crate::level::PatternLevel;
use crate::plan::{PatternStep, Span, Step};
use crate::reader::Reader;
use gft_syntax::Symbol;

fn resume_or(reader: &mut Reader<'_>, left: Found, height: u32) -> Result<Turn, Halt> {
    let height = height.max(left.height);
    whole(
        reader,
        PatternStep::Or,
        PatternLevel::Patt,
        left.start,
        height,
    )
}

fn resume_seq(reader: &mut Reader<'_>, left: Found, height: u32) -> Result<Turn, Halt> {
    let height = height.max(left.height);
    whole(
        reader,
        PatternStep::Seq,
        PatternLevel::Patt1,
        left.start,
        height,
    )
}

/// An argument of a constructor, which is counted with it.
fn resume_constructor(reader: &mut Reader<'_>, parts: Parts) -> Result<Turn, Halt> {
    let step = PatternStep::Constructor(parts.count);
    next_argument(reader, Frame::Constructor(parts), step, parts)
}

/// An argument of a constructor with its module, which is counted with it.
fn resume_qualified(reader: &mut Reader<'_>, parts: Parts) -> Result<Turn, Halt> {
    let step = PatternStep::Qualified(parts.count);
    next_argument(reader, Frame::Qualified(parts), step, parts)
}

fn resume_as(reader: &mut Reader<'_>, start: u32, height: u32) -> Result<Turn, Halt> {
    whole(reader, PatternStep::As, PatternLevel::Patt3, start, height)
}

/// The pattern of a field, which is counted with it.
fn resume_fields(reader: &mut Reader<'_>, parts: Parts, names: Span) -> Result<Turn, Halt> {
    reader.put(Step::Label(names))?;
    if reader.accept(Symbol::Semicolon) {
        return next_field(reader, parts);
    }
    reader.symbol(Symbol::RightBrace)?;
    close_fields(reader, parts)
}

/// A pattern of a tuple, which is counted with it.
fn resume_tuple(reader: &mut Reader<'_>, parts: Parts) -> Result<Turn, Halt> {
    if reader.accept(Symbol::Comma) {
        return Ok(Turn::Within(Frame::Tuple(parts), PatternLevel::Patt));
    }
    reader.symbol(Symbol::Greater)?;
    let step = PatternStep::Tuple(parts.count);
    whole(reader, step, PatternLevel::Patt4, parts.start, parts.height)
}

/// Parentheses change the first token and the level of a pattern, and nothing else.
fn resume_parentheses(reader: &mut Reader<'_>, start: u32, height: u32) -> Result<Turn, Halt> {
    reader.symbol(Symbol::RightParenthesis)?;
    Ok(Turn::Whole(Found {
        level: PatternLevel::Patt4,
        start,
        height,
    }))
}

/// The form goes on with the pattern that it awaited.
pub(crate) fn resume(reader: &mut Reader<'_>, frame: Frame, found: Found) -> Result<Turn, Halt> {
    let height = found.height;
    match frame {
        Frame::Or(left) => resume_or(reader, left, height),
        Frame::Seq(left) => resume_seq(reader, left, height),
        Frame::Constructor(parts) => resume_constructor(reader, one_more(parts, height)),
        Frame::Qualified(parts) => resume_qualified(reader, one_more(parts, height)),
        Frame::As(start) => resume_as(reader, start, height),
        Frame::Fields(parts, names) => resume_fields(reader, one_more(parts, height), names),
        Frame::Tuple(parts) => resume_tuple(reader, one_more(parts, height)),
        Frame::InParentheses(start) => resume_parentheses(reader, start, height),
    }
}
