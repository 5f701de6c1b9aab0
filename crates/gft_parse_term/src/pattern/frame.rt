//! Forms of patterns that are open, each up to a pattern within it.
use crate::halt::Halt;
use crate::level::PatternLevel;
use crate::plan::{PatternStep, Span, Step};
use crate::reader::Reader;

/// A pattern that was read: its level, its first token, an opening parenthesis counted, and its
/// height.
#[derive(Clone, Copy)]
pub(crate) struct Found {
    pub level: PatternLevel,
    pub start: u32,
    pub height: u32,
}

/// Patterns within a form so far: its first token, how many they are, and the height of the
/// highest.
#[derive(Clone, Copy)]
pub(crate) struct Parts {
    pub start: u32,
    pub count: u32,
    pub height: u32,
}

/// A form up to the pattern that is awaited. A number is its first token.
#[derive(Clone, Copy)]
pub(crate) enum Frame {
    /// p `|`
    Or(Found),
    /// p `+`
    Seq(Found),
    /// I Patt4 ..
    Constructor(Parts),
    /// I `.` I Patt4 ..
    Qualified(Parts),
    /// I `@`
    As(u32),
    /// `{` .. x, `=`
    Fields(Parts, Span),
    /// `<` p, ..
    Tuple(Parts),
    /// `(`
    InParentheses(u32),
}

/// What a form is up to the next token: whole, or open, and then a pattern of the level comes next.
#[derive(Clone, Copy)]
pub(crate) enum Turn {
    Whole(Found),
    Within(Frame, PatternLevel),
}

/// A form of which no part is read.
pub(crate) fn no_parts(start: u32) -> Parts {
    Parts {
        start,
        count: 0,
        height: 0,
    }
}

/// The form with one part more.
pub(crate) fn one_more(parts: Parts, height: u32) -> Parts {
    Parts {
        start: parts.start,
        count: parts.count.saturating_add(1),
        height: parts.height.max(height),
    }
}

/// The form is whole: it has this level and first token, and its highest part this height.
pub(crate) fn whole(
    reader: &mut Reader<'_>,
    step: PatternStep,
    level: PatternLevel,
    start: u32,
    below: u32,
) -> Result<Turn, Halt> {
    let height = reader.height_over(below, start);
    reader.put(Step::Pattern(step, start))?;
    Ok(Turn::Whole(Found {
        level,
        start,
        height,
    }))
}
