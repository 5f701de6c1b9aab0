//! Patterns that go on with the next token.
use super::frame::{Found, Frame, Turn, whole};
use crate::halt::Halt;
use crate::level::PatternLevel;
use crate::plan::PatternStep;
use crate::reader::Reader;
use gft_syntax::Symbol;

/// Whether the next token is the `*` of repetitions of the pattern.
fn is_repeated(reader: &Reader<'_>, awaited: PatternLevel, found: Found) -> bool {
    PatternLevel::Patt3.fits(awaited)
        && found.level.fits(PatternLevel::Patt4)
        && reader.is_symbol(0, Symbol::Star)
}

/// The pattern, with a `*` behind it where there is one.
fn repeated(reader: &mut Reader<'_>, awaited: PatternLevel, found: Found) -> Result<Turn, Halt> {
    if !is_repeated(reader, awaited, found) {
        return Ok(Turn::Whole(found));
    }
    reader.pass();
    whole(
        reader,
        PatternStep::Star,
        PatternLevel::Patt3,
        found.start,
        found.height,
    )
}

/// The form of two patterns of which this is the first, where the next token is its symbol.
fn infix(reader: &mut Reader<'_>, awaited: PatternLevel, found: Found) -> Turn {
    let may_be_seq = PatternLevel::Patt1.fits(awaited) && found.level.fits(PatternLevel::Patt1);
    if may_be_seq && reader.accept(Symbol::Plus) {
        return Turn::Within(Frame::Seq(found), PatternLevel::Patt2);
    }
    if PatternLevel::Patt.fits(awaited) && reader.accept(Symbol::Bar) {
        return Turn::Within(Frame::Or(found), PatternLevel::Patt1);
    }
    Turn::Whole(found)
}

/// The form of which a whole pattern is the first part, where the next token goes on so.
pub(crate) fn go_on(
    reader: &mut Reader<'_>,
    awaited: PatternLevel,
    turn: Turn,
) -> Result<Turn, Halt> {
    let Turn::Whole(found) = turn else {
        return Ok(turn);
    };
    match repeated(reader, awaited, found)? {
        Turn::Within(frame, next) => Ok(Turn::Within(frame, next)),
        Turn::Whole(found) => Ok(infix(reader, awaited, found)),
    }
}
