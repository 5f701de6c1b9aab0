//! Terms that go on with the next token.
use super::begun::begins_tightest;
use super::frame::{Found, Frame, Locals, LocalsOf, Turn, whole};
use super::infix::{infix_of, left_of, level_of, right_of};
use super::locals::next_local;
use crate::halt::Halt;
use crate::level::Level;
use crate::plan::TermStep;
use crate::reader::Reader;
use gft_syntax::{Reserved, Symbol};

/// `.` I
fn projection(reader: &mut Reader<'_>, found: Found) -> Result<Turn, Halt> {
    reader.pass();
    let label = reader.name()?;
    let step = TermStep::Projection(label);
    whole(reader, step, Level::Exp5, found.start, found.height)
}

/// `where {`
fn where_locals(reader: &mut Reader<'_>, found: Found) -> Result<Turn, Halt> {
    reader.pass();
    reader.symbol(Symbol::LeftBrace)?;
    let locals = Locals {
        of: LocalsOf::Where(found),
        count: 0,
        height: 0,
    };
    next_local(reader, locals)
}

/// The form of two terms of which this is the first, where the next token is its symbol.
fn infix(reader: &mut Reader<'_>, awaited: Level, found: Found) -> Turn {
    let Some(symbol) = reader.symbol_ahead(0) else {
        return Turn::Whole(found);
    };
    let Some(form) = infix_of(symbol) else {
        return Turn::Whole(found);
    };
    if level_of(form).fits(awaited) && found.level.fits(left_of(form)) {
        reader.pass();
        return Turn::Within(Frame::Infix(form, found), right_of(form));
    }
    Turn::Whole(found)
}

/// Whether the next token is the `.` of a projection from the term.
fn is_projected(reader: &Reader<'_>, awaited: Level, found: Found) -> bool {
    Level::Exp5.fits(awaited) && found.level.fits(Level::Exp5) && reader.is_symbol(0, Symbol::Dot)
}

/// Whether the next token begins an argument of the term.
fn is_applied(reader: &Reader<'_>, awaited: Level, found: Found) -> bool {
    Level::Exp4.fits(awaited) && found.level.fits(Level::Exp4) && begins_tightest(reader)
}

/// Whether the next token begins locals of the term.
fn has_locals(reader: &Reader<'_>, awaited: Level, found: Found) -> bool {
    Level::Exp.fits(awaited) && found.level.fits(Level::Exp3) && reader.is_word(Reserved::Where)
}

/// The whole term, once more round where a longer one ends before the next token.
fn longer(reader: &mut Reader<'_>, awaited: Level, found: Found) -> Result<Turn, Halt> {
    if is_projected(reader, awaited, found) {
        return projection(reader, found);
    }
    if is_applied(reader, awaited, found) {
        return Ok(Turn::Within(Frame::Application(found), Level::Exp5));
    }
    if has_locals(reader, awaited, found) {
        return where_locals(reader, found);
    }
    Ok(infix(reader, awaited, found))
}

/// The form of which a whole term is the first part, where the next token goes on so.
pub(crate) fn go_on(reader: &mut Reader<'_>, awaited: Level, turn: Turn) -> Result<Turn, Halt> {
    let mut turn = turn;
    for _ in 0..u64::MAX {
        let Turn::Whole(found) = turn else {
            break;
        };
        let before = reader.at;
        turn = longer(reader, awaited, found)?;
        if reader.at == before {
            break;
        }
    }
    Ok(turn)
}
