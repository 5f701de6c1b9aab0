//! Terms, read on a stack of the forms that are open.
mod begun;
mod branches;
mod frame;
mod going;
mod infix;
mod locals;
mod members;
mod resumed;

use crate::halt::Halt;
use crate::level::Level;
use crate::reader::Reader;
use begun::begin;
pub(crate) use begun::begins_tightest;
use frame::{Found, Frame, Turn};
use going::go_on;
use resumed::resume;

/// A form that is open, and the level that is awaited where it stands.
#[derive(Clone, Copy)]
struct Open {
    frame: Frame,
    awaited: Level,
}

/// What comes next: a term of the level is to begin, or the whole term is read.
#[derive(Clone, Copy)]
enum Next {
    Begin(Level),
    Finish(Found),
}

/// Closes the forms that end before the next token, up to one that goes on.
fn settle(
    reader: &mut Reader<'_>,
    open: &mut Vec<Open>,
    awaited: Level,
    turn: Turn,
) -> Result<Next, Halt> {
    let mut awaited = awaited;
    let mut turn = turn;
    for _ in 0..u64::MAX {
        match go_on(reader, awaited, turn)? {
            Turn::Within(frame, next) => {
                open.push(Open { frame, awaited })?;
                return Ok(Next::Begin(next));
            }
            Turn::Whole(found) => {
                let Some(outer) = open.pop() else {
                    return Ok(Next::Finish(found));
                };
                awaited = outer.awaited;
                turn = resume(reader, outer.frame, found)?;
            }
        }
    }
    Err(Halt::Underivable)
}

/// A term of the level.
pub(crate) fn term(reader: &mut Reader<'_>, level: Level) -> Result<(), Halt> {
    let mut open: Vec<Open> = Vec::new(reader.alloc);
    let mut awaited = level;
    for _ in 0..u64::MAX {
        let turn = begin(reader, awaited)?;
        match settle(reader, &mut open, awaited, turn)? {
            Next::Begin(next) => awaited = next,
            Next::Finish(_) => return Ok(()),
        }
    }
    Err(Halt::Underivable)
}
