//! Patterns, read on a stack of the forms that are open.
mod begun;
mod frame;
mod going;
mod resumed;

use crate::halt::Halt;
use crate::level::PatternLevel;
use crate::reader::Reader;
use begun::begin;
use frame::{Found, Frame, Turn};
use going::go_on;
use resumed::resume;

/// A form that is open, and the level that is awaited where it stands.
#[derive(Clone, Copy)]
struct Open {
    frame: Frame,
    awaited: PatternLevel,
}

/// What comes next: a pattern of the level is to begin, or the whole pattern is read.
#[derive(Clone, Copy)]
enum Next {
    Begin(PatternLevel),
    Finish(Found),
}

/// Closes the forms that end before the next token, up to one that goes on.
fn settle(
    reader: &mut Reader<'_>,
    open: &mut Vec<Open>,
    awaited: PatternLevel,
    turn: Turn,
) -> Result<Next, Halt> {
    let mut awaited = awaited;
    let mut turn = turn;
    for _ in 0..u64::MAX {
        match go_on(reader, awaited, turn)? {
            Turn::Within(frame, next) => {
                open.push(Open { frame, awaited })?;
                return Ok(Next::Begin(next));
            }
            Turn::Whole(found) => {
                let Some(outer) = open.pop() else {
                    return Ok(Next::Finish(found));
                };
                awaited = outer.awaited;
                turn = resume(reader, outer.frame, found)?;
            }
        }
    }
    Err(Halt::Underivable)
}

/// Patt, and its height.
pub(crate) fn pattern(reader: &mut Reader<'_>) -> Result<u32, Halt> {
    let mut open: Vec<Open> = Vec::new(reader.alloc);
    let mut awaited = PatternLevel::Patt;
    for _ in 0..u64::MAX {
        let turn = begin(reader, awaited)?;
        match settle(reader, &mut open, awaited, turn)? {
            Next::Begin(next) => awaited = next,
            Next::Finish(found) => return Ok(found.height),
        }
    }
    Err(Halt::Underivable)
}
