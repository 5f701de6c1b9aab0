//! A slice: its judgement, or the first rule that it breaks.
ghost use Rattle.std.specs.Prelude.{◌<◌, ◌≤◌, vec_len};

use crate::build::build;
use crate::halt::Halt;
use crate::judgement::judgement;
use crate::labels::repeats_open;
use crate::plan::{Step, Whole};
use crate::reader::Reader;
use crate::refusals::{broken_anyway, negated_pattern, token_number, too_deep, underivable};
use gft_core::{NoMemory, Place};
use gft_rules::Stop;
use gft_syntax::{Judgement, Keyword, SourceToken};
use std::alloc::Global;

/// What the tokens of a slice are.
#[derive(Clone, Copy)]
enum Slice {
    /// A judgement.
    Judgement(Whole),
    /// A judgement with a term that is too high, of which this is the first token.
    High(u32),
    /// No judgement: this token is a `-` where a pattern may stand.
    Negated(u32),
    /// No judgement.
    Underivable,
}

/// Where the token stands.
fn place_of(tokens: &[SourceToken], at: u32) -> Place {
    match tokens.get(at as usize) {
        Some(token) => token.place,
        // excluded by the reader, whose tokens stand in the list
        None => Place {
            file: 0,
            line: 1,
            col: 1,
        },
    }
}

/// What the slice is whose reading stopped at a `-`: a label may stand twice before it.
fn at_minus(reader: &mut Reader<'_>, at: u32) -> Result<Slice, NoMemory> {
    if repeats_open(reader)? {
        return Ok(Slice::Underivable);
    }
    Ok(Slice::Negated(at))
}

/// What the slice is.
fn read(reader: &mut Reader<'_>, before: Option<Keyword>) -> Result<Slice, NoMemory> {
    match judgement(reader, before) {
        Err(Halt::NoMemory) => Err(NoMemory),
        Err(Halt::Underivable) => Ok(Slice::Underivable),
        Err(Halt::Negated(at)) => at_minus(reader, at),
        Ok(whole) => match reader.high {
            Some(at) => Ok(Slice::High(at)),
            None => Ok(Slice::Judgement(whole)),
        },
    }
}

/// The refusal of a slice that is a judgement or may be the beginning of one, if it has one: a `-`
/// in a pattern, a word out of the profile, brackets that are too deep, or a term that is too high.
fn refused(
    alloc: Global,
    tokens: &[SourceToken],
    from: u32,
    to: u32,
    slice: Slice,
) -> Result<(), Stop> {
    if let Slice::Negated(at) = slice {
        return Err(Stop::Refused(negated_pattern(alloc, place_of(tokens, at))?));
    }
    broken_anyway(alloc, tokens, from, to)?;
    if let Slice::High(at) = slice {
        return Err(Stop::Refused(too_deep(alloc, place_of(tokens, at))));
    }
    Ok(())
}

/// What the slice is, and how it is built. One walk over its tokens.
fn planned(
    alloc: Global,
    tokens: &[SourceToken],
    from: u32,
    to: u32,
    before: Option<Keyword>,
) -> Result<(Slice, Vec<Step>), NoMemory> {
    let mut reader = Reader::new(alloc, tokens, from, to);
    let slice = read(&mut reader, before)?;
    Ok((slice, reader.into_plan()))
}

/// The judgement that the tokens from one up to another are, which may go on with the keyword
/// before, or the first rule that they break: a word out of the profile or a `-` in a pattern, by
/// place; else the first bracket that is open at once with 200 others; else the first term that is
/// higher than 1,000; else their syntax. Each token is read once; the stack that reading takes does
/// not grow with them.
pub fn parse_judgement(
    alloc: Global,
    tokens: &Vec<SourceToken>,
    from: usize,
    to: usize,
    before: Option<Keyword>,
) -> Result<Judgement, Stop>
    requires some { from < to }
    requires within { to ≤ vec_len tokens.now }
{
    let first = token_number(from)?;
    let end = token_number(to)?;
    let (slice, plan) = planned(alloc, tokens.as_slice(), first, end, before)?;
    refused(alloc, tokens.as_slice(), first, end, slice)?;
    match slice {
        Slice::Judgement(form) => Ok(build(alloc, tokens.as_slice(), plan.as_slice(), form)?),
        _ => Err(underivable(alloc, tokens, from, to, &tokens[from])),
    }
}

/// The rule that the tokens break as the last slice of a body that the file does not close, if it
/// is another one than that the file ends there.
pub fn unfinished(
    alloc: Global,
    tokens: &Vec<SourceToken>,
    from: usize,
    to: usize,
    before: Option<Keyword>,
) -> Result<(), Stop> {
    let first = token_number(from)?;
    let end = token_number(to)?;
    let (slice, _plan) = planned(alloc, tokens.as_slice(), first, end, before)?;
    refused(alloc, tokens.as_slice(), first, end, slice)
}
