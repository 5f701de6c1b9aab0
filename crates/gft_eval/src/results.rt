//! The results of a term on values.
use crate::machine::Machine;
use crate::stop::Stop;
use gft_core::Place;
use gft_syntax::{LinTerm, Value};
use std::alloc::{AllocFailed, Global};

/// Why a term has no results: the first stuck step, with its place, or want of memory.
#[derive(Clone, Copy)]
pub enum EvalErr {
    /// An operand of `+` holds a closed part.
    Glue(Place),
    /// A text that a string pattern or a `Predef` function looks at holds a closed part.
    Match(Place),
    /// No branch matches a text.
    NoBranch(Place),
    NoMemory,
}

impl<T: Drop> From<AllocFailed<T>> for EvalErr {
    fn from(_error: AllocFailed<T>) -> EvalErr {
        EvalErr::NoMemory
    }
}

impl From<Stop> for EvalErr {
    fn from(stop: Stop) -> EvalErr {
        match stop {
            Stop::Glue(place) => EvalErr::Glue(place),
            Stop::Match(place) => EvalErr::Match(place),
            Stop::NoBranch(place) => EvalErr::NoBranch(place),
            Stop::NoMemory => EvalErr::NoMemory,
            // excluded: values have no unknown cells, and a run without outcome is passed over
            Stop::Ask(_) => EvalErr::NoMemory,
            Stop::Nothing => EvalErr::NoMemory,
        }
    }
}

fn answers(machine: &Machine<'_>, found: &[u32]) -> Result<Vec<Value>, Stop> {
    let mut values = Vec::new(machine.alloc);
    for place in found {
        values.push(machine.answer(*place)?)?;
    }
    Ok(values)
}

/// The distinct results of a well-typed normal term in the order met, `variants` taking its members
/// in order, or the first stuck step. `args` are the values of its arguments, of the types of
/// these. The time is that of one run for each choice of members.
pub fn eval(alloc: Global, term: &LinTerm, args: &Vec<Value>) -> Result<Vec<Value>, EvalErr> {
    let mut machine = Machine::new(alloc);
    machine.begin(term).map_err(Stop::from)?;
    for value in args.as_slice() {
        machine.give(value)?;
    }
    let found = machine.all_values()?;
    Ok(answers(&machine, found.as_slice())?)
}
