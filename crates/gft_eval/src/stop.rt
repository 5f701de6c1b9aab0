//! Why a run gave no value.
use gft_core::{NoMemory, Place};
use std::alloc::{AllocError, AllocFailed};

/// Why a run of a term gave no value.
#[derive(Clone, Copy)]
pub enum Stop {
    /// An operand of `+` at this place holds a closed part.
    Glue(Place),
    /// A text that a string pattern or a `Predef` function looks at holds a closed part.
    Match(Place),
    /// No branch matches a text.
    NoBranch(Place),
    /// The parameter cell of that number must be known.
    Ask(u32),
    NoMemory,
    /// The term has no outcome by these choices. It never leaves `outcomes`.
    Nothing,
}

impl From<NoMemory> for Stop {
    fn from(_error: NoMemory) -> Stop {
        Stop::NoMemory
    }
}

impl From<AllocError> for Stop {
    fn from(_error: AllocError) -> Stop {
        Stop::NoMemory
    }
}

impl<T: Drop> From<AllocFailed<T>> for Stop {
    fn from(_error: AllocFailed<T>) -> Stop {
        Stop::NoMemory
    }
}
