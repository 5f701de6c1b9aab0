//! Why reading stops.
use gft_core::NoMemory;
use std::alloc::{AllocError, AllocFailed};

/// Why a reader gives no form.
#[derive(Clone, Copy)]
pub(crate) enum Halt {
    /// The next token goes on with no form.
    Underivable,
    /// The token of this number is a `-` where a pattern may stand.
    Negated(u32),
    NoMemory,
}

impl From<NoMemory> for Halt {
    fn from(_error: NoMemory) -> Halt {
        Halt::NoMemory
    }
}

impl From<AllocError> for Halt {
    fn from(_error: AllocError) -> Halt {
        Halt::NoMemory
    }
}

impl<T: Drop> From<AllocFailed<T>> for Halt {
    fn from(_error: AllocFailed<T>) -> Halt {
        Halt::NoMemory
    }
}
