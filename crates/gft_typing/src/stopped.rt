//! Why typing stops.
use gft_core::NoMemory;

/// Why a call has no answer: memory ran out, or what it was given is refused; the refusal lies in
/// the state, so that this is handed on at no cost.
#[derive(Clone, Copy, Debug, PartialEq, Eq)]
pub enum Stopped {
    NoMemory,
    Refused,
}

impl From<NoMemory> for Stopped {
    fn from(_error: NoMemory) -> Stopped {
        Stopped::NoMemory
    }
}
