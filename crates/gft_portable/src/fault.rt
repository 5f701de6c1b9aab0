//! Why bytes are not the file of a grammar.
use gft_core::NoMemory;
use gft_rules::Rule;
use std::alloc::AllocError;

/// What is wrong with a grammar whose fields all are in range and in order.
#[derive(Clone, Copy, Debug, PartialEq, Eq)]
pub enum Flaw {
    /// A type has an application with too few or too many arguments.
    Arity,
    /// An index has another type than the category asks for.
    IndexType,
    /// No run of a tree has the production at its root.
    Unproductive,
    /// Nothing names the sequence or the group.
    Unused,
    /// The production is not one of those that share their arguments as far as they can.
    Unshared,
}

/// Why a file is not read: the rule that its first fault breaks, or the flaw of the grammar, each
/// with the place in bytes from 0.
#[derive(Clone, Copy, Debug, PartialEq, Eq)]
pub enum ReadErr {
    Bad(Rule, u32),
    Invalid(Flaw, u32),
    NoMemory,
}

impl From<NoMemory> for ReadErr {
    fn from(_error: NoMemory) -> ReadErr {
        ReadErr::NoMemory
    }
}

impl From<AllocError> for ReadErr {
    fn from(_error: AllocError) -> ReadErr {
        ReadErr::NoMemory
    }
}
