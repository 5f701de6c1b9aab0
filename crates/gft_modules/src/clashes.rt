//! Names that a module gets in two ways.
use crate::declared::Space;
use gft_core::Place;

/// A name in one space, the name by its number.
#[derive(Clone, Copy, Debug, PartialEq, Eq, Hash)]
pub struct Key {
    pub space: Space,
    pub name: u32,
}

/// What a module has under a name so far: the number of the module of the header that gives it
/// first, and the judgement.
#[derive(Clone, Copy)]
pub struct Standing {
    pub given: u32,
    pub module: u32,
    pub judgement: u32,
}

/// A name that clashes, by its number: of its pairs of modules the later one's place, and the two
/// modules by their numbers among those that the header gives.
#[derive(Clone, Copy)]
pub struct Clash {
    pub place: Place,
    pub name: u32,
    pub earlier: u32,
    pub later: u32,
}
