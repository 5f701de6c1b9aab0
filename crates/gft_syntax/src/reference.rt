//! Names where they stand, and what they mean.
use gft_core::{Name, Place};

/// A name with the place of its first token.
#[derive(Drop)]
pub struct PlacedName {
    pub name: Name,
    pub place: Place,
}

/// A whole name: the module that defines what is named, and its name there.
#[derive(Drop)]
pub struct Whole {
    pub module: Name,
    pub name: Name,
}

/// Where a name comes from: the number of the defining module, and the place of the judgement among
/// those of that module, both from 0.
#[derive(Drop)]
pub struct Origin {
    pub name: Name,
    pub module: u32,
    pub judgement: u32,
}

/// A name in a term or a pattern: as it is written, with the origin that was found for it, or
/// whole. After names are resolved, one that is still as written is a local variable.
#[derive(Drop)]
pub enum Reference {
    Written(Name),
    Found(Origin),
    Whole(Whole),
}
