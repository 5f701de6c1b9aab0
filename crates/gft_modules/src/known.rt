//! The modules of an import, and what is known of each.
use crate::numbers::number_of;
use gft_syntax::{Module, Origin, PlacedName};
use indexmap::IndexMap;

/// The modules of an import with their numbers, and what is known of each.
#[derive(Clone, Copy)]
pub struct Import<'a, 'n> {
    pub modules: &'a Vec<Module>,
    pub numbers: &'n IndexMap<&'a str, u32>,
    pub known: &'a Vec<Vec<Origin>>,
}

/// What the named module has. None is excluded by loading.
pub fn origins_of<'a>(import: Import<'a, '_>, name: &PlacedName) -> Option<&'a Vec<Origin>> {
    match number_of(import.numbers, &name.name) {
        None => None,
        Some(number) => import.known.get(number as usize),
    }
}
