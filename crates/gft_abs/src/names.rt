//! The categories and functions of an abstract module by their names, numbered in the order of
//! names.
use gft_core::{Name, NoMemory};
use gft_syntax::{Flat, FlatJudgement, Reference, Whole};
use indexmap::IndexMap;
use std::alloc::Global;

/// The entries of an abstract module. A category's place in `cats` is its number less 2, a
/// function's in `funs` its number.
#[derive(Drop)]
pub struct Names<'a> {
    pub cats: Vec<&'a FlatJudgement>,
    pub funs: Vec<&'a FlatJudgement>,
    cat_places: IndexMap<&'a str, u32>,
    fun_places: IndexMap<&'a str, u32>,
}

/// What a whole name means in an abstract module.
#[derive(Clone, Copy, PartialEq, Eq)]
pub enum Meaning {
    Category(u32),
    Function(u32),
    /// `Predef` and what it gives.
    Predefined,
    /// A judgement that is none of the module's categories and functions.
    Other,
}

/// The entries in the order of their names.
fn sorted<'a>(
    alloc: Global,
    entries: &'a [FlatJudgement],
) -> Result<Vec<&'a FlatJudgement>, NoMemory> {
    let mut keys: Vec<(&'a str, usize)> = Vec::new(alloc);
    'keys: for at in 0..entries.len() {
        keys.push((entries[at].whole.name.as_str(), at))?;
    }
    keys.sort()?;
    let mut found: Vec<&'a FlatJudgement> = Vec::new(alloc);
    'entries: for (_, at) in keys.as_slice() {
        if let Some(entry) = entries.get(*at) {
            found.push(entry)?;
        }
    }
    Ok(found)
}

/// The place of each entry by its name.
fn places<'a>(
    alloc: Global,
    entries: &[&'a FlatJudgement],
) -> Result<IndexMap<&'a str, u32>, NoMemory> {
    let mut found: IndexMap<&'a str, u32> = IndexMap::new(alloc);
    let mut place = 0u32;
    'entries: for entry in entries {
        found.insert(entry.whole.name.as_str(), place)?;
        place = match place.checked_add(1) {
            Some(next) => next,
            None => return Err(NoMemory),
        };
    }
    Ok(found)
}

/// The place of the entry of this whole name.
fn place_of_whole(
    entries: &Vec<&FlatJudgement>,
    places: &IndexMap<&str, u32>,
    whole: &Whole,
) -> Option<u32> {
    let place = *places.get(whole.name.as_str())?;
    let entry = entries.get(place as usize)?;
    if entry.whole.module.as_str() == whole.module.as_str() {
        return Some(place);
    }
    None
}

impl<'a> Names<'a> {
    /// The tables of a resolved grammar, made in time that is all but linear.
    pub fn new(alloc: Global, flat: &'a Flat) -> Result<Names<'a>, NoMemory> {
        let cats = sorted(alloc, flat.cats.as_slice())?;
        let funs = sorted(alloc, flat.funs.as_slice())?;
        let cat_places = places(alloc, cats.as_slice())?;
        let fun_places = places(alloc, funs.as_slice())?;
        Ok(Names {
            cats,
            funs,
            cat_places,
            fun_places,
        })
    }

    /// The category of a name without module, by its number.
    pub fn category_named(&self, name: &str) -> Option<u32> {
        match self.cat_places.get(name) {
            Some(place) => place.checked_add(2),
            None => None,
        }
    }

    /// What a whole name means. The built-in categories are `Int` and `String` of `Predef`.
    pub fn meaning(&self, whole: &Whole) -> Meaning {
        if whole.module.as_str() == "Predef" {
            return match built_in(whole.name.as_str()) {
                Some(number) => Meaning::Category(number),
                None => Meaning::Predefined,
            };
        }
        if let Some(place) = place_of_whole(&self.cats, &self.cat_places, whole) {
            return Meaning::Category(place.saturating_add(2));
        }
        if let Some(place) = place_of_whole(&self.funs, &self.fun_places, whole) {
            return Meaning::Function(place);
        }
        Meaning::Other
    }

    /// The entry of a category, None for a built-in one.
    pub fn category(&self, number: u32) -> Option<&'a FlatJudgement> {
        match number.checked_sub(2) {
            Some(place) => self.cats.get(place as usize).copied(),
            None => None,
        }
    }

    /// The entry of a function.
    pub fn function(&self, number: u32) -> Option<&'a FlatJudgement> {
        self.funs.get(number as usize).copied()
    }
}

/// The built-in category of a name.
pub fn built_in(name: &str) -> Option<u32> {
    if name == "Int" {
        return Some(0);
    }
    if name == "String" {
        return Some(1);
    }
    None
}

/// The name as it stands in a refusal.
pub fn name_of(reference: &Reference) -> &Name {
    match reference {
        Reference::Written(name) => name,
        Reference::Found(origin) => &origin.name,
        Reference::Whole(whole) => &whole.name,
    }
}
