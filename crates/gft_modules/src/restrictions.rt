//! Restrictions of what is inherited.
use crate::first::{First, first_place, refuse};
use crate::headers::{functor_of, inherited_at, inherited_of};
use crate::numbers::number_of;
use gft_core::NoMemory;
use gft_rules::{Rule, Stop};
use gft_syntax::{Inherited, Module, Origin, PlacedName};
use indexmap::{IndexMap, IndexSet};
use std::alloc::Global;

/// Which names a module of a header lets through, the listed ones in a table.
#[derive(Drop)]
pub struct Restriction<'a> {
    listed: IndexSet<&'a str>,
    is_whole: bool,
    is_only: bool,
}

fn listed_names<'a>(alloc: Global, names: &'a [PlacedName]) -> Result<IndexSet<&'a str>, NoMemory> {
    let mut listed = IndexSet::new(alloc);
    'names: for name in names {
        listed.insert(name.name.as_str())?;
    }
    Ok(listed)
}

impl<'a> Restriction<'a> {
    /// It lets every name through. It takes no memory.
    pub fn none(alloc: Global) -> Restriction<'a> {
        Restriction {
            listed: IndexSet::new(alloc),
            is_whole: true,
            is_only: false,
        }
    }

    /// The restriction that the header writes.
    pub fn new(alloc: Global, inherited: &'a Inherited) -> Result<Restriction<'a>, NoMemory> {
        match inherited {
            Inherited::Whole(_) => Ok(Restriction::none(alloc)),
            Inherited::Only(_, names) => {
                let listed = listed_names(alloc, names.as_slice())?;
                Ok(Restriction {
                    listed,
                    is_whole: false,
                    is_only: true,
                })
            }
            Inherited::Except(_, names) => {
                let listed = listed_names(alloc, names.as_slice())?;
                Ok(Restriction {
                    listed,
                    is_whole: false,
                    is_only: false,
                })
            }
        }
    }

    /// Whether it lets the name through. One look-up.
    pub fn lets_through(&self, name: &str) -> bool {
        self.is_whole || self.listed.contains(name) == self.is_only
    }
}

/// The names that a restriction lists.
fn restricted_names(inherited: &Inherited) -> &[PlacedName] {
    match inherited {
        Inherited::Whole(_) => &[],
        Inherited::Only(_, names) => names.as_slice(),
        Inherited::Except(_, names) => names.as_slice(),
    }
}

/// The first name of a restriction that the module lacks.
fn first_lacking<'a>(
    alloc: Global,
    names: &'a [PlacedName],
    origins: &Vec<Origin>,
    before: Option<First<'a>>,
) -> Result<Option<First<'a>>, NoMemory> {
    let mut there = IndexSet::new(alloc);
    'origins: for origin in origins {
        there.insert(origin.name.as_str())?;
    }
    let mut first = before;
    'names: for name in names {
        if !there.contains(name.name.as_str()) {
            first = first_place(first, name.place, name.name.as_str());
        }
    }
    Ok(first)
}

/// What is known of the module that a header names.
fn known_of<'a>(
    known: &'a Vec<Vec<Origin>>,
    numbers: &IndexMap<&str, u32>,
    name: &PlacedName,
) -> Option<&'a Vec<Origin>> {
    match number_of(numbers, &name.name) {
        None => None,
        Some(number) => known.get(number as usize),
    }
}

/// The first of the faults seen before and of those in one module of the header.
fn first_of<'a>(
    alloc: Global,
    inherited: &'a Inherited,
    numbers: &IndexMap<&str, u32>,
    known: &Vec<Vec<Origin>>,
    before: Option<First<'a>>,
) -> Result<Option<First<'a>>, NoMemory> {
    let names = restricted_names(inherited);
    if names.is_empty() {
        return Ok(before);
    }
    match known_of(known, numbers, inherited_at(inherited)) {
        // excluded by loading
        None => Ok(before),
        Some(origins) => first_lacking(alloc, names, origins, before),
    }
}

/// Refuses the first name of a restriction of the header that the module restricted lacks.
pub fn check_restrictions(
    alloc: Global,
    module: &Module,
    numbers: &IndexMap<&str, u32>,
    known: &Vec<Vec<Origin>>,
) -> Result<(), Stop> {
    let mut first = None;
    'inherited: for inherited in inherited_of(&module.rest) {
        first = first_of(alloc, inherited, numbers, known, first)?;
    }
    if let Some(functor) = functor_of(&module.rest) {
        first = first_of(alloc, functor, numbers, known, first)?;
    }
    match first {
        None => Ok(()),
        Some(first) => { Err(refuse(alloc, Rule::RestrictUnknown, first.place, &[first.name])) }
    }
}
