//! Where the judgements of a concrete module stand, by category and by function.
use gft_abs::{category_named, function_named};
use gft_core::{NoMemory, Place};
use gft_pmcfg::Abstract;
use gft_syntax::{CType, Definition, Flat, FlatConcrete, FlatJudgement, Judgement};
use std::alloc::Global;

/// A judgement: its place among those of its module, its number, and the place of its term in the
/// list of normal forms.
#[derive(Clone, Copy)]
pub struct Found {
    pub at: u32,
    pub number: u32,
    pub term: u32,
}

/// What was found for each category and for each function by number.
#[derive(Drop)]
pub struct Judgements {
    lincats: Vec<Option<Found>>,
    lindefs: Vec<Option<Found>>,
    linrefs: Vec<Option<Found>>,
    lins: Vec<Option<Found>>,
}

fn number(n: usize) -> u32 {
    u32::try_from(n).unwrap_or(u32::MAX)
}

/// So many places at which nothing was found.
fn nothing(alloc: Global, count: usize) -> Result<Vec<Option<Found>>, NoMemory> {
    let mut all = Vec::new(alloc);
    for _ in 0..count {
        all.push(None)?;
    }
    Ok(all)
}

/// What was found at a place.
fn at(all: &[Option<Found>], place: u32) -> Option<Found> {
    match all.get(place as usize) {
        None => None,
        Some(found) => *found,
    }
}

/// Keeps what is found at a place where nothing was found before.
fn keep(all: &mut Vec<Option<Found>>, place: Option<u32>, found: Found) {
    let Some(place) = place else {
        return; // excluded by names: a judgement is of a category or a function
    };
    if let Some(here) = all.get_mut(place as usize) {
        if here.is_none() {
            *here = Some(found);
        }
    }
}

/// How many numbers an oper has: one, or one for each alternative of an overload.
fn alternatives(judgement: &Judgement) -> usize {
    match judgement {
        Judgement::OperTyped(_, _, Definition::Overload(all)) => all.len(),
        Judgement::Oper(_, _, Definition::Overload(all)) => all.len(),
        _ => 1,
    }
}

/// The number of the first judgement of concrete c.
fn first_number(flat: &Flat, c: u32) -> u32 {
    let mut count = flat.params.len();
    for oper in flat.opers.as_slice() {
        count = count.saturating_add(alternatives(oper.judgement.get()));
    }
    for (place, concrete) in flat.concretes.as_slice().iter().enumerate() {
        if number(place) < c {
            count = count.saturating_add(concrete.judgements.len());
        }
    }
    number(count)
}

/// Whether typing gave a term for the judgement of this number.
fn is_typed(flat: &Flat, number: u32) -> bool {
    match flat.typed.as_slice().get(number as usize) {
        Some(Some(_)) => true,
        _ => false,
    }
}

/// Whether the judgement has a normal form.
fn has_term(judgement: &Judgement) -> bool {
    match judgement {
        Judgement::Lin(_, _, _) => true,
        Judgement::Lindef(_, _, _) => true,
        Judgement::Linref(_, _, _) => true,
        _ => false,
    }
}

impl Judgements {
    fn new(alloc: Global, abs: &Abstract) -> Result<Judgements, NoMemory> {
        let categories = abs.cats.len();
        Ok(Judgements {
            lincats: nothing(alloc, categories)?,
            lindefs: nothing(alloc, categories)?,
            linrefs: nothing(alloc, categories)?,
            lins: nothing(alloc, abs.funs.len())?,
        })
    }

    /// Keeps a judgement under the number of what it is of.
    fn add(&mut self, abs: &Abstract, one: &FlatJudgement, found: Found) {
        let name = one.whole.name.as_str();
        match one.judgement.get() {
            Judgement::Lincat(_, _) => {
                keep(
                    &mut self.lincats,
                    category_named(abs.cats.as_slice(), name),
                    found,
                )
            }
            Judgement::Lindef(_, _, _) => {
                keep(
                    &mut self.lindefs,
                    category_named(abs.cats.as_slice(), name),
                    found,
                )
            }
            Judgement::Linref(_, _, _) => {
                keep(
                    &mut self.linrefs,
                    category_named(abs.cats.as_slice(), name),
                    found,
                )
            }
            Judgement::Lin(_, _, _) => {
                keep(
                    &mut self.lins,
                    function_named(abs.funs.as_slice(), name),
                    found,
                )
            }
            _ => {} // a flag
        }
    }

    fn add_all(&mut self, flat: &Flat, abs: &Abstract, concrete: &FlatConcrete, first: u32) {
        let mut term = 0u32;
        for (place, one) in concrete.judgements.as_slice().iter().enumerate() {
            let at = number(place);
            let number = first.saturating_add(at);
            let is_typed = is_typed(flat, number);
            let has_term = has_term(one.judgement.get());
            if is_typed {
                self.add(abs, one, Found { at, number, term });
            }
            if is_typed && has_term {
                term = term.saturating_add(1);
            }
        }
    }

    /// The typed judgements of concrete c. Time is all but linear.
    pub fn of(alloc: Global, flat: &Flat, abs: &Abstract, c: u32) -> Result<Judgements, NoMemory> {
        let mut judgements = Judgements::new(alloc, abs)?;
        if let Some(concrete) = flat.concretes.as_slice().get(c as usize) {
            judgements.add_all(flat, abs, concrete, first_number(flat, c));
        }
        Ok(judgements)
    }

    /// The linearization type of a category.
    pub fn lincat(&self, category: u32) -> Option<Found> {
        at(self.lincats.as_slice(), category)
    }

    /// What a hole of a category gives.
    pub fn lindef(&self, category: u32) -> Option<Found> {
        at(self.lindefs.as_slice(), category)
    }

    /// How a category is made one string.
    pub fn linref(&self, category: u32) -> Option<Found> {
        at(self.linrefs.as_slice(), category)
    }

    /// The linearization of a function.
    pub fn lin(&self, function: u32) -> Option<Found> {
        at(self.lins.as_slice(), function)
    }
}

/// Where the name of a judgement of concrete c stands.
pub fn place_of(flat: &Flat, c: u32, found: Found) -> Option<Place> {
    match flat.concretes.as_slice().get(c as usize) {
        None => None, // a concrete is in range
        Some(concrete) => match concrete.judgements.as_slice().get(found.at as usize) {
            None => None, // what was found is in range
            Some(one) => Some(one.place),
        },
    }
}

/// The type that a judgement gives.
pub fn type_of(flat: &Flat, found: Found) -> Option<&CType> {
    match flat.typed.as_slice().get(found.number as usize) {
        Some(Some(typed)) => Some(&typed.ctype),
        _ => None, // what was found is typed
    }
}
