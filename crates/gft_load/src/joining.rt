//! The grammar of an import out of its parts.
use crate::compiling::Languages;
use crate::named::Named;
use crate::table::{count, take};
use gft_core::NoMemory;
use gft_pmcfg::{Abstract, Concrete, Grammar};
use sqlite_items::Items;
use std::alloc::Global;

/// Languages, each with the place of its file among the named ones.
#[derive(Drop)]
struct Parts {
    concretes: Vec<Option<Concrete>>,
    places: Vec<u32>,
}

/// The last place of a number.
fn last_place(numbers: &[u32], number: u32) -> u32 {
    let mut last = 0u32;
    let mut place = 0u32;
    'numbers: for one in numbers {
        if *one == number {
            last = place;
        }
        place = place.saturating_add(1);
    }
    last
}

impl Parts {
    fn add(&mut self, place: u32, concrete: Concrete) -> Result<(), NoMemory> {
        self.concretes.push(Some(concrete))?;
        self.places.push(place)?;
        Ok(())
    }

    /// Adds the languages of sources. A module that is named again counts at its last mention.
    fn add_sources(&mut self, named: &[u32], languages: Languages) -> Result<(), NoMemory> {
        let Languages {
            modules,
            mut concretes,
        } = languages;
        'languages: for number in (0..modules.len()).rev() {
            if let Some(concrete) = concretes.pop() {
                let m = modules.get(number).copied().unwrap_or(0);
                self.add(last_place(named, m), concrete)?;
            }
        }
        Ok(())
    }

    /// Adds the languages of a portable file, and gives its abstract syntax.
    fn add_grammar(&mut self, place: u32, grammar: Grammar) -> Result<Abstract, NoMemory> {
        let Grammar { abs, concretes } = grammar;
        let mut concretes = concretes;
        'languages: for _ in 0..concretes.len() {
            if let Some(concrete) = concretes.pop() {
                self.add(place, concrete)?;
            }
        }
        Ok(abs)
    }

    /// The name of a language.
    fn name(&self, number: usize) -> &str {
        match self.concretes.get(number) {
            Some(Some(concrete)) => concrete.name.as_str(),
            _ => "",
        }
    }

    /// The numbers of the languages by name, of several with one name that of the last file alone.
    fn order(&self, alloc: Global) -> Result<Vec<u32>, NoMemory> {
        let mut keys: Vec<(&str, u32, u32)> = Vec::new(alloc);
        let mut number = 0u32;
        'languages: for place in self.places.as_slice() {
            keys.push((self.name(number as usize), *place, number))?;
            number = number.saturating_add(1);
        }
        keys.sort()?;
        last_of_each(alloc, keys.as_slice())
    }
}

/// The last number under each name.
fn last_of_each(alloc: Global, keys: &[(&str, u32, u32)]) -> Result<Vec<u32>, NoMemory> {
    let mut order = Vec::new(alloc);
    let mut at = 0usize;
    'keys: for (name, _, number) in keys {
        at = at.saturating_add(1);
        let is_last = match keys.get(at) {
            Some((next, _, _)) => *next != *name,
            None => true,
        };
        if is_last {
            order.push(*number)?;
        }
    }
    Ok(order)
}

/// The languages that count, by name.
fn sorted(alloc: Global, parts: Parts) -> Result<Vec<Concrete>, NoMemory> {
    let order = parts.order(alloc)?;
    let Parts {
        mut concretes,
        places: _,
    } = parts;
    let mut sorted = Vec::new(alloc);
    'numbers: for number in order.as_slice() {
        if let Some(concrete) = take(&mut concretes, *number) {
            sorted.push(concrete)?;
        }
    }
    Ok(sorted)
}

/// Takes the languages of all portable files, and the abstract syntax of the first one.
fn take_grammars(parts: &mut Parts, named: Named) -> Result<Option<Abstract>, NoMemory> {
    let Named {
        modules: _,
        portables,
        mut grammars,
    } = named;
    let mut first = None;
    'files: for number in (0..count(portables.as_slice())?).rev() {
        if portables.get(number as usize).copied() == count(grammars.as_slice())?.checked_sub(1) {
            if let Some(grammar) = grammars.pop() {
                first = Some(parts.add_grammar(number, grammar)?);
            }
        }
    }
    Ok(first)
}

/// The grammar of an abstract syntax with the languages of all named files, those by name. `abs` is
/// that of the first file where it is a source; where none is, it is that of the first portable
/// file.
pub fn join_all(
    alloc: Global,
    abs: Option<Abstract>,
    named: Named,
    languages: Languages,
) -> Result<Grammar, NoMemory> {
    let mut parts = Parts {
        concretes: Vec::new(alloc),
        places: Vec::new(alloc),
    };
    parts.add_sources(named.modules.as_slice(), languages)?;
    let other = take_grammars(&mut parts, named)?;
    let concretes = sorted(alloc, parts)?;
    let abs = match abs {
        Some(abs) => abs,
        None => match other {
            Some(abs) => abs,
            None => return Err(NoMemory), // excluded: a named file has an abstract syntax
        },
    };
    match Grammar::checked(alloc, abs, Items::from_vec(concretes))? {
        Some(grammar) => Ok(grammar),
        None => Err(NoMemory), // excluded by compiling and reading: numbers are in range
    }
}
