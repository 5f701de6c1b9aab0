//! What stops a generation, as numbers, and the refusal that it becomes.
use gft_core::{Name, NoMemory, Place, Text};
use gft_pmcfg::Abstract;
use gft_rules::{Refusal, Rule, Stop};
use sqlite_items::Items;
use std::alloc::{AllocError, AllocFailed, Global};

/// Of what a rule is broken: the whole language, or a category or a function by its number.
#[derive(Clone, Copy)]
pub enum Subject {
    Language,
    Category(u32),
    Function(u32),
}

/// A rule that is broken, where, and of what.
#[derive(Clone, Copy)]
pub struct Fault {
    pub rule: Rule,
    pub place: Option<Place>,
    pub subject: Subject,
}

/// Why there is no answer.
#[derive(Clone, Copy)]
pub enum Halt {
    NoMemory,
    Broken(Fault),
}

impl From<NoMemory> for Halt {
    fn from(_error: NoMemory) -> Halt {
        Halt::NoMemory
    }
}

impl From<AllocError> for Halt {
    fn from(_error: AllocError) -> Halt {
        Halt::NoMemory
    }
}

impl<T: Drop> From<AllocFailed<T>> for Halt {
    fn from(_error: AllocFailed<T>) -> Halt {
        Halt::NoMemory
    }
}

/// A broken rule as an error.
pub fn broken<T>(rule: Rule, place: Option<Place>, subject: Subject) -> Result<T, Halt> {
    Err(Halt::Broken(Fault {
        rule,
        place,
        subject,
    }))
}

/// The name of what a rule is broken of, None for the language itself.
fn name_of(abs: &Abstract, subject: Subject) -> Option<&str> {
    match subject {
        Subject::Language => None,
        Subject::Category(number) => match abs.cats.as_slice().get(number as usize) {
            None => None, // excluded: the number of a category is in range
            Some(category) => Some(category.name.as_str()),
        },
        Subject::Function(number) => match abs.funs.as_slice().get(number as usize) {
            None => None, // excluded: the number of a function is in range
            Some(function) => Some(function.name.as_str()),
        },
    }
}

fn made(alloc: Global, language: &Name, abs: &Abstract, fault: Fault) -> Result<Refusal, NoMemory> {
    let mut names = Items::new(alloc);
    names.push(Text::from_str(alloc, language.as_str())?)?;
    if let Some(name) = name_of(abs, fault.subject) {
        names.push(Text::from_str(alloc, name)?)?;
    }
    Ok(Refusal {
        rule: fault.rule,
        place: fault.place,
        names,
    })
}

/// The refusal of a language, which carries its name and that of the category or function.
pub fn refused(alloc: Global, language: &Name, abs: &Abstract, halt: Halt) -> Stop {
    match halt {
        Halt::NoMemory => Stop::NoMemory,
        Halt::Broken(fault) => match made(alloc, language, abs, fault) {
            Ok(one) => Stop::Refused(one),
            Err(_) => Stop::NoMemory,
        },
    }
}
