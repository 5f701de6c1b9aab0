//! Refusals of typing.
use crate::state::Typing;
use crate::stopped::Stopped;
use gft_core::{Name, NoMemory, Place, Text};
use gft_rules::{Refusal, Rule, Stop};
use gft_syntax::Sort;
use gft_types::TypeId;
use sqlite_items::Items;
use std::alloc::Global;

/// What a refusal names.
#[derive(Clone, Copy)]
pub enum Said {
    Nothing,
    /// A name of a variable or label.
    Name(u32),
    /// The name in its module.
    Whole(u32),
    Sort(Sort),
    Type(TypeId),
    /// The type that is expected, and the one that was found.
    Types(TypeId, TypeId),
    /// A text that was made.
    Text(u32),
}

/// A rule that is broken, where, and what it names.
#[derive(Clone, Copy)]
pub struct Broken {
    pub rule: Rule,
    pub place: Place,
    pub said: Said,
}

/// How a sort is written.
fn sort_text(sort: Sort) -> &'static str {
    match sort {
        Sort::Str => "Str",
        Sort::TypeSort => "Type",
        Sort::ParamSort => "PType",
        Sort::Ints => "Ints",
        Sort::Predef => "Predef",
    }
}

/// One text, as the names of a refusal.
fn one(alloc: Global, text: &str) -> Result<Items<Text>, NoMemory> {
    let mut names = Items::new(alloc);
    names.push(Text::from_str(alloc, text)?)?;
    Ok(names)
}

impl Typing {
    /// A rule is broken at the place.
    pub(crate) fn broken(&mut self, rule: Rule, place: Place, said: Said) -> Stopped {
        self.broken = Some(Broken { rule, place, said });
        Stopped::Refused
    }

    /// A rule is broken at the term.
    pub(crate) fn broken_at(&mut self, rule: Rule, term: u32, said: Said) -> Stopped {
        let place = self.forms.place(term);
        self.broken(rule, place, said)
    }

    /// A refusal without names.
    pub fn refuse(&mut self, rule: Rule, place: Place) -> Stopped {
        self.broken(rule, place, Said::Nothing)
    }

    /// A refusal with a name.
    pub fn refuse_name(&mut self, alloc: Global, rule: Rule, place: Place, name: &Name) -> Stopped {
        match self.types.names.number(alloc, name) {
            Ok(name) => self.broken(rule, place, Said::Name(name)),
            Err(_) => Stopped::NoMemory,
        }
    }

    /// A rule is broken at the term, and a text says what it names.
    pub(crate) fn broken_by(&mut self, rule: Rule, term: u32, text: Text) -> Stopped {
        let Ok(number) = u32::try_from(self.texts.len()) else {
            return Stopped::NoMemory;
        };
        match self.texts.push(text) {
            Ok(()) => self.broken_at(rule, term, Said::Text(number)),
            Err(_) => Stopped::NoMemory,
        }
    }

    fn type_names(&self, alloc: Global, of: TypeId) -> Result<Items<Text>, NoMemory> {
        let text = self.types.text(alloc, of)?;
        one(alloc, text.as_str())
    }

    fn two_types(
        &self,
        alloc: Global,
        expected: TypeId,
        found: TypeId,
    ) -> Result<Items<Text>, NoMemory> {
        let mut names = self.type_names(alloc, expected)?;
        names.push(self.types.text(alloc, found)?)?;
        Ok(names)
    }

    fn text_names(&self, alloc: Global, number: u32) -> Result<Items<Text>, NoMemory> {
        match self.texts.get(number as usize) {
            None => Ok(Items::new(alloc)), // excluded by broken_by
            Some(text) => one(alloc, text.as_str()),
        }
    }

    fn names_of(&self, alloc: Global, said: Said) -> Result<Items<Text>, NoMemory> {
        match said {
            Said::Nothing => Ok(Items::new(alloc)),
            Said::Name(name) => one(alloc, self.types.names.text(name)),
            Said::Whole(name) => one(alloc, self.types.wholes.text(name)),
            Said::Sort(sort) => one(alloc, sort_text(sort)),
            Said::Type(of) => self.type_names(alloc, of),
            Said::Types(expected, found) => self.two_types(alloc, expected, found),
            Said::Text(number) => self.text_names(alloc, number),
        }
    }

    /// The refusal for which a call stopped, or want of memory.
    pub fn stop(&self, alloc: Global, stopped: Stopped) -> Stop {
        let broken = match stopped {
            Stopped::NoMemory => return Stop::NoMemory,
            Stopped::Refused => match self.broken {
                None => return Stop::NoMemory, // excluded by broken: what refuses is kept
                Some(broken) => broken,
            },
        };
        match self.names_of(alloc, broken.said) {
            Err(_) => Stop::NoMemory,
            Ok(names) => Stop::Refused(Refusal {
                rule: broken.rule,
                place: Some(broken.place),
                names,
            }),
        }
    }
}
