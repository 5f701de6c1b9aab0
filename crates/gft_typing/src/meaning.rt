//! What global names mean.
use crate::state::Typing;
use gft_core::NoMemory;
use gft_syntax::Whole;
use gft_types::TypeId;
use std::alloc::Global;

/// What a whole name means where terms are typed.
#[derive(Clone, Copy, Debug, PartialEq, Eq)]
pub enum Meaning {
    /// Nothing that is known yet.
    Nothing,
    /// A parameter type, with or without constructors.
    Param(TypeId),
    /// A constructor, by its number among all, and its type.
    Constructor(u32, TypeId),
    /// An oper: the number of its judgement, and its type.
    Oper(u32, TypeId),
    /// An overloaded oper: the first of its alternatives in their table, and how many there are.
    Overload(u32, u32),
    /// An oper that names a type: the type, and its sort, `Type` or `PType`.
    Named(TypeId, TypeId),
}

/// An alternative of an overloaded oper: its number among the judgements, and its type.
#[derive(Clone, Copy, Debug, PartialEq, Eq)]
pub struct Alternative {
    pub number: u32,
    pub of: TypeId,
}

impl Typing {
    /// The number of a whole name, which is met from now on. It means nothing at first.
    pub fn name_number(&mut self, alloc: Global, whole: &Whole) -> Result<u32, NoMemory> {
        self.types.whole_number(alloc, whole)
    }

    /// What the name of that number means.
    pub fn meaning(&self, name: u32) -> Meaning {
        match self.meanings.get(name as usize) {
            None => Meaning::Nothing,
            Some(meaning) => *meaning,
        }
    }

    /// Gives a name its meaning.
    pub fn set_meaning(&mut self, name: u32, meaning: Meaning) -> Result<(), NoMemory> {
        let at = name as usize;
        for _ in self.meanings.len()..at.saturating_add(1) {
            self.meanings.push(Meaning::Nothing)?;
        }
        if let Some(place) = self.meanings.get_mut(at) {
            *place = meaning;
        }
        Ok(())
    }

    /// Gives a name the meaning of an overloaded oper. Its alternatives have the numbers from
    /// `first` on among the judgements, and these types.
    pub fn overload(&mut self, name: u32, first: u32, types: &[TypeId]) -> Result<(), NoMemory> {
        let Ok(start) = u32::try_from(self.alternatives.len()) else {
            return Err(NoMemory);
        };
        let mut count = 0u32;
        'each: for of in types {
            let number = first.saturating_add(count);
            self.alternatives.push(Alternative { number, of: *of })?;
            count = count.saturating_add(1);
        }
        self.set_meaning(name, Meaning::Overload(start, count))
    }

    /// The alternatives of an overloaded oper, none for what is no such oper.
    pub fn alternatives(&self, name: u32) -> &[Alternative] {
        match self.meaning(name) {
            Meaning::Overload(first, count) => self.alternatives_from(first, count),
            _ => &[],
        }
    }

    pub(crate) fn alternatives_from(&self, first: u32, count: u32) -> &[Alternative] {
        let start = first as usize;
        match self
            .alternatives
            .get(start..start.saturating_add(count as usize))
        {
            None => &[], // excluded by overload
            Some(alternatives) => alternatives,
        }
    }
}
