//! Which type may stand where another is given.
use crate::types::{Type, TypeId, Types};
use gft_core::NoMemory;
use indexmap::IndexSet;
use std::alloc::Global;

/// How a term of one type stands where another is given.
#[derive(Clone, Copy, Debug, PartialEq, Eq)]
pub enum Fit {
    /// Its type is no subtype.
    No,
    /// As it is.
    Whole,
    /// Without some labels.
    Cut,
}

/// A type where its supertype is given.
#[derive(Clone, Copy, PartialEq, Eq, Hash)]
struct Pair {
    of: TypeId,
    given: TypeId,
}

/// The pairs that must hold, each once, in the order met.
type Pairs = IndexSet<Pair>;

/// One pair more, where its types are not equal.
fn ask(pairs: &mut Pairs, of: TypeId, given: TypeId) -> Result<(), NoMemory> {
    if of != given {
        pairs.insert(Pair { of, given })?;
    }
    Ok(())
}

/// Whether fields of one type are left out.
fn cut_if(is_cut: bool) -> Fit {
    if is_cut { Fit::Cut } else { Fit::Whole }
}

impl Types {
    /// Each given label is among the fields, at a subtype.
    fn ask_fields(&self, pairs: &mut Pairs, first: u32, given: u32) -> Result<Fit, NoMemory> {
        let mut next = first;
        let mut want = given;
        let mut is_cut = false;
        for _ in 0..self.fields.len() {
            let Some(field) = self.field(next) else {
                break;
            };
            next = field.rest;
            match self.field(want) {
                Some(wanted) if wanted.label == field.label => {
                    want = wanted.rest;
                    ask(pairs, field.of, wanted.of)?;
                }
                _ => is_cut = true,
            }
        }
        if self.field(want).is_some() {
            return Ok(Fit::No);
        }
        Ok(cut_if(is_cut))
    }

    fn ask_record(&self, pairs: &mut Pairs, first: u32, given: TypeId) -> Result<Fit, NoMemory> {
        match self.record_of(given) {
            None => Ok(Fit::No),
            Some(given) => self.ask_fields(pairs, first, given),
        }
    }

    fn ask_table(
        &self,
        pairs: &mut Pairs,
        over: TypeId,
        values: TypeId,
        given: TypeId,
    ) -> Result<Fit, NoMemory> {
        match self.table_of(given) {
            Some((given_over, given_values)) if given_over == over => {
                ask(pairs, values, given_values)?;
                Ok(Fit::Whole)
            }
            _ => Ok(Fit::No),
        }
    }

    fn ask_function(
        &self,
        pairs: &mut Pairs,
        from: TypeId,
        to: TypeId,
        given: TypeId,
    ) -> Result<Fit, NoMemory> {
        match self.function_of(given) {
            None => Ok(Fit::No),
            Some((given_from, given_to)) => {
                ask(pairs, given_from, from)?;
                ask(pairs, to, given_to)?;
                Ok(Fit::Whole)
            }
        }
    }

    fn ask_numbers(&self, last: u128, given: TypeId) -> Fit {
        match self.kind(given) {
            Type::Ints(given) if last <= given => Fit::Whole,
            _ => Fit::No,
        }
    }

    /// What a pair of types that are not equal asks of their parts.
    fn ask_parts(&self, pairs: &mut Pairs, pair: Pair) -> Result<Fit, NoMemory> {
        match self.kind(pair.of) {
            Type::Record(first) => self.ask_record(pairs, first, pair.given),
            Type::Table(over, values) => self.ask_table(pairs, over, values, pair.given),
            Type::Fun(from, to) => self.ask_function(pairs, from, to, pair.given),
            Type::Ints(last) => Ok(self.ask_numbers(last, pair.given)),
            Type::Str => Ok(Fit::No),
            Type::TypeSort => Ok(Fit::No),
            Type::ParamSort => Ok(Fit::No),
            Type::Param(_) => Ok(Fit::No),
        }
    }

    /// How a term of the type stands where the other is given. Each pair of parts is looked at
    /// once.
    pub fn fit(&self, alloc: Global, of: TypeId, given: TypeId) -> Result<Fit, NoMemory> {
        let mut pairs: Pairs = IndexSet::new(alloc);
        ask(&mut pairs, of, given)?;
        let mut is_cut = false;
        'pairs: for at in 0..usize::MAX {
            let pair = match pairs.get_index(at) {
                None => break,
                Some(pair) => *pair,
            };
            match self.ask_parts(&mut pairs, pair)? {
                Fit::No => return Ok(Fit::No),
                Fit::Whole => {}
                Fit::Cut => is_cut = true,
            }
        }
        Ok(cut_if(is_cut))
    }

    /// Whether the type may stand where the other is given.
    pub fn is_subtype(&self, alloc: Global, of: TypeId, given: TypeId) -> Result<bool, NoMemory> {
        let fit = self.fit(alloc, of, given)?;
        Ok(fit != Fit::No)
    }
}
