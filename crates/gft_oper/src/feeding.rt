//! Functions that take one argument more, and what is seen at another type.
use crate::machine::{Machine, Outcome};
use crate::scope::{EMPTY, Entry, Function};
use gft_core::NoMemory;
use gft_syntax::CType;
use std::alloc::Global;

impl Machine {
    /// What was of the first type, cut to the second.
    pub fn cut(
        &mut self,
        alloc: Global,
        outcome: Outcome,
        from: &CType,
        to: &CType,
    ) -> Result<Outcome, NoMemory> {
        match outcome {
            Outcome::Data(number) => Ok(Outcome::Data(self.terms.cut(alloc, number, from, to)?)),
            Outcome::Function(number) => match self.scopes.add_cut(alloc, from, to)? {
                Some(cut) => self.function(Function::Cut { number, cut }),
                None => Ok(Outcome::Function(number)), // excluded by typing
            },
        }
    }

    /// An argument of a function that is seen at another type, as the function takes it.
    pub fn taken(&mut self, alloc: Global, entry: Entry, cut: u32) -> Result<Entry, NoMemory> {
        match self.scopes.cut(cut)? {
            None => Ok(entry), // cuts are numbered as they are made
            Some(types) => {
                let outcome = self.entry_outcome(alloc, entry)?;
                let types = types.get();
                let outcome = self.cut(alloc, outcome, types.given.get(), types.takes.get())?;
                self.entry_of(alloc, outcome)
            }
        }
    }

    /// The result of a function that is seen at another type, as it is wanted.
    pub fn wanted(
        &mut self,
        alloc: Global,
        outcome: Outcome,
        cut: u32,
    ) -> Result<Outcome, NoMemory> {
        match self.scopes.cut(cut)? {
            None => Ok(outcome), // cuts are numbered as they are made
            Some(types) => {
                let types = types.get();
                self.cut(alloc, outcome, types.gives.get(), types.wanted.get())
            }
        }
    }

    /// A function of so many parameters that stands for an argument of the whole judgement, or the
    /// argument itself where it is data.
    pub fn parameter(&mut self, number: u32, params: u32) -> Result<Entry, NoMemory> {
        if params == 0 {
            return Ok(Entry::Arg(number));
        }
        let function = Function::Arg {
            number,
            params,
            given: 0,
            scope: EMPTY,
        };
        Ok(Entry::Function(self.scopes.add(function)?))
    }

    /// An oper in normal form with one argument more.
    pub fn feed_oper(
        &mut self,
        alloc: Global,
        params: u32,
        body: u32,
        given: u32,
        scope: u32,
        entry: Entry,
    ) -> Result<Outcome, NoMemory> {
        let scope = self.scopes.link(entry, scope)?;
        let given = given.saturating_add(1);
        if given < params {
            return self.function(Function::Oper {
                params,
                body,
                given,
                scope,
            });
        }
        let terms = self.entry_terms(alloc, params, scope)?;
        self.called(alloc, terms, body)
    }

    /// An argument of the whole judgement that is a function, with one argument more.
    pub fn feed_argument(
        &mut self,
        alloc: Global,
        number: u32,
        params: u32,
        given: u32,
        scope: u32,
        entry: Entry,
    ) -> Result<Outcome, NoMemory> {
        let scope = self.scopes.link(entry, scope)?;
        let given = given.saturating_add(1);
        if given < params {
            return self.function(Function::Arg {
                number,
                params,
                given,
                scope,
            });
        }
        let terms = self.entry_terms(alloc, params, scope)?;
        Ok(Outcome::Data(self.terms.call(alloc, number, terms)?))
    }
}
