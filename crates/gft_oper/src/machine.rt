//! The state of a walk: what is bound around the place that it is at, and what opers mean.
use crate::meaning::Meaning;
use crate::scope::{EMPTY, Entry, Function, Scopes};
use crate::terms::Terms;
use gft_core::{NoMemory, Shared};
use gft_syntax::LinTerm;
use sqlite_items::Items;
use std::alloc::Global;

/// What a term comes to: the normal term, or the function, of that number.
#[derive(Clone, Copy)]
pub enum Outcome {
    Data(u32),
    Function(u32),
}

/// `depth` counts the binders around the place in the normal term; `bound` has the terms that are
/// bound there and whose `Let` is still to be written, the innermost last.
#[derive(Drop)]
pub struct Machine {
    pub meanings: Vec<Meaning>,
    pub scopes: Scopes,
    pub terms: Terms,
    pub depth: u32,
    pub bound: Vec<Items<LinTerm>>,
}

/// Puts a value in the place of another, which is let go of.
fn put<T: Drop>(values: &mut Vec<T>, at: usize, value: T) {
    if let Some(place) = values.get_mut(at) {
        *place = value;
    }
}

/// How many there are, at most `u32::MAX`.
pub fn count_of<T>(terms: &[T]) -> u32 {
    u32::try_from(terms.len()).unwrap_or(u32::MAX)
}

/// Whether the terms are the innermost variables in their order, so that binding them changes
/// nothing.
fn are_innermost(terms: &[LinTerm]) -> bool {
    let mut back = count_of(terms);
    for term in terms {
        back = back.saturating_sub(1);
        match term {
            LinTerm::Var(one) if *one == back => {}
            _ => return false,
        }
    }
    true
}

/// What the name of an oper comes to: at once, or what the body of that number comes to.
#[derive(Clone, Copy)]
pub enum Named {
    Known(Outcome),
    Template(u32),
}

impl Machine {
    /// A machine over these meanings, by number, with no scope open.
    pub fn new(alloc: Global, meanings: Vec<Meaning>) -> Machine {
        Machine {
            meanings,
            scopes: Scopes::new(alloc),
            terms: Terms::new(alloc),
            depth: 0,
            bound: Vec::new(alloc),
        }
    }

    /// Forgets the scopes and terms of the judgement before.
    pub fn begin(&mut self, alloc: Global) {
        self.scopes = Scopes::new(alloc);
        self.terms = Terms::new(alloc);
        self.depth = 0;
        self.bound = Vec::new(alloc);
    }

    /// What the oper means.
    pub fn meaning(&self, number: u32) -> Result<Meaning, NoMemory> {
        match self.meanings.get(number as usize) {
            None => Ok(Meaning::Nothing), // excluded by typing: the number of an oper is in range
            Some(meaning) => meaning.copy(),
        }
    }

    /// The oper whose body is normal, as a value.
    fn oper_function(&mut self, params: u32, body: u32) -> Result<Named, NoMemory> {
        let oper = Function::Oper {
            params,
            body,
            given: 0,
            scope: EMPTY,
        };
        Ok(Named::Known(self.function(oper)?))
    }

    /// What the name of an oper comes to.
    pub fn oper(&mut self, alloc: Global, number: u32) -> Result<Named, NoMemory> {
        match self.meanings.get(number as usize) {
            None => Ok(Named::Known(self.no_outcome(alloc)?)), // excluded by typing
            Some(Meaning::Nothing) => Ok(Named::Known(self.no_outcome(alloc)?)),
            Some(Meaning::Data(term)) => {
                Ok(Named::Known(Outcome::Data(self.terms.add_shared(term.share()?)?)))
            }
            Some(Meaning::Function(params, body)) => {
                let params = *params;
                let body = self.scopes.add_body(body)?;
                self.oper_function(params, body)
            }
            Some(Meaning::Template(term)) => Ok(Named::Template(self.scopes.add_body(term)?)),
        }
    }

    /// Gives a judgement its meaning, where there is such a number.
    pub fn set_meaning(&mut self, number: u32, meaning: Meaning) {
        put(&mut self.meanings, number as usize, meaning);
    }

    /// What has no outcome, as data.
    pub fn no_outcome(&mut self, alloc: Global) -> Result<Outcome, NoMemory> {
        Ok(Outcome::Data(self.terms.nothing(alloc)?))
    }

    /// A further function, as what a term comes to.
    pub fn function(&mut self, function: Function) -> Result<Outcome, NoMemory> {
        Ok(Outcome::Function(self.scopes.add(function)?))
    }

    /// The lambda with this body, as what a term comes to.
    pub fn closure(
        &mut self,
        left: u32,
        body: &Shared<LinTerm>,
        scope: u32,
    ) -> Result<Outcome, NoMemory> {
        let body = self.scopes.add_body(body)?;
        self.function(Function::Closure { left, body, scope })
    }

    /// A variable at that many binders from the outside, as it is written at this place.
    fn variable(&self, level: u32) -> LinTerm {
        LinTerm::Var(self.depth.saturating_sub(1).saturating_sub(level))
    }

    /// What a variable comes to.
    pub fn entry_outcome(&mut self, alloc: Global, entry: Entry) -> Result<Outcome, NoMemory> {
        match entry {
            Entry::Level(level) => {
                let variable = self.variable(level);
                Ok(Outcome::Data(self.terms.add(alloc, variable)?))
            }
            Entry::Arg(number) => Ok(Outcome::Data(self.terms.add(alloc, LinTerm::Arg(number))?)),
            Entry::Function(number) => Ok(Outcome::Function(number)),
        }
    }

    /// The normal term that an argument is; a function has none here.
    fn entry_term(&mut self, alloc: Global, entry: Option<Entry>) -> Result<u32, NoMemory> {
        let outcome = match entry {
            Some(entry) => self.entry_outcome(alloc, entry)?,
            None => return self.terms.nothing(alloc),
        };
        match outcome {
            Outcome::Data(number) => Ok(number),
            // excluded by typing: the arguments are data
            Outcome::Function(_) => self.terms.nothing(alloc),
        }
    }

    /// The last so many arguments of a scope, in their order.
    pub fn entry_terms(
        &mut self,
        alloc: Global,
        count: u32,
        scope: u32,
    ) -> Result<Items<LinTerm>, NoMemory> {
        let mut terms = Items::new(alloc);
        for at in 0..count {
            let entry = self.scopes.find(count - 1 - at, scope);
            let number = self.entry_term(alloc, entry)?;
            self.terms.list(alloc, number, &mut terms)?;
        }
        Ok(terms)
    }

    /// Binds terms here, all of them outside of what they bind.
    fn bind_group(&mut self, terms: Items<LinTerm>) -> Result<(), NoMemory> {
        self.depth = self.depth.saturating_add(count_of(terms.as_slice()));
        self.bound.push(terms)?;
        Ok(())
    }

    /// Binds the arguments of a call. The innermost variables in their order are not bound again.
    fn bind_arguments(&mut self, terms: Items<LinTerm>) -> Result<(), NoMemory> {
        if are_innermost(terms.as_slice()) {
            return Ok(());
        }
        self.bind_group(terms)
    }

    /// What a variable stands for that is bound to the term, where this is a variable itself.
    fn entry_at(&self, number: u32) -> Option<Entry> {
        match self.terms.get(number) {
            Some(LinTerm::Var(back)) => {
                Some(Entry::Level(self.depth.saturating_sub(1).saturating_sub(*back)))
            }
            Some(LinTerm::Arg(number)) => Some(Entry::Arg(*number)),
            _ => None,
        }
    }

    /// Binds one term, and says what a variable for it stands for. A variable is its one value, so
    /// it is not bound again.
    fn bind(&mut self, alloc: Global, number: u32) -> Result<Entry, NoMemory> {
        if let Some(entry) = self.entry_at(number) {
            return Ok(entry);
        }
        let level = self.depth;
        let mut terms = Items::new(alloc);
        self.terms.list(alloc, number, &mut terms)?;
        self.bind_group(terms)?;
        Ok(Entry::Level(level))
    }

    /// What stands for a variable that is bound to this.
    pub fn entry_of(&mut self, alloc: Global, outcome: Outcome) -> Result<Entry, NoMemory> {
        match outcome {
            Outcome::Data(number) => self.bind(alloc, number),
            Outcome::Function(number) => Ok(Entry::Function(number)),
        }
    }

    /// The body of an oper in normal form, as it stands.
    fn body_outcome(&mut self, alloc: Global, body: u32) -> Result<Outcome, NoMemory> {
        match self.scopes.body(body)? {
            None => self.no_outcome(alloc), // bodies are numbered as they come
            Some(body) => Ok(Outcome::Data(self.terms.add_shared(body)?)),
        }
    }

    /// The body of an oper in normal form, called with these arguments: it sees them alone.
    pub fn called(
        &mut self,
        alloc: Global,
        terms: Items<LinTerm>,
        body: u32,
    ) -> Result<Outcome, NoMemory> {
        self.bind_arguments(terms)?;
        self.body_outcome(alloc, body)
    }

    /// Writes the `Let` of the last terms that are bound round the term.
    fn wrap(&mut self, alloc: Global, number: u32) -> Result<u32, NoMemory> {
        match self.bound.pop() {
            None => Ok(number),
            Some(terms) => self.terms.bound(alloc, terms, number),
        }
    }

    /// Writes each `Let` but the first so many round the term, and goes back to the depth before
    /// them.
    fn wrapped(
        &mut self,
        alloc: Global,
        first: usize,
        depth: u32,
        number: u32,
    ) -> Result<u32, NoMemory> {
        let mut number = number;
        for _ in first..self.bound.len() {
            number = self.wrap(alloc, number)?;
        }
        self.depth = depth;
        Ok(number)
    }

    /// A scope with so many variables more, which are bound here, the last one innermost.
    pub fn deepen(&mut self, count: u32, scope: u32) -> Result<u32, NoMemory> {
        let mut inner = scope;
        for _ in 0..count {
            inner = self.scopes.link(Entry::Level(self.depth), inner)?;
            self.depth = self.depth.saturating_add(1);
        }
        Ok(inner)
    }

    /// What data came to, with what was bound on the way: each `Let` but the first so many.
    pub fn closed(
        &mut self,
        alloc: Global,
        first: usize,
        depth: u32,
        outcome: Outcome,
    ) -> Result<u32, NoMemory> {
        match outcome {
            Outcome::Data(number) => self.wrapped(alloc, first, depth, number),
            Outcome::Function(_) => {
                let nothing = self.terms.nothing(alloc)?; // excluded by typing
                self.wrapped(alloc, first, depth, nothing)
            }
        }
    }
}
