//! The walk over a typed term. Each call lowers `fuel`, the bound on how deep calls nest;
//! well-typed terms end long before it.
use crate::binders::binders;
use crate::machine::{Machine, Named, Outcome};
use crate::scope::{EMPTY, Entry, Function};
use crate::terms::joint_of;
use gft_core::{Name, NoMemory, Shared};
use gft_syntax::{Branches, LinTerm, Pattern};
use sqlite_items::Items;
use std::alloc::Global;

impl Machine {
    /// What a term comes to. What it binds on the way is bound at this place.
    #[cycle(walk)]
    pub fn run(
        &mut self,
        alloc: Global,
        term: &LinTerm,
        scope: u32,
        fuel: u32,
    ) -> Result<Outcome, NoMemory> {
        if fuel == 0 {
            return self.no_outcome(alloc); // excluded by typing: calls end
        }
        match term {
            LinTerm::Var(back) => match self.scopes.find(*back, scope) {
                None => self.no_outcome(alloc), // excluded by typing
                Some(entry) => self.entry_outcome(alloc, entry),
            },
            LinTerm::Oper(number) => match self.oper(alloc, *number)? {
                Named::Known(outcome) => Ok(outcome),
                Named::Template(body) => self.body(alloc, body, EMPTY, fuel - 1),
            },
            LinTerm::Lambda(left, body) => self.closure(*left, body, scope),
            LinTerm::App(head, args) => {
                let function = self.run(alloc, head.get(), scope, fuel - 1)?;
                self.applied(alloc, function, args.get().as_slice(), 0, scope, fuel - 1)
            }
            LinTerm::Let(terms, body) => {
                let terms = terms.get().as_slice();
                let inner = self.extend(alloc, terms, 0, terms.len(), scope, scope, fuel - 1)?;
                self.run(alloc, body.get(), inner, fuel - 1)
            }
            LinTerm::Cut(inner, from, to) => {
                let outcome = self.run(alloc, inner.get(), scope, fuel - 1)?;
                self.cut(alloc, outcome, from, to)
            }
            term => Ok(Outcome::Data(self.parts(alloc, term, scope, fuel - 1)?)),
        }
    }

    /// What the body of that number comes to.
    #[cycle(walk)]
    fn body(
        &mut self,
        alloc: Global,
        body: u32,
        scope: u32,
        fuel: u32,
    ) -> Result<Outcome, NoMemory> {
        if fuel == 0 {
            return self.no_outcome(alloc); // excluded by typing: calls end
        }
        match self.scopes.body(body)? {
            None => self.no_outcome(alloc), // bodies are numbered as they come
            Some(body) => self.run(alloc, body.get(), scope, fuel - 1),
        }
    }

    /// Adds the terms from one place to another, which stand in `scope`, as variables to `onto`.
    #[cycle(walk)]
    fn extend(
        &mut self,
        alloc: Global,
        terms: &[LinTerm],
        from: usize,
        to: usize,
        scope: u32,
        onto: u32,
        fuel: u32,
    ) -> Result<u32, NoMemory> {
        let mut inner = onto;
        if fuel == 0 {
            return Ok(inner); // excluded by typing: calls end
        }
        'each: for at in from..to {
            if let Some(term) = terms.get(at) {
                let outcome = self.run(alloc, term, scope, fuel - 1)?;
                let entry = self.entry_of(alloc, outcome)?;
                inner = self.scopes.link(entry, inner)?;
            }
        }
        Ok(inner)
    }

    /// What came of a head, applied to the arguments from this place on. An oper in normal form is
    /// called with all its arguments at once, any other function with one after the other.
    #[cycle(walk)]
    fn applied(
        &mut self,
        alloc: Global,
        head: Outcome,
        args: &[LinTerm],
        from: usize,
        scope: u32,
        fuel: u32,
    ) -> Result<Outcome, NoMemory> {
        if from >= args.len() {
            return Ok(head);
        }
        if fuel == 0 {
            return self.no_outcome(alloc); // excluded by typing: calls end
        }
        let number = match head {
            // a function without outcome; other data is excluded by typing
            Outcome::Data(_) => return self.no_outcome(alloc),
            Outcome::Function(number) => number,
        };
        if let Some((params, body)) = self.scopes.whole(number, args.len() - from) {
            let to = from.saturating_add(params as usize);
            let terms = self.all(alloc, args, from, to, scope, fuel - 1)?;
            let outcome = self.called(alloc, terms, body)?;
            return self.applied(alloc, outcome, args, to, scope, fuel - 1);
        }
        let to = from.saturating_add(1);
        let one = self.extend(alloc, args, from, to, scope, EMPTY, fuel - 1)?;
        match self.scopes.find(0, one) {
            None => self.no_outcome(alloc), // the argument is there
            Some(entry) => {
                let outcome = self.feed(alloc, number, entry, fuel - 1)?;
                self.applied(alloc, outcome, args, to, scope, fuel - 1)
            }
        }
    }

    /// A function applied to one value.
    #[cycle(walk)]
    pub fn feed(
        &mut self,
        alloc: Global,
        number: u32,
        entry: Entry,
        fuel: u32,
    ) -> Result<Outcome, NoMemory> {
        if fuel == 0 {
            return self.no_outcome(alloc); // excluded by typing: calls end
        }
        match self.scopes.function(number) {
            None => self.no_outcome(alloc), // functions are numbered as they are made
            Some(Function::Closure { left, body, scope }) => {
                let inner = self.scopes.link(entry, scope)?;
                if left > 1 {
                    return self.function(Function::Closure {
                        left: left - 1,
                        body,
                        scope: inner,
                    });
                }
                self.body(alloc, body, inner, fuel - 1)
            }
            Some(
                Function::Oper {
                    params,
                    body,
                    given,
                    scope,
                },
            ) => { self.feed_oper(alloc, params, body, given, scope, entry) }
            Some(
                Function::Arg {
                    number,
                    params,
                    given,
                    scope,
                },
            ) => { self.feed_argument(alloc, number, params, given, scope, entry) }
            Some(Function::Cut { number, cut }) => {
                let entry = self.taken(alloc, entry, cut)?;
                let outcome = self.feed(alloc, number, entry, fuel - 1)?;
                self.wanted(alloc, outcome, cut)
            }
        }
    }

    /// The normal form of a term that is data.
    #[cycle(walk)]
    pub fn data(
        &mut self,
        alloc: Global,
        term: &LinTerm,
        scope: u32,
        fuel: u32,
    ) -> Result<u32, NoMemory> {
        if fuel == 0 {
            return self.terms.nothing(alloc); // excluded by typing: calls end
        }
        let first = self.bound.len();
        let depth = self.depth;
        let outcome = self.run(alloc, term, scope, fuel - 1)?;
        self.closed(alloc, first, depth, outcome)
    }

    /// The normal forms of the terms from one place to another.
    #[cycle(walk)]
    fn all(
        &mut self,
        alloc: Global,
        terms: &[LinTerm],
        from: usize,
        to: usize,
        scope: u32,
        fuel: u32,
    ) -> Result<Items<LinTerm>, NoMemory> {
        let mut normal = Items::new(alloc);
        if fuel == 0 {
            return Ok(normal); // excluded by typing: calls end
        }
        'each: for at in from..to {
            if let Some(term) = terms.get(at) {
                let number = self.data(alloc, term, scope, fuel - 1)?;
                self.terms.list(alloc, number, &mut normal)?;
            }
        }
        Ok(normal)
    }

    /// The fields with normal terms.
    #[cycle(walk)]
    fn fields(
        &mut self,
        alloc: Global,
        fields: &[(Shared<Name>, LinTerm)],
        scope: u32,
        fuel: u32,
    ) -> Result<Items<(Shared<Name>, LinTerm)>, NoMemory> {
        let mut normal = Items::new(alloc);
        if fuel == 0 {
            return Ok(normal); // excluded by typing: calls end
        }
        'each: for field in fields {
            let number = self.data(alloc, &field.1, scope, fuel - 1)?;
            self.terms.list_field(alloc, &field.0, number, &mut normal)?;
        }
        Ok(normal)
    }

    /// The branches with normal terms, each under the variables of its pattern.
    #[cycle(walk)]
    fn matched(
        &mut self,
        alloc: Global,
        branches: &[(Shared<Pattern>, LinTerm)],
        scope: u32,
        fuel: u32,
    ) -> Result<Items<(Shared<Pattern>, LinTerm)>, NoMemory> {
        let mut normal = Items::new(alloc);
        if fuel == 0 {
            return Ok(normal); // excluded by typing: calls end
        }
        let depth = self.depth;
        'each: for branch in branches {
            let count = binders(alloc, branch.0.get())?;
            let inner = self.deepen(count, scope)?;
            let number = self.data(alloc, &branch.1, inner, fuel - 1)?;
            self.depth = depth;
            self.terms
                .list_branch(alloc, &branch.0, number, &mut normal)?;
        }
        Ok(normal)
    }

    /// The branches of a table with normal terms.
    #[cycle(walk)]
    fn branches(
        &mut self,
        alloc: Global,
        branches: &Branches<LinTerm>,
        scope: u32,
        fuel: u32,
    ) -> Result<Shared<Branches<LinTerm>>, NoMemory> {
        if fuel == 0 {
            return Shared::new(alloc, Branches::Matched(Items::new(alloc))); // excluded by typing
        }
        match branches {
            Branches::Matched(matched) => {
                let matched = self.matched(alloc, matched.as_slice(), scope, fuel - 1)?;
                Shared::new(alloc, Branches::Matched(matched))
            }
            Branches::Listed(ctype, terms) => {
                let terms = terms.as_slice();
                let terms = self.all(alloc, terms, 0, terms.len(), scope, fuel - 1)?;
                Shared::new(alloc, Branches::Listed(ctype.copy()?, terms))
            }
        }
    }

    /// The two parts of a term, both data, in normal form.
    #[cycle(walk)]
    fn both(
        &mut self,
        alloc: Global,
        left: &LinTerm,
        right: &LinTerm,
        scope: u32,
        fuel: u32,
    ) -> Result<(u32, u32), NoMemory> {
        if fuel == 0 {
            let nothing = self.terms.nothing(alloc)?; // excluded by typing: calls end
            return Ok((nothing, nothing));
        }
        let left = self.data(alloc, left, scope, fuel - 1)?;
        let right = self.data(alloc, right, scope, fuel - 1)?;
        Ok((left, right))
    }

    /// The normal form of a term that is neither a variable, a call, a `Let` nor a cut.
    #[cycle(walk)]
    fn parts(
        &mut self,
        alloc: Global,
        term: &LinTerm,
        scope: u32,
        fuel: u32,
    ) -> Result<u32, NoMemory> {
        if fuel == 0 {
            return self.terms.nothing(alloc); // excluded by typing: calls end
        }
        if let Some((joint, left, right)) = joint_of(term) {
            let both = self.both(alloc, left, right, scope, fuel - 1)?;
            return self.terms.join(alloc, joint, both);
        }
        match term {
            LinTerm::Con(name, args) => {
                let args = args.get().as_slice();
                let args = self.all(alloc, args, 0, args.len(), scope, fuel - 1)?;
                self.terms.constructor(alloc, name, args)
            }
            LinTerm::Record(fields) => {
                let fields = self.fields(alloc, fields.get().as_slice(), scope, fuel - 1)?;
                self.terms.record(alloc, fields)
            }
            LinTerm::Proj(record, label) => {
                let record = self.data(alloc, record.get(), scope, fuel - 1)?;
                self.terms.projection(alloc, record, label)
            }
            LinTerm::Table(over, branches) => {
                let branches = self.branches(alloc, branches.get(), scope, fuel - 1)?;
                self.terms.table(alloc, over, branches)
            }
            LinTerm::Case(at, branches, place) => {
                let at = self.data(alloc, at.get(), scope, fuel - 1)?;
                let branches = self.branches(alloc, branches.get(), scope, fuel - 1)?;
                self.terms.case(alloc, at, branches, *place)
            }
            LinTerm::Variants(members) => {
                let members = members.get().as_slice();
                let members = self.all(alloc, members, 0, members.len(), scope, fuel - 1)?;
                self.terms.variants(alloc, members)
            }
            term => self.terms.add_copy(alloc, term),
        }
    }
}
