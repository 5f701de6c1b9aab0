//! The normal terms of a judgement, by number: so whoever walks over terms holds numbers alone.
use gft_core::{Name, NoMemory, Place, Shared};
use gft_syntax::{Branches, CType, LinTerm, Pattern, Predef, Whole};
use sqlite_items::Items;
use std::alloc::Global;

/// Adds a value to the others, and gives its number.
pub fn add<T: Drop>(values: &mut Vec<T>, value: T) -> Result<u32, NoMemory> {
    match u32::try_from(values.len()) {
        Ok(number) => {
            values.push(value)?;
            Ok(number)
        }
        Err(_) => Err(NoMemory), // more than a u32 counts
    }
}

/// The term that has no outcome.
pub fn no_outcome(alloc: Global) -> Result<LinTerm, NoMemory> {
    Ok(LinTerm::Variants(Shared::new(alloc, Items::new(alloc))?))
}

/// How a term joins its two parts, both data.
#[derive(Clone, Copy)]
pub enum Joint {
    Concat,
    Glue(Place),
    Predef(Predef, Place),
    Extend,
    Select,
}

/// How the term joins two parts, and these, where it does so.
pub fn joint_of(term: &LinTerm) -> Option<(Joint, &LinTerm, &LinTerm)> {
    match term {
        LinTerm::Concat(left, right) => Some((Joint::Concat, left.get(), right.get())),
        LinTerm::Glue(left, right, place) => Some((Joint::Glue(*place), left.get(), right.get())),
        LinTerm::Predef(which, number, string, place) => {
            Some((Joint::Predef(*which, *place), number.get(), string.get()))
        }
        LinTerm::Extend(left, right) => Some((Joint::Extend, left.get(), right.get())),
        LinTerm::Select(table, at) => Some((Joint::Select, table.get(), at.get())),
        _ => None,
    }
}

fn joined(joint: Joint, left: Shared<LinTerm>, right: Shared<LinTerm>) -> LinTerm {
    match joint {
        Joint::Concat => LinTerm::Concat(left, right),
        Joint::Glue(place) => LinTerm::Glue(left, right, place),
        Joint::Predef(which, place) => LinTerm::Predef(which, left, right, place),
        Joint::Extend => LinTerm::Extend(left, right),
        Joint::Select => LinTerm::Select(left, right),
    }
}

/// Normal terms. They share their parts with each other.
#[derive(Drop)]
pub struct Terms {
    all: Vec<Shared<LinTerm>>,
}

impl Terms {
    /// No term yet.
    pub fn new(alloc: Global) -> Terms {
        Terms {
            all: Vec::new(alloc),
        }
    }

    /// The number of a further term.
    pub fn add(&mut self, alloc: Global, term: LinTerm) -> Result<u32, NoMemory> {
        self.add_shared(Shared::new(alloc, term)?)
    }

    /// The number of a further term, which others have too.
    pub fn add_shared(&mut self, term: Shared<LinTerm>) -> Result<u32, NoMemory> {
        add(&mut self.all, term)
    }

    /// The number of a further term, equal to this one.
    pub fn add_copy(&mut self, alloc: Global, term: &LinTerm) -> Result<u32, NoMemory> {
        self.add(alloc, term.copy()?)
    }

    /// The number of the term that has no outcome.
    pub fn nothing(&mut self, alloc: Global) -> Result<u32, NoMemory> {
        self.add(alloc, no_outcome(alloc)?)
    }

    /// The term of that number.
    pub fn get(&self, number: u32) -> Option<&LinTerm> {
        match self.all.get(number as usize) {
            None => None, // terms are numbered as they are made
            Some(term) => Some(term.get()),
        }
    }

    /// A term equal to that of the number.
    pub fn copy(&self, alloc: Global, number: u32) -> Result<LinTerm, NoMemory> {
        match self.get(number) {
            None => no_outcome(alloc), // terms are numbered as they are made
            Some(term) => term.copy(),
        }
    }

    /// The term of that number, as a part of another.
    pub fn share(&self, alloc: Global, number: u32) -> Result<Shared<LinTerm>, NoMemory> {
        match self.all.get(number as usize) {
            None => Shared::new(alloc, no_outcome(alloc)?), // terms are numbered as they are made
            Some(term) => term.share(),
        }
    }

    /// The term that joins those of two numbers.
    pub fn join(&mut self, alloc: Global, joint: Joint, both: (u32, u32)) -> Result<u32, NoMemory> {
        let left = self.share(alloc, both.0)?;
        let right = self.share(alloc, both.1)?;
        self.add(alloc, joined(joint, left, right))
    }

    /// Adds the term of that number to a list.
    pub fn list(
        &self,
        alloc: Global,
        number: u32,
        list: &mut Items<LinTerm>,
    ) -> Result<(), NoMemory> {
        list.push(self.copy(alloc, number)?)?;
        Ok(())
    }

    /// Adds a field with the term of that number.
    pub fn list_field(
        &self,
        alloc: Global,
        label: &Shared<Name>,
        number: u32,
        fields: &mut Items<(Shared<Name>, LinTerm)>,
    ) -> Result<(), NoMemory> {
        let label = label.share()?;
        fields.push((label, self.copy(alloc, number)?))?;
        Ok(())
    }

    /// Adds a branch with the term of that number.
    pub fn list_branch(
        &self,
        alloc: Global,
        pattern: &Shared<Pattern>,
        number: u32,
        branches: &mut Items<(Shared<Pattern>, LinTerm)>,
    ) -> Result<(), NoMemory> {
        let pattern = pattern.share()?;
        branches.push((pattern, self.copy(alloc, number)?))?;
        Ok(())
    }

    /// A constructor with its arguments.
    pub fn constructor(
        &mut self,
        alloc: Global,
        name: &Shared<Whole>,
        args: Items<LinTerm>,
    ) -> Result<u32, NoMemory> {
        let args = Shared::new(alloc, args)?;
        self.add(alloc, LinTerm::Con(name.share()?, args))
    }

    /// A record of these fields.
    pub fn record(
        &mut self,
        alloc: Global,
        fields: Items<(Shared<Name>, LinTerm)>,
    ) -> Result<u32, NoMemory> {
        self.add(alloc, LinTerm::Record(Shared::new(alloc, fields)?))
    }

    /// A field of a record.
    pub fn projection(
        &mut self,
        alloc: Global,
        record: u32,
        label: &Shared<Name>,
    ) -> Result<u32, NoMemory> {
        let record = self.share(alloc, record)?;
        self.add(alloc, LinTerm::Proj(record, label.share()?))
    }

    /// A table over the type.
    pub fn table(
        &mut self,
        alloc: Global,
        over: &CType,
        branches: Shared<Branches<LinTerm>>,
    ) -> Result<u32, NoMemory> {
        self.add(alloc, LinTerm::Table(over.copy()?, branches))
    }

    /// A selection from branches.
    pub fn case(
        &mut self,
        alloc: Global,
        at: u32,
        branches: Shared<Branches<LinTerm>>,
        place: Place,
    ) -> Result<u32, NoMemory> {
        let at = self.share(alloc, at)?;
        self.add(alloc, LinTerm::Case(at, branches, place))
    }

    /// One of these.
    pub fn variants(&mut self, alloc: Global, members: Items<LinTerm>) -> Result<u32, NoMemory> {
        self.add(alloc, LinTerm::Variants(Shared::new(alloc, members)?))
    }

    /// An argument of the whole judgement that is a function, applied to these.
    pub fn call(
        &mut self,
        alloc: Global,
        argument: u32,
        args: Items<LinTerm>,
    ) -> Result<u32, NoMemory> {
        let args = Shared::new(alloc, args)?;
        let head = Shared::new(alloc, LinTerm::Arg(argument))?;
        self.add(alloc, LinTerm::App(head, args))
    }

    /// These terms bound round that of the number.
    pub fn bound(
        &mut self,
        alloc: Global,
        terms: Items<LinTerm>,
        body: u32,
    ) -> Result<u32, NoMemory> {
        let terms = Shared::new(alloc, terms)?;
        let body = self.share(alloc, body)?;
        self.add(alloc, LinTerm::Let(terms, body))
    }

    /// The term of that number, of the first type, cut to the second; itself where it stays as it
    /// is.
    pub fn cut(
        &mut self,
        alloc: Global,
        number: u32,
        from: &CType,
        to: &CType,
    ) -> Result<u32, NoMemory> {
        if is_plain(from) {
            return Ok(number);
        }
        let term = self.share(alloc, number)?;
        let from = from.copy()?;
        self.add(alloc, LinTerm::Cut(term, from, to.copy()?))
    }
}

/// Whether a term of the type stays as it is where it is cut.
fn is_plain(ctype: &CType) -> bool {
    matches!(ctype, CType::Str | CType::Param(_, _) | CType::Ints(_))
}
