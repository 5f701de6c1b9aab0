//! Productions, defs and refs, read.
use crate::cases::{Cases, Version};
use crate::fault::ReadErr;
use crate::field::{Reader, Span, bad};
use crate::groups::Groups;
use crate::items::Ascending;
use crate::output::{count, part_of};
use crate::sequences::Sequences;
use crate::syntax::{Entry, Syntax};
use crate::terms::push;
use gft_rules::Rule;
use std::alloc::Global;

/// The most productions of a language, groups written out.
const MOST_PRODUCTIONS: u64 = 8_388_608;

/// A production: where it begins in the file, its function and result, and where the numbers of its
/// arguments and then those of its sequences stand among those of all.
#[derive(Clone, Copy)]
pub struct Production {
    pub at: u32,
    pub fun: u32,
    pub result: u32,
    pub from: u32,
    pub mid: u32,
    pub to: u32,
}

/// A def or a ref: its nonterminal, and where the numbers of its sequences stand.
#[derive(Clone, Copy)]
pub struct Filler {
    pub nonterminal: u32,
    pub from: u32,
    pub to: u32,
}

/// What was read of a language.
#[derive(Drop)]
pub struct Language {
    pub version: Version,
    pub name: Span,
    pub cases: Cases,
    pub sequences: Sequences,
    pub groups: Groups,
    pub numbers: Vec<u32>,
    pub prods: Vec<Production>,
    pub defs: Vec<Filler>,
    pub refs: Vec<Filler>,
    /// How many productions there are so far, groups written out.
    choices: u64,
}

impl Language {
    /// The numbers that stand from one place to another.
    pub fn numbers(&self, from: u32, to: u32) -> &[u32] {
        part_of(self.numbers.as_slice(), from, to)
    }

    /// The arguments of a production: nonterminals, and groups by their number after those.
    pub fn arguments(&self, one: Production) -> &[u32] {
        self.numbers(one.from, one.mid)
    }

    /// The numbers of the sequences of a production.
    pub fn sequence_numbers(&self, one: Production) -> &[u32] {
        self.numbers(one.mid, one.to)
    }

    /// The group that an argument's number is of, if it is of one.
    pub fn group(&self, argument: u32) -> Option<u32> {
        argument.checked_sub(self.cases.total)
    }

    /// An argument of the category: a nonterminal, or in version 2 a group.
    fn read_argument(&mut self, reader: &mut Reader, cat: u32) -> Result<(), ReadErr> {
        let at = reader.at();
        let argument = reader.number()?;
        let found = match self.group(argument) {
            None => self.cases.category(argument),
            Some(group) => self.groups.category(group),
        };
        if found != Some(cat) {
            return Err(bad(Rule::BadNumber, at));
        }
        if let Some(group) = self.group(argument) {
            self.groups.use_one(group);
        }
        push(&mut self.numbers, argument)
    }

    /// A sequence: itself, or its number.
    fn read_sequence(
        &mut self,
        alloc: Global,
        reader: &mut Reader,
        dims: &[u32],
    ) -> Result<(), ReadErr> {
        let number = match self.version {
            Version::One => self.sequences.read(alloc, reader, Some(dims))?,
            Version::Two => self.sequences.read_number(reader, dims)?,
        };
        push(&mut self.numbers, number)
    }

    fn read_sequences(
        &mut self,
        alloc: Global,
        reader: &mut Reader,
        dims: &[u32],
        many: u32,
    ) -> Result<(), ReadErr> {
        for _ in 0..many {
            self.read_sequence(alloc, reader, dims)?;
        }
        Ok(())
    }

    /// The arguments of a function, and their dimensions.
    fn read_arguments(
        &mut self,
        reader: &mut Reader,
        syntax: &Syntax,
        entry: Entry,
        dims: &mut Vec<u32>,
    ) -> Result<(), ReadErr> {
        for place in entry.from..entry.to.saturating_sub(1) {
            let cat = syntax.cat_of(place);
            self.read_argument(reader, cat)?;
            push(dims, self.cases.dimension(cat))?;
        }
        Ok(())
    }

    /// How many productions the arguments stand for.
    fn choices_of(&self, from: u32, to: u32) -> u64 {
        let mut many = 1u64;
        for argument in self.numbers(from, to) {
            if let Some(group) = self.group(*argument) {
                let members = self.groups.members(group).len();
                many = many.saturating_mul(u64::try_from(members).unwrap_or(u64::MAX));
            }
        }
        many
    }

    fn count_choices(&mut self, at: u32, from: u32, to: u32) -> Result<(), ReadErr> {
        self.choices = self.choices.saturating_add(self.choices_of(from, to));
        if self.version == Version::Two && self.choices > MOST_PRODUCTIONS {
            return Err(bad(Rule::BadNumber, at));
        }
        Ok(())
    }

    fn read_production(
        &mut self,
        alloc: Global,
        reader: &mut Reader,
        syntax: &Syntax,
    ) -> Result<(), ReadErr> {
        let (at, from) = (reader.at(), count(self.numbers.len()));
        let fun = reader.below(syntax.function_count())?;
        let Some(entry) = syntax.funs.get(fun as usize) else {
            return Err(bad(Rule::BadNumber, at)); // the function is below their number
        };
        let mut dims = Vec::new(alloc);
        self.read_arguments(reader, syntax, *entry, &mut dims)?;
        let mid = count(self.numbers.len());
        let cat = syntax.cat_of(entry.to.saturating_sub(1));
        let result = self.cases.read_of(reader, cat)?;
        let many = self.cases.dimension(cat);
        self.read_sequences(alloc, reader, dims.as_slice(), many)?;
        self.count_choices(at, from, mid)?;
        let to = count(self.numbers.len());
        let production = Production {
            at,
            fun,
            result,
            from,
            mid,
            to,
        };
        push(&mut self.prods, production)
    }

    fn read_productions(
        &mut self,
        alloc: Global,
        reader: &mut Reader,
        syntax: &Syntax,
    ) -> Result<(), ReadErr> {
        let many = reader.number()?;
        let mut order = Ascending::new();
        for _ in 0..many {
            let at = reader.at();
            self.read_production(alloc, reader, syntax)?;
            order.add_whole(reader, at)?;
        }
        Ok(())
    }

    /// A def has a sequence for each component of its result, over the token of a hole.
    fn read_defs(&mut self, alloc: Global, reader: &mut Reader) -> Result<(), ReadErr> {
        let many = reader.number()?;
        let mut order = Ascending::new();
        for _ in 0..many {
            let (at, from) = (reader.at(), count(self.numbers.len()));
            let (nonterminal, dim) = self.cases.read_listed(reader)?;
            self.read_sequences(alloc, reader, &[1], dim)?;
            let to = count(self.numbers.len());
            let filler = Filler {
                nonterminal,
                from,
                to,
            };
            push(&mut self.defs, filler)?;
            order.add_whole(reader, at)?;
        }
        Ok(())
    }

    /// A ref has one sequence, over the components of its nonterminal.
    fn read_refs(&mut self, alloc: Global, reader: &mut Reader) -> Result<(), ReadErr> {
        let many = reader.number()?;
        let mut order = Ascending::new();
        for _ in 0..many {
            let (at, from) = (reader.at(), count(self.numbers.len()));
            let (nonterminal, dim) = self.cases.read_listed(reader)?;
            self.read_sequence(alloc, reader, &[dim])?;
            let to = count(self.numbers.len());
            let filler = Filler {
                nonterminal,
                from,
                to,
            };
            push(&mut self.refs, filler)?;
            order.add_whole(reader, at)?;
        }
        Ok(())
    }
}

/// Reads a language, whose name was read.
pub fn read_language(
    alloc: Global,
    reader: &mut Reader,
    version: Version,
    syntax: &Syntax,
    name: Span,
) -> Result<Language, ReadErr> {
    let cases = crate::cases::read_cases(alloc, reader, version, syntax.categories)?;
    let mut sequences = Sequences::new(alloc);
    let mut groups = Groups::new(alloc);
    if version == Version::Two {
        sequences.read_all(alloc, reader)?;
        groups.read_all(reader, &cases)?;
    }
    let mut language = Language {
        version,
        name,
        cases,
        sequences,
        groups,
        numbers: Vec::new(alloc),
        prods: Vec::new(alloc),
        defs: Vec::new(alloc),
        refs: Vec::new(alloc),
        choices: 0,
    };
    language.read_productions(alloc, reader, syntax)?;
    language.read_defs(alloc, reader)?;
    language.read_refs(alloc, reader)?;
    Ok(language)
}
