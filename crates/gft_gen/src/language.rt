//! A language: its functions, then what holes give and how categories are made one string, in
//! order.
use crate::defaults::first_string;
use crate::fault::{Halt, Subject, broken};
use crate::judgements::Found;
use crate::layout::{Layout, PLAIN, Sizes};
use crate::limits::CASES;
use crate::rows::{Row, number};
use crate::signature::Signature;
use crate::source::Source;
use crate::splitting::split;
use crate::tables::Tables;
use gft_core::{NoMemory, Place};
use gft_eval::{Machine, Symbol};
use gft_pmcfg::{AType, Fun};
use gft_rules::Rule;
use gft_syntax::CType;
use std::alloc::Global;

/// A def: its row, and the number of its sequences.
#[derive(Clone, Copy)]
pub struct DefRow {
    pub row: Row,
    pub dim: u32,
}

/// A ref: the nonterminal, and the place of its sequence.
#[derive(Clone, Copy)]
pub struct RefRow {
    pub arg: u32,
    pub sequence: u32,
}

/// What a language has: the rows of all functions, where those of each end, the defs and the refs.
#[derive(Drop)]
pub struct Language {
    pub tables: Tables,
    pub rows: Vec<Row>,
    pub ends: Vec<u32>,
    pub defs: Vec<DefRow>,
    pub refs: Vec<RefRow>,
}

/// A judgement that is compiled: where it stands, and of what it is.
#[derive(Clone, Copy)]
struct Compiled {
    place: Option<Place>,
    subject: Subject,
}

/// The arguments of a function do not have too many cases.
fn check_cases(
    alloc: Global,
    source: &Source<'_>,
    args: &[AType],
    one: Compiled,
) -> Result<(), Halt> {
    let signature = Signature::of(alloc, source.layouts, args)?;
    if signature.cases() > CASES {
        return broken(Rule::TooManyCases, one.place, one.subject);
    }
    Ok(())
}

/// The machine takes up the term of a judgement.
fn take_up<'a>(
    machine: &mut Machine<'a>,
    source: &Source<'a>,
    found: Found,
) -> Result<(), NoMemory> {
    match source.term(found) {
        None => Ok(()), // excluded: a typed judgement has its normal form
        Some(term) => machine.begin(term),
    }
}

/// The machine takes up the term of a function, with its arguments.
fn take_up_function<'a>(
    machine: &mut Machine<'a>,
    source: &Source<'a>,
    found: Found,
    args: &[AType],
) -> Result<(), NoMemory> {
    take_up(machine, source, found)?;
    for arg in args {
        machine.add_argument(source.type_of(arg.cat))?;
    }
    Ok(())
}

impl Language {
    /// Nothing yet, with the cells of all categories.
    pub fn new(alloc: Global, sizes: Sizes) -> Language {
        Language {
            tables: Tables::new(alloc, sizes),
            rows: Vec::new(alloc),
            ends: Vec::new(alloc),
            defs: Vec::new(alloc),
            refs: Vec::new(alloc),
        }
    }

    /// The parts of what the machine has taken up. None of its cases is stuck, and there are few
    /// enough results.
    fn explore<'a>(
        &mut self,
        alloc: Global,
        machine: &mut Machine<'a>,
        of: &'a CType,
        layout: Layout,
        one: Compiled,
    ) -> Result<(), Halt> {
        if let Some(stuck) = split(alloc, machine, of, layout, &mut self.tables)? {
            return broken(stuck.rule, Some(stuck.place), one.subject);
        }
        if self.tables.parts.count() > CASES {
            return broken(Rule::TooManyProductions, one.place, one.subject);
        }
        Ok(())
    }

    /// Adds the productions of a function.
    fn add_function<'a>(
        &mut self,
        alloc: Global,
        machine: &mut Machine<'a>,
        source: &Source<'a>,
        number: u32,
        fun: &Fun,
    ) -> Result<(), Halt> {
        let Some(found) = source.judgements.lin(number) else {
            return Ok(()); // excluded: each function has a linearization
        };
        let one = Compiled {
            place: source.place(found),
            subject: Subject::Function(number),
        };
        check_cases(alloc, source, fun.args.as_slice(), one)?;
        take_up_function(machine, source, found, fun.args.as_slice())?;
        let result = fun.result.cat;
        self.explore(
            alloc,
            machine,
            source.type_of(result),
            source.layout(result),
            one,
        )?;
        self.tables.parts.add_rows(alloc, &mut self.rows)?;
        Ok(())
    }

    fn add_functions<'a>(
        &mut self,
        alloc: Global,
        machine: &mut Machine<'a>,
        source: &Source<'a>,
    ) -> Result<(), Halt> {
        for (place, fun) in source.abs.funs.as_slice().iter().enumerate() {
            self.add_function(alloc, machine, source, number(place)?, fun)?;
            self.ends.push(number(self.rows.len())?)?;
        }
        Ok(())
    }

    /// What a hole gives where nothing is written: its token at each string cell of the first case.
    fn add_default_def(&mut self, layout: Layout) -> Result<(), NoMemory> {
        let token = Some(Symbol::Part(0, 0));
        let sequences = self.tables.add_sequences(token, layout.dim)?;
        let outcome = self.tables.add_plain(layout.first, sequences)?;
        self.add_def_row(
            Row {
                case: 0,
                result: layout.first,
                outcome,
            },
            layout,
        )
    }

    fn add_def_row(&mut self, row: Row, layout: Layout) -> Result<(), NoMemory> {
        self.defs.push(DefRow {
            row,
            dim: layout.dim,
        })?;
        Ok(())
    }

    /// Adds what a hole of a category gives.
    fn add_def<'a>(
        &mut self,
        alloc: Global,
        machine: &mut Machine<'a>,
        source: &Source<'a>,
        category: u32,
    ) -> Result<(), Halt> {
        let layout = source.layout(category);
        let Some(found) = source.judgements.lindef(category) else {
            self.add_default_def(layout)?;
            return Ok(());
        };
        let one = Compiled {
            place: source.place(found),
            subject: Subject::Category(category),
        };
        take_up(machine, source, found)?;
        machine.add_argument(source.token)?;
        self.explore(alloc, machine, source.type_of(category), layout, one)?;
        self.add_def_rows(alloc, layout)?;
        Ok(())
    }

    fn add_def_rows(&mut self, alloc: Global, layout: Layout) -> Result<(), NoMemory> {
        let mut rows = Vec::new(alloc);
        self.tables.parts.add_rows(alloc, &mut rows)?;
        for row in rows.iter() {
            self.add_def_row(*row, layout)?;
        }
        Ok(())
    }

    /// How a category is made one string where nothing is written: by its first string cell.
    fn add_default_ref(&mut self, of: &CType, layout: Layout) -> Result<(), NoMemory> {
        let symbol = match first_string(of) {
            None => None,
            Some(cell) => Some(Symbol::Part(0, cell)),
        };
        let sequence = self.tables.add_sequences(symbol, 1)?;
        for case in 0..layout.count {
            let arg = layout.first.saturating_add(case);
            self.refs.push(RefRow { arg, sequence })?;
        }
        Ok(())
    }

    /// Adds how a category is made one string.
    fn add_ref<'a>(
        &mut self,
        alloc: Global,
        machine: &mut Machine<'a>,
        source: &Source<'a>,
        category: u32,
    ) -> Result<(), Halt> {
        let layout = source.layout(category);
        let of = source.type_of(category);
        let Some(found) = source.judgements.linref(category) else {
            self.add_default_ref(of, layout)?;
            return Ok(());
        };
        let one = Compiled {
            place: source.place(found),
            subject: Subject::Category(category),
        };
        take_up(machine, source, found)?;
        machine.add_argument(of)?;
        self.explore(alloc, machine, source.token, PLAIN, one)?;
        self.add_ref_rows(alloc, layout)?;
        Ok(())
    }

    fn add_ref_rows(&mut self, alloc: Global, layout: Layout) -> Result<(), NoMemory> {
        let mut rows = Vec::new(alloc);
        self.tables.parts.add_rows(alloc, &mut rows)?;
        for row in rows.iter() {
            let arg = layout.first.saturating_add(row.case);
            let sequence = self.tables.parts.sequences(row.outcome);
            self.refs.push(RefRow { arg, sequence })?;
        }
        Ok(())
    }

    /// Adds all that the language has, in the order of an import.
    pub fn fill<'a>(
        &mut self,
        alloc: Global,
        machine: &mut Machine<'a>,
        source: &Source<'a>,
    ) -> Result<(), Halt> {
        self.add_functions(alloc, machine, source)?;
        for place in 2..source.abs.cats.len() {
            let category = number(place)?;
            self.add_def(alloc, machine, source, category)?;
            self.add_ref(alloc, machine, source, category)?;
        }
        self.tables.words.follow(machine)?;
        Ok(())
    }
}
