//! A concrete syntax as flat tables, in which a chart finds what a nonterminal begins with.
use crate::count::{NONE, count, place, read};
use crate::productive::{nonterminals_of, runs_of};
use gft_core::{NoMemory, Shared, Sym, Token};
use gft_pmcfg::{Abstract, Concrete, Info, Prod};
use indexmap::IndexSet;
use sqlite_items::Items;
use std::alloc::Global;

/// What stands at a place of a sequence.
#[derive(Clone, Copy)]
pub enum Symbol {
    /// A word of the grammar, by its number.
    Word(u32),
    /// An argument and its component.
    Part(u32, u32),
    AnyInt,
    AnyString,
    /// The end of a sequence of the rule.
    End(u32),
}

/// What a rule stands for.
#[derive(Clone, Copy)]
pub enum Origin {
    Production(u32),
    /// A result of `linref`: a production of the root of its category.
    Ref,
    Int,
    Str,
}

/// A production, a ref or a literal.
#[derive(Clone, Copy)]
pub struct Rule {
    pub origin: Origin,
    pub arity: u32,
    /// Where its argument nonterminals begin, in `Tables::arguments`.
    pub arguments: u32,
    /// Where its sequences begin, in `Tables::starts`.
    pub components: u32,
}

/// A sequence that a slot may begin with, at its first place or, if a word stands there, at the
/// next one.
#[derive(Clone, Copy, PartialEq, Eq, PartialOrd, Ord)]
pub struct Opening {
    pub slot: u32,
    /// The first word, or `NONE`.
    pub word: u32,
    pub dot: u32,
    pub arguments: u32,
}

/// What parsing needs of a concrete syntax, made once. A root is a nonterminal for each category
/// after those of the grammar, and its productions are the refs. Only productions whose arguments
/// all have runs without holes are kept. A slot is a component of a nonterminal that has such runs,
/// or of a root.
#[derive(Drop)]
pub struct Tables {
    pub(crate) words: IndexSet<String>,
    pub(crate) symbols: Vec<Symbol>,
    /// For each symbol the arity of its rule.
    pub(crate) arities: Vec<u32>,
    pub(crate) rules: Vec<Rule>,
    pub(crate) arguments: Vec<u32>,
    /// For each sequence of each rule its first symbol.
    pub(crate) starts: Vec<u32>,
    /// For each nonterminal and root its first slot, or `NONE`.
    pub(crate) slots: Vec<u32>,
    pub(crate) slot_count: u32,
    /// Openings without a first word, and those with one, by slot, and where each slot begins in
    /// them.
    pub(crate) predicted: Vec<Opening>,
    pub(crate) predicted_from: Vec<u32>,
    pub(crate) starting: Vec<Opening>,
    pub(crate) starting_from: Vec<u32>,
    pub(crate) nonterminals: u32,
    /// The number of nonterminals and roots.
    pub(crate) categories: u32,
}

impl Tables {
    /// The tables of a concrete syntax. The time is linear in its size, but for one sort.
    pub fn new(alloc: Global, c: &Concrete, _abs: &Abstract) -> Result<Tables, NoMemory> {
        let infos = c.infos.as_slice();
        let nonterminals = nonterminals_of(infos);
        let has_run = runs_of(alloc, c, nonterminals)?;
        let mut tables = Tables::empty(alloc, nonterminals);
        tables.number_slots(infos, &has_run)?;
        tables.add_literals()?;
        tables.add_productions(c)?;
        tables.add_refs(infos, c)?;
        tables.sort_openings()?;
        Ok(tables)
    }

    fn empty(alloc: Global, nonterminals: u32) -> Tables {
        Tables {
            words: IndexSet::new(alloc),
            symbols: Vec::new(alloc),
            arities: Vec::new(alloc),
            rules: Vec::new(alloc),
            arguments: Vec::new(alloc),
            starts: Vec::new(alloc),
            slots: Vec::new(alloc),
            slot_count: 0,
            predicted: Vec::new(alloc),
            predicted_from: Vec::new(alloc),
            starting: Vec::new(alloc),
            starting_from: Vec::new(alloc),
            nonterminals,
            categories: nonterminals,
        }
    }

    /// Whether the nonterminal has a run without holes. It takes no memory.
    pub fn has_run(&self, nonterminal: u32) -> bool {
        nonterminal < self.nonterminals && read(&self.slots, nonterminal as usize) != NONE
    }

    fn give_slots(&mut self, nonterminal: u32, width: u32) -> Result<(), NoMemory> {
        let first = self.slot_count;
        self.slot_count = count(place(first, width))?;
        if let Some(slot) = self.slots.get_mut(nonterminal as usize) {
            *slot = first;
        }
        Ok(())
    }

    fn number_category(&mut self, info: &Info, has_run: &Vec<bool>) -> Result<(), NoMemory> {
        for case in 0..info.count {
            let nonterminal = info.first.saturating_add(case);
            if let Some(true) = has_run.get(nonterminal as usize) {
                self.give_slots(nonterminal, info.dim)?;
            }
        }
        Ok(())
    }

    fn number_slots(&mut self, infos: &[Info], has_run: &Vec<bool>) -> Result<(), NoMemory> {
        let categories = count(place(self.nonterminals, count(infos.len())?))?;
        self.categories = categories;
        self.slots.resize(categories as usize, NONE)?;
        for info in infos {
            self.number_category(info, has_run)?;
        }
        for root in self.nonterminals..categories {
            self.give_slots(root, 1)?;
        }
        Ok(())
    }

    fn word_number(&mut self, word: &Token) -> Result<u32, NoMemory> {
        let text = word.as_str();
        match self.words.get_index_of(text) {
            Some(number) => count(number),
            None => {
                let number = count(self.words.len())?;
                let alloc = *self.words.allocator();
                self.words.insert(String::from_str(alloc, text)?)?;
                Ok(number)
            }
        }
    }

    fn symbol_of(&mut self, sym: &Sym) -> Result<Symbol, NoMemory> {
        match sym {
            Sym::Tok(word) => Ok(Symbol::Word(self.word_number(word)?)),
            Sym::Arg(argument, component) => Ok(Symbol::Part(*argument, *component)),
        }
    }

    fn add_rule(&mut self, origin: Origin, arguments: &[u32]) -> Result<u32, NoMemory> {
        let number = count(self.rules.len())?;
        self.rules.push(Rule {
            origin,
            arity: count(arguments.len())?,
            arguments: count(self.arguments.len())?,
            components: count(self.starts.len())?,
        })?;
        self.arguments.extend_from_slice(arguments)?;
        Ok(number)
    }

    /// Ends the sequence of a slot that began at the symbol.
    fn end_sequence(&mut self, number: u32, slot: u32, start: u32) -> Result<(), NoMemory> {
        let Some(&rule) = self.rules.get(number as usize) else {
            return Ok(());
        };
        self.symbols.push(Symbol::End(number))?;
        self.arities.resize(self.symbols.len(), rule.arity)?;
        self.starts.push(start)?;
        if slot >= self.slot_count {
            // excluded by the grammar: its numbers are in range
            return Ok(());
        }
        let arguments = rule.arguments;
        match self.symbols.get(start as usize) {
            Some(&Symbol::Word(word)) => self.starting.push(Opening {
                slot,
                word,
                dot: start.saturating_add(1),
                arguments,
            })?,
            _ => self.predicted.push(Opening {
                slot,
                word: NONE,
                dot: start,
                arguments,
            })?,
        }
        Ok(())
    }

    fn add_sequence(&mut self, number: u32, slot: u32, sequence: &[Sym]) -> Result<(), NoMemory> {
        let start = count(self.symbols.len())?;
        for sym in sequence {
            let symbol = self.symbol_of(sym)?;
            self.symbols.push(symbol)?;
        }
        self.end_sequence(number, slot, start)
    }

    fn add_literal(&mut self, origin: Origin, symbol: Symbol, slot: u32) -> Result<(), NoMemory> {
        let number = self.add_rule(origin, &[])?;
        let start = count(self.symbols.len())?;
        self.symbols.push(symbol)?;
        self.end_sequence(number, slot, start)
    }

    fn add_literals(&mut self) -> Result<(), NoMemory> {
        let int = read(&self.slots, 0);
        let string = read(&self.slots, 1);
        self.add_literal(Origin::Int, Symbol::AnyInt, int)?;
        self.add_literal(Origin::Str, Symbol::AnyString, string)
    }

    fn add_sequences(
        &mut self,
        number: u32,
        slot: u32,
        sequences: &[Shared<Items<Sym>>],
    ) -> Result<(), NoMemory> {
        let mut slot = slot;
        for sequence in sequences {
            self.add_sequence(number, slot, sequence.get().as_slice())?;
            slot = slot.saturating_add(1);
        }
        Ok(())
    }

    fn add_production(&mut self, number: u32, production: &Prod) -> Result<(), NoMemory> {
        let slot = read(&self.slots, production.result as usize);
        if slot == NONE || !self.all_have_runs(production.args.as_slice()) {
            return Ok(());
        }
        let rule = self.add_rule(Origin::Production(number), production.args.as_slice())?;
        self.add_sequences(rule, slot, production.seqs.as_slice())
    }

    fn all_have_runs(&self, arguments: &[u32]) -> bool {
        arguments.iter().all(|argument| self.has_run(*argument))
    }

    fn add_productions(&mut self, c: &Concrete) -> Result<(), NoMemory> {
        let mut number = 0u32;
        for production in c.prods.as_slice() {
            self.add_production(number, production)?;
            number = count(place(number, 1))?;
        }
        Ok(())
    }

    fn add_ref(&mut self, category: u32, argument: u32, sequence: &[Sym]) -> Result<(), NoMemory> {
        if !self.has_run(argument) {
            return Ok(());
        }
        let root = place(self.nonterminals, category);
        let slot = read(&self.slots, root);
        let rule = self.add_rule(Origin::Ref, &[argument])?;
        self.add_sequence(rule, slot, sequence)
    }

    fn add_refs(&mut self, infos: &[Info], c: &Concrete) -> Result<(), NoMemory> {
        self.add_ref(0, 0, &[Sym::Arg(0, 0)])?;
        self.add_ref(1, 1, &[Sym::Arg(0, 0)])?;
        for one in c.refs.as_slice() {
            let category = category_of(infos, one.arg);
            self.add_ref(category, one.arg, one.seq.get().as_slice())?;
        }
        Ok(())
    }

    fn sort_openings(&mut self) -> Result<(), NoMemory> {
        self.predicted.sort_unstable();
        self.starting.sort_unstable();
        let slots = self.slot_count;
        mark_slots(&self.predicted, slots, &mut self.predicted_from)?;
        mark_slots(&self.starting, slots, &mut self.starting_from)
    }
}

/// The category that a nonterminal belongs to.
fn category_of(infos: &[Info], nonterminal: u32) -> u32 {
    let after = infos.partition_point(|info| info.first <= nonterminal);
    match u32::try_from(after.saturating_sub(1)) {
        Ok(category) => category,
        Err(_) => NONE,
    }
}

/// Where each slot begins in sorted openings; one more place for their end.
fn mark_slots(openings: &Vec<Opening>, slots: u32, from: &mut Vec<u32>) -> Result<(), NoMemory> {
    let mut at = 0u32;
    for opening in openings.iter() {
        if from.len() <= opening.slot as usize {
            from.resize(place(opening.slot, 1), at)?;
        }
        at = count(place(at, 1))?;
    }
    from.resize(place(slots, 1), at)?;
    Ok(())
}
