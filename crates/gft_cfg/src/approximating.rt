//! The rules of a language for a category.
use crate::lines::Meaning;
use crate::rule::{CfName, CfRule, CfSym, Cfg};
use gft_core::{NoMemory, Sym};
use gft_pmcfg::{Concrete, Grammar, Info, Prod, Ref};
use gft_reduce::closed;
use std::alloc::Global;

/// A rule with its line. The order is that of the bytes of lines.
#[derive(PartialEq, Eq, PartialOrd, Ord, Drop)]
struct Lined {
    line: Vec<u8>,
    number: usize,
}

/// The rules that were met, and their lines.
#[derive(Drop)]
struct Met {
    rules: Vec<CfRule>,
    lines: Vec<Lined>,
}

/// A component of an argument: that of its nonterminal, or any literal.
fn part(args: &[u32], argument: u32, component: u32) -> CfSym {
    match args.get(argument as usize) {
        None => CfSym::AnyInt, // excluded by the ranges of a grammar
        Some(0) => CfSym::AnyInt,
        Some(1) => CfSym::AnyString,
        Some(nonterminal) => CfSym::Part(*nonterminal, component),
    }
}

fn symbol(alloc: Global, args: &[u32], symbol: &Sym) -> Result<CfSym, NoMemory> {
    match symbol {
        Sym::Tok(token) => Ok(CfSym::Word(token.copy(alloc)?)),
        Sym::Arg(argument, component) => Ok(part(args, *argument, *component)),
    }
}

fn right_side(alloc: Global, args: &[u32], seq: &[Sym]) -> Result<Vec<CfSym>, NoMemory> {
    let mut right = Vec::new(alloc);
    for one in seq {
        right.push(symbol(alloc, args, one)?)?;
    }
    Ok(right)
}

impl Met {
    fn add(&mut self, alloc: Global, meaning: &Meaning, rule: CfRule) -> Result<(), NoMemory> {
        let mut text = String::new(alloc);
        meaning.push_rule(&mut text, &rule)?;
        let mut line = Vec::new(alloc);
        line.extend_from_slice(text.as_str().as_bytes())?;
        let number = self.rules.len();
        self.lines.push(Lined { line, number })?;
        self.rules.push(rule)?;
        Ok(())
    }

    /// The rules of a production, one for each component of its result.
    fn add_production(
        &mut self,
        alloc: Global,
        meaning: &Meaning,
        prod: &Prod,
    ) -> Result<(), NoMemory> {
        let mut component = 0u32;
        for seq in prod.seqs.as_slice() {
            let right = right_side(alloc, prod.args.as_slice(), seq.get().as_slice())?;
            let left = CfName::Part(prod.result, component);
            self.add(alloc, meaning, CfRule { left, right })?;
            component = component.saturating_add(1);
        }
        Ok(())
    }

    /// The rule of the start symbol for a ref.
    fn add_ref(&mut self, alloc: Global, meaning: &Meaning, one: &Ref) -> Result<(), NoMemory> {
        let right = right_side(alloc, &[one.arg], one.seq.get().as_slice())?;
        let left = CfName::Start;
        self.add(alloc, meaning, CfRule { left, right })
    }

    /// The rule of the start symbol for a category of literals, which is its own string.
    fn add_literal(&mut self, alloc: Global, meaning: &Meaning, cat: u32) -> Result<(), NoMemory> {
        let mut right = Vec::new(alloc);
        right.push(part(&[cat], 0, 0))?;
        let left = CfName::Start;
        self.add(alloc, meaning, CfRule { left, right })
    }

    /// The rules in the order of their lines, each line once.
    fn in_order(self, alloc: Global) -> Result<Vec<CfRule>, NoMemory> {
        let Met { rules, lines } = self;
        let mut lines = lines;
        lines.sort()?;
        let mut slots = Vec::new(alloc);
        for rule in rules {
            slots.push(Some(rule))?;
        }
        let mut ordered = Vec::new(alloc);
        for place in 0..lines.len() {
            if is_repeated(lines.as_slice(), place) {
                continue;
            }
            if let Some(rule) = taken(&mut slots, lines[place].number) {
                ordered.push(rule)?;
            }
        }
        Ok(ordered)
    }
}

/// Takes the rule out of its slot.
fn taken(slots: &mut Vec<Option<CfRule>>, number: usize) -> Option<CfRule> {
    match slots.get_mut(number) {
        None => None, // each line has the number of a rule
        Some(slot) => slot.take(),
    }
}

/// Whether the line at a place is that before it.
fn is_repeated(lines: &[Lined], place: usize) -> bool {
    match place.checked_sub(1) {
        None => false,
        Some(before) => match (lines.get(before), lines.get(place)) {
            (Some(one), Some(other)) => one.line == other.line,
            (_, _) => false,
        },
    }
}

/// For each nonterminal of the category whether it has a run without holes.
fn reached(
    alloc: Global,
    c: &Concrete,
    is_closed: &[bool],
    info: Info,
) -> Result<Vec<bool>, NoMemory> {
    let mut reached = Vec::new(alloc);
    for _ in 0..info.count {
        reached.push(false)?;
    }
    for place in 0..c.prods.len() {
        if !is_set(is_closed, place) {
            continue;
        }
        if let Some(prod) = c.prods.get(place) {
            let case = prod.result.checked_sub(info.first);
            if let Some(one) = case.and_then(|case| reached.get_mut(case as usize)) {
                *one = true;
            }
        }
    }
    Ok(reached)
}

fn is_set(flags: &[bool], place: usize) -> bool {
    match flags.get(place) {
        None => false,
        Some(flag) => *flag,
    }
}

/// The rules of the start symbol.
fn add_start(
    alloc: Global,
    met: &mut Met,
    meaning: &Meaning,
    c: &Concrete,
    is_closed: &[bool],
    cat: u32,
) -> Result<(), NoMemory> {
    if cat < 2 {
        return met.add_literal(alloc, meaning, cat);
    }
    let Some(info) = c.infos.get(cat as usize) else {
        return Ok(()); // the category is in range
    };
    let reached = reached(alloc, c, is_closed, *info)?;
    for one in c.refs.as_slice() {
        if let Some(case) = one.arg.checked_sub(info.first) {
            if is_set(reached.as_slice(), case as usize) {
                met.add_ref(alloc, meaning, one)?;
            }
        }
    }
    Ok(())
}

/// The rules of a concrete syntax.
fn rules_of(alloc: Global, meaning: &Meaning, c: &Concrete, cat: u32) -> Result<Met, NoMemory> {
    let is_closed = closed(alloc, c)?;
    let mut met = Met {
        rules: Vec::new(alloc),
        lines: Vec::new(alloc),
    };
    for place in 0..c.prods.len() {
        if is_set(is_closed.as_slice(), place) {
            if let Some(prod) = c.prods.get(place) {
                met.add_production(alloc, meaning, prod)?;
            }
        }
    }
    add_start(alloc, &mut met, meaning, c, is_closed.as_slice(), cat)?;
    Ok(met)
}

/// The context-free approximation of a language for a category: a rule for each component of each
/// production that a tree without holes uses, and one for each way to make a string of the
/// category. Each rule stands once, in byte order of the lines. Every sentence is derived by the
/// rules; where no category has more than one string cell, and no sequence has a cell twice, they
/// derive nothing else.
pub fn approximate(alloc: Global, g: &Grammar, lang: u32, cat: u32) -> Result<Cfg, NoMemory> {
    let Some(c) = g.concretes.get(lang as usize) else {
        let rules = Vec::new(alloc);
        return Ok(Cfg { rules }); // the language is in range
    };
    let meaning = Meaning::new(&g.abs, c.infos.as_slice(), cat);
    let met = rules_of(alloc, &meaning, c, cat)?;
    let rules = met.in_order(alloc)?;
    Ok(Cfg { rules })
}
