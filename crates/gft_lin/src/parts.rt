//! A tree each of whose parts has one production: its parts in flat tables, and its texts.
use crate::index::{Index, only};
use crate::value::append;
use gft_core::{NoMemory, Shared, Sym};
use gft_pmcfg::{CProd, Coerced, Ref};
use sqlite_items::Items;
use std::alloc::Global;

/// A part of a tree: the place of its production, and where its arguments and the lengths of its
/// components begin.
#[derive(Clone, Copy)]
struct Part {
    production: usize,
    arguments: usize,
    lengths: usize,
}

/// The parts of a tree, each after its arguments.
#[derive(Drop)]
pub struct Parts {
    parts: Vec<Part>,
    /// The numbers of the parts that are arguments.
    arguments: Vec<usize>,
    /// The bytes of components with a space behind each word, so 0 where a component has no words.
    lengths: Vec<usize>,
    /// The parts that are no arguments yet, and their nonterminals.
    open: Vec<usize>,
    results: Vec<u32>,
}

/// What is still to be said: symbols, and where the arguments begin that they speak of.
#[derive(Clone, Copy)]
struct Rest<'a> {
    symbols: &'a [Sym],
    arguments: usize,
}

fn symbols_of(prod: &CProd, component: u32) -> &[Sym] {
    match prod.seqs.get(component as usize) {
        Some(seq) => seq.get().as_slice(),
        None => &[], // excluded by the ranges of a grammar
    }
}

impl Parts {
    /// No parts, with room for so many.
    fn new(alloc: Global, count: usize) -> Result<Parts, NoMemory> {
        Ok(Parts {
            parts: Vec::with_capacity(alloc, count)?,
            arguments: Vec::with_capacity(alloc, count)?,
            lengths: Vec::with_capacity(alloc, count)?,
            open: Vec::new(alloc),
            results: Vec::new(alloc),
        })
    }

    /// The part that is an argument, if there is one.
    fn argument(&self, arguments: usize, argument: u32) -> Option<Part> {
        let number = self
            .arguments
            .get(arguments.saturating_add(argument as usize))?;
        self.parts.get(*number).copied()
    }

    fn length_of_symbol(&self, symbol: &Sym, arguments: usize) -> usize {
        match symbol {
            Sym::Tok(token) => token.as_str().len().saturating_add(1),
            Sym::Arg(argument, component) => match self.argument(arguments, *argument) {
                Some(part) => self.length_of_component(part, *component),
                None => 0, // excluded by the ranges of a grammar
            },
        }
    }

    fn length_of_component(&self, part: Part, component: u32) -> usize {
        match self
            .lengths
            .get(part.lengths.saturating_add(component as usize))
        {
            Some(length) => *length,
            None => 0, // excluded by the ranges of a grammar
        }
    }

    fn length_of(&self, symbols: &[Sym], arguments: usize) -> usize {
        let mut length = 0usize;
        'symbols: for symbol in symbols {
            length = length.saturating_add(self.length_of_symbol(symbol, arguments));
        }
        length
    }

    fn add_lengths(
        &mut self,
        seqs: &[Shared<Items<Sym>>],
        arguments: usize,
    ) -> Result<(), NoMemory> {
        'components: for seq in seqs {
            let length = self.length_of(seq.get().as_slice(), arguments);
            self.lengths.push(length)?;
        }
        Ok(())
    }

    /// Makes arguments of the open parts from one on.
    fn close(&mut self, from: usize) -> Result<(), NoMemory> {
        for at in from..self.open.len() {
            if let Some(number) = self.open.get(at) {
                self.arguments.push(*number)?;
            }
        }
        self.open.truncate(from);
        self.results.truncate(from);
        Ok(())
    }

    /// Adds a part whose arguments are the open parts from one on.
    fn put(&mut self, production: usize, prod: &CProd, from: usize) -> Result<(), NoMemory> {
        let part = Part {
            production,
            arguments: self.arguments.len(),
            lengths: self.lengths.len(),
        };
        self.close(from)?;
        self.open.push(self.parts.len())?;
        self.results.push(prod.result)?;
        self.add_lengths(prod.seqs.as_slice(), part.arguments)?;
        self.parts.push(part)?;
        Ok(())
    }

    /// Adds a part with this function. False where it has no production or several.
    fn add(
        &mut self,
        alloc: Global,
        c: &Coerced,
        index: &Index,
        fun: u32,
    ) -> Result<bool, NoMemory> {
        let shared = c.prods.as_slice();
        let range = index.range(fun);
        let Some(first) = shared.get(range.from) else {
            return Ok(false);
        };
        let from = self.results.len().saturating_sub(first.args.len());
        let args = self.results.as_slice().get(from..).unwrap_or(&[]);
        let Some(at) = only(alloc, shared, c.groups.as_slice(), range, args)? else {
            return Ok(false);
        };
        match shared.get(at) {
            Some(prod) => self.put(at, prod, from)?,
            None => return Ok(false), // a place is in range
        }
        Ok(true)
    }

    /// What an argument is to say, where it says anything.
    fn begin<'a>(
        &self,
        shared: &'a [CProd],
        pending: &mut Vec<Rest<'a>>,
        arguments: usize,
        argument: u32,
        component: u32,
    ) -> Result<(), NoMemory> {
        let Some(part) = self.argument(arguments, argument) else {
            return Ok(()); // excluded by the ranges of a grammar
        };
        if self.length_of_component(part, component) == 0 {
            return Ok(());
        }
        if let Some(prod) = shared.get(part.production) {
            pending.push(Rest {
                symbols: symbols_of(prod, component),
                arguments: part.arguments,
            })?;
        }
        Ok(())
    }

    /// Says the first of some symbols, and leaves what comes after it.
    fn step<'a>(
        &self,
        shared: &'a [CProd],
        pending: &mut Vec<Rest<'a>>,
        rest: Rest<'a>,
        text: &mut String,
    ) -> Result<(), NoMemory> {
        let Some((symbol, others)) = rest.symbols.split_first() else {
            return Ok(());
        };
        if !others.is_empty() {
            pending.push(Rest {
                symbols: others,
                arguments: rest.arguments,
            })?;
        }
        match symbol {
            Sym::Tok(token) => append(text, token.as_str()),
            Sym::Arg(argument, component) => {
                self.begin(shared, pending, rest.arguments, *argument, *component)
            }
        }
    }

    /// The text of symbols. What has no words is left aside, so each step leads to some word, and
    /// the steps are as many as the words times the depth.
    fn text<'a>(
        &self,
        alloc: Global,
        shared: &'a [CProd],
        symbols: &'a [Sym],
        arguments: usize,
    ) -> Result<String, NoMemory> {
        let mut text = String::with_capacity(alloc, self.length_of(symbols, arguments))?;
        let mut pending = Vec::new(alloc);
        pending.push(Rest { symbols, arguments })?;
        'symbols: for _ in 0..u64::MAX {
            let Some(rest) = pending.pop() else {
                break;
            };
            self.step(shared, &mut pending, rest, &mut text)?;
        }
        Ok(text)
    }

    /// The texts of the whole, one for each of these refs.
    fn texts(
        &self,
        alloc: Global,
        shared: &[CProd],
        refs: &[Ref],
        arguments: usize,
    ) -> Result<Vec<String>, NoMemory> {
        let mut all = Vec::new(alloc);
        'refs: for one in refs {
            all.push(self.text(alloc, shared, one.seq.get().as_slice(), arguments)?)?;
        }
        Ok(all)
    }

    /// The nonterminal of the whole, where it is no literal.
    fn whole(&self) -> Option<u32> {
        match self.results.as_slice() {
            [whole] if *whole >= 2 => Some(*whole),
            _ => None,
        }
    }
}

/// The refs of a nonterminal.
fn refs_of(refs: &[Ref], nonterminal: u32) -> &[Ref] {
    let from = refs.partition_point(|one| one.arg < nonterminal);
    let to = refs.partition_point(|one| one.arg <= nonterminal);
    refs.get(from..to).unwrap_or(&[])
}

/// The parts of the tree with these functions. None where some part has no production or several.
fn parts_of(
    alloc: Global,
    c: &Coerced,
    index: &Index,
    functions: &[u32],
) -> Result<Option<Parts>, NoMemory> {
    let mut parts = Parts::new(alloc, functions.len())?;
    'functions: for fun in functions {
        if !parts.add(alloc, c, index, *fun)? {
            return Ok(None);
        }
    }
    Ok(Some(parts))
}

/// The texts of the strings of the tree with these functions, each after those of its arguments.
/// None where some part has no production or several.
pub fn strings_of_parts(
    alloc: Global,
    c: &Coerced,
    index: &Index,
    functions: &[u32],
) -> Result<Option<Vec<String>>, NoMemory> {
    let Some(mut parts) = parts_of(alloc, c, index, functions)? else {
        return Ok(None);
    };
    let Some(whole) = parts.whole() else {
        return Ok(None);
    };
    let arguments = parts.arguments.len();
    parts.close(0)?;
    let refs = refs_of(c.refs.as_slice(), whole);
    Ok(Some(parts.texts(alloc, c.prods.as_slice(), refs, arguments)?))
}
