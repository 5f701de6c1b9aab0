//! Runs that two roots hold, listed once.
use crate::least::{count, read};
use crate::packed::{PackedRun, PackedRuns};
use gft_core::{NoMemory, Token};
use gft_pmcfg::{Alt, Forest};
use indexmap::IndexMap;
use std::alloc::Global;

/// The nonterminals of the roots, in order.
fn root_nonterminals(alloc: Global, f: &Forest) -> Result<Vec<u32>, NoMemory> {
    let mut all = Vec::new(alloc);
    for root in f.roots.as_slice() {
        if let Some(node) = f.nodes.get(*root as usize) {
            all.push(node.nonterminal)?;
        }
    }
    all.sort_unstable();
    Ok(all)
}

/// Whether two roots have one nonterminal. Only then can both hold one run.
fn may_repeat(alloc: Global, f: &Forest) -> Result<bool, NoMemory> {
    let mut all = root_nonterminals(alloc, f)?;
    let before = all.len();
    all.dedup();
    Ok(all.len() < before)
}

/// Numbers of runs that are equal where the runs are.
#[derive(Drop)]
struct Values {
    numbers: IndexMap<Vec<u32>, u32>,
    /// For each run its number.
    of: Vec<u32>,
}

fn push_integer(key: &mut Vec<u32>, value: u128) -> Result<(), NoMemory> {
    for byte in value.to_be_bytes().iter() {
        key.push(u32::from(*byte))?;
    }
    Ok(())
}

fn push_word(key: &mut Vec<u32>, word: &Token) -> Result<(), NoMemory> {
    for byte in word.as_str().as_bytes() {
        key.push(u32::from(*byte))?;
    }
    Ok(())
}

fn push_literal(key: &mut Vec<u32>, f: &Forest, node: u32, at: u32) -> Result<(), NoMemory> {
    let Some(node) = f.nodes.get(node as usize) else {
        return Ok(());
    };
    match node.alts.get(at as usize) {
        Some(Alt::Int(value)) => {
            key.push(1)?;
            push_integer(key, *value)
        }
        Some(Alt::Str(word)) => {
            key.push(2)?;
            push_word(key, word)
        }
        _ => Ok(()),
    }
}

impl Values {
    fn push_children(
        &self,
        key: &mut Vec<u32>,
        packed: &PackedRuns,
        arity: u32,
        first: u32,
    ) -> Result<(), NoMemory> {
        for i in 0..arity {
            let child = read(&packed.children, first.saturating_add(i));
            key.push(read(&self.of, child))?;
        }
        Ok(())
    }

    fn push_run(
        &self,
        key: &mut Vec<u32>,
        f: &Forest,
        packed: &PackedRuns,
        run: PackedRun,
    ) -> Result<(), NoMemory> {
        match run {
            PackedRun::App(production, arity, first) => {
                key.push(0)?;
                key.push(production)?;
                self.push_children(key, packed, arity, first)
            }
            PackedRun::Literal(node, at) => push_literal(key, f, node, at),
            PackedRun::Hole(nonterminal) => {
                key.push(3)?;
                key.push(nonterminal)?;
                Ok(())
            }
        }
    }

    fn number_of(&mut self, key: Vec<u32>) -> Result<u32, NoMemory> {
        if let Some(&number) = self.numbers.get(&key) {
            return Ok(number);
        }
        let number = count(self.numbers.len())?;
        self.numbers.insert(key, number)?;
        Ok(number)
    }

    fn add(
        &mut self,
        alloc: Global,
        f: &Forest,
        packed: &PackedRuns,
        run: PackedRun,
    ) -> Result<(), NoMemory> {
        let mut key = Vec::new(alloc);
        self.push_run(&mut key, f, packed, run)?;
        let number = self.number_of(key)?;
        self.of.push(number)?;
        Ok(())
    }
}

fn values_of(alloc: Global, f: &Forest, packed: &PackedRuns) -> Result<Values, NoMemory> {
    let mut values = Values {
        numbers: IndexMap::new(alloc),
        of: Vec::new(alloc),
    };
    for run in packed.runs.iter() {
        values.add(alloc, f, packed, *run)?;
    }
    Ok(values)
}

/// The roots whose runs no earlier root is.
fn distinct_roots(alloc: Global, values: &Values, roots: &Vec<u32>) -> Result<Vec<u32>, NoMemory> {
    let mut seen: Vec<bool> = Vec::new(alloc);
    seen.resize(values.numbers.len(), false)?;
    let mut distinct = Vec::new(alloc);
    for root in roots.iter() {
        let number = read(&values.of, *root);
        if let Some(known) = seen.get_mut(number as usize) {
            if !*known {
                *known = true;
                distinct.push(*root)?;
            }
        }
    }
    Ok(distinct)
}

/// The runs with each root once.
pub fn without_repeats(
    alloc: Global,
    f: &Forest,
    packed: PackedRuns,
) -> Result<PackedRuns, NoMemory> {
    if !may_repeat(alloc, f)? {
        return Ok(packed);
    }
    let values = values_of(alloc, f, &packed)?;
    let roots = distinct_roots(alloc, &values, &packed.roots)?;
    let PackedRuns {
        runs,
        children,
        roots: _,
    } = packed;
    Ok(PackedRuns {
        runs,
        children,
        roots,
    })
}
