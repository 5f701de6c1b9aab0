//! Runs as trees of their own.
use crate::least::{NONE, read};
use crate::packed::{PackedRun, PackedRuns, packed_within};
use gft_core::NoMemory;
use gft_pmcfg::{Alt, Concrete, Forest, Run};
use sqlite_items::Items;
use std::alloc::Global;

/// A list of the run and all its parts, each before its parts.
fn parts_of(alloc: Global, packed: &PackedRuns, run: u32) -> Result<Vec<PackedRun>, NoMemory> {
    let mut parts = Vec::new(alloc);
    let mut pending = Vec::new(alloc);
    pending.push(run)?;
    'parts: for _ in 0..NONE {
        let Some(number) = pending.pop() else {
            break 'parts;
        };
        if let Some(&part) = packed.runs.get(number as usize) {
            parts.push(part)?;
            push_children(packed, part, &mut pending)?;
        }
    }
    Ok(parts)
}

fn push_children(
    packed: &PackedRuns,
    part: PackedRun,
    pending: &mut Vec<u32>,
) -> Result<(), NoMemory> {
    if let PackedRun::App(_, arity, first) = part {
        for i in 0..arity {
            pending.push(read(&packed.children, first.saturating_add(i)))?;
        }
    }
    Ok(())
}

fn literal_at(alloc: Global, f: &Forest, node: u32, at: u32) -> Result<Option<Run>, NoMemory> {
    let Some(node) = f.nodes.get(node as usize) else {
        return Ok(None);
    };
    match node.alts.get(at as usize) {
        Some(Alt::Int(value)) => Ok(Some(Run::Int(*value))),
        Some(Alt::Str(word)) => Ok(Some(Run::Str(word.copy(alloc)?))),
        _ => Ok(None),
    }
}

fn put_application(built: &mut Vec<Run>, production: u32, arity: u32) -> Result<(), NoMemory> {
    let from = built.len().saturating_sub(arity as usize);
    let arguments = built.split_off(from)?;
    built.push(Run::App(production, Items::from_vec(arguments)))?;
    Ok(())
}

fn put_literal(
    alloc: Global,
    f: &Forest,
    node: u32,
    at: u32,
    built: &mut Vec<Run>,
) -> Result<(), NoMemory> {
    if let Some(run) = literal_at(alloc, f, node, at)? {
        built.push(run)?;
    }
    Ok(())
}

fn put(alloc: Global, f: &Forest, part: PackedRun, built: &mut Vec<Run>) -> Result<(), NoMemory> {
    match part {
        PackedRun::App(production, arity, _) => put_application(built, production, arity),
        PackedRun::Literal(node, at) => put_literal(alloc, f, node, at, built),
        PackedRun::Hole(nonterminal) => {
            built.push(Run::Hole(nonterminal))?;
            Ok(())
        }
    }
}

/// Puts the run on the list. No recursion: the stack does not grow with its depth.
fn push_run(
    alloc: Global,
    f: &Forest,
    packed: &PackedRuns,
    run: u32,
    all: &mut Vec<Run>,
) -> Result<(), NoMemory> {
    let mut parts = parts_of(alloc, packed, run)?;
    'parts: while let Some(part) = parts.pop() {
        put(alloc, f, part, all)?;
    }
    Ok(())
}

/// Each run of the forest of at most that depth, holes counting 1, once.
pub fn runs_within(
    alloc: Global,
    f: &Forest,
    c: &Concrete,
    depth: u32,
) -> Result<Vec<Run>, NoMemory> {
    let packed = packed_within(alloc, f, c, depth)?;
    let mut all = Vec::new(alloc);
    for root in packed.roots.iter() {
        push_run(alloc, f, &packed, *root, &mut all)?;
    }
    Ok(all)
}
