//! The first fault of an abstract module's own judgements, and the first name that an inherited one
//! lacks.
use crate::graph::Graph;
use crate::judgement::{check_category, check_function};
use crate::names::{Meaning, Names};
use crate::numbers::{NONE, at, filled, put};
use crate::parts::push_names;
use crate::reader::{Reader, Signatures};
use crate::signing::is_inherited;
use crate::turns::first_faulty;
use gft_core::NoMemory;
use gft_rules::{Refusal, Stop};
use gft_syntax::{Flat, FlatJudgement, Judgement, PlacedName, Reference, Whole};
use std::alloc::Global;

/// An entry by its place among the categories or the functions in the order of names.
#[derive(Clone, Copy)]
pub struct Entry {
    pub is_function: bool,
    pub number: u32,
}

/// The place of an entry among the categories or the functions.
fn entry_of<'a>(names: &Names<'a>, entry: Entry) -> Option<&'a FlatJudgement> {
    if entry.is_function {
        return names.funs.get(entry.number as usize).copied();
    }
    names.cats.get(entry.number as usize).copied()
}

type Key = (u32, u32, bool, u32);

/// Adds a key of each entry that is inherited, or of each that is not: its place in the source, and
/// which it is.
fn push_keys(
    keys: &mut Vec<Key>,
    flat: &Flat,
    entries: &[&FlatJudgement],
    is_function: bool,
    inherited: bool,
) -> Result<(), NoMemory> {
    let mut number = 0u32;
    'entries: for entry in entries {
        let entry = *entry;
        if is_inherited(flat, entry) == inherited {
            keys.push((entry.place.line, entry.place.col, is_function, number))?;
        }
        number = number.saturating_add(1);
    }
    Ok(())
}

/// The module's own entries in source order; a list's category comes before its functions.
fn own_entries(alloc: Global, flat: &Flat, names: &Names<'_>) -> Result<Vec<Entry>, NoMemory> {
    let mut keys: Vec<Key> = Vec::new(alloc);
    push_keys(&mut keys, flat, names.cats.as_slice(), false, false)?;
    push_keys(&mut keys, flat, names.funs.as_slice(), true, false)?;
    keys.sort()?;
    let mut entries: Vec<Entry> = Vec::new(alloc);
    'keys: for (_, _, is_function, number) in keys.as_slice() {
        entries.push(Entry {
            is_function: *is_function,
            number: *number,
        })?;
    }
    Ok(entries)
}

/// The fault of an entry.
fn fault_of<'r, 'a>(
    alloc: Global,
    names: &'r Names<'a>,
    signatures: &'r Signatures,
    entry: Entry,
) -> Result<Option<Refusal>, NoMemory> {
    let Some(judgement) = entry_of(names, entry) else {
        return Ok(None);
    };
    let mut r = Reader::new(alloc, names, Some(signatures));
    let checked = if entry.is_function {
        check_function(&mut r, judgement)
    } else {
        check_category(&mut r, judgement)
    };
    match checked {
        Ok(()) => Ok(None),
        Err(Stop::Refused(refusal)) => Ok(Some(refusal)),
        Err(Stop::NoMemory) => Err(NoMemory),
    }
}

/// Adds the names of a judgement of abstract syntax.
fn push_rests<'a>(
    alloc: Global,
    found: &mut Vec<&'a Whole>,
    judgement: &'a Judgement,
) -> Result<(), NoMemory> {
    match judgement {
        Judgement::Cat(_, contexts) => {
            'contexts: for context in contexts.as_slice() {
                push_names(alloc, found, &context.of_type)?;
            }
            Ok(())
        }
        Judgement::ListCat(_, Reference::Whole(whole), _, _) => {
            found.push(whole)?;
            Ok(())
        }
        Judgement::Fun(_, term) => push_names(alloc, found, term),
        _ => Ok(()),
    }
}

/// The node of each category and each function, `NONE` for one that is inherited.
#[derive(Drop)]
struct Nodes {
    cats: Vec<u32>,
    funs: Vec<u32>,
}

fn nodes_of(alloc: Global, names: &Names<'_>, entries: &[Entry]) -> Result<Nodes, NoMemory> {
    let cats = u32::try_from(names.cats.len()).unwrap_or(NONE);
    let funs = u32::try_from(names.funs.len()).unwrap_or(NONE);
    let mut nodes = Nodes {
        cats: filled(alloc, cats, NONE)?,
        funs: filled(alloc, funs, NONE)?,
    };
    let mut node = 0u32;
    'entries: for entry in entries {
        if entry.is_function {
            put(&mut nodes.funs, entry.number, node);
        } else {
            put(&mut nodes.cats, entry.number, node);
        }
        node = node.saturating_add(1);
    }
    Ok(nodes)
}

/// The node of the category of lists of an element.
fn list_node(
    alloc: Global,
    names: &Names<'_>,
    nodes: &Nodes,
    element: &PlacedName,
) -> Result<u32, NoMemory> {
    let mut name = String::from_str(alloc, "List")?;
    name.push_str(element.name.as_str())?;
    match names.category_named(name.as_str()) {
        Some(number) => Ok(at(nodes.cats.as_slice(), number.saturating_sub(2))),
        None => Ok(NONE),
    }
}

/// The node that a name stands for: a function of lists for the list's category.
fn node_of(
    alloc: Global,
    names: &Names<'_>,
    nodes: &Nodes,
    whole: &Whole,
) -> Result<u32, NoMemory> {
    match names.meaning(whole) {
        Meaning::Category(0) => Ok(NONE),
        Meaning::Category(1) => Ok(NONE),
        Meaning::Category(number) => Ok(at(nodes.cats.as_slice(), number.saturating_sub(2))),
        Meaning::Function(number) => {
            let Some(entry) = names.function(number) else {
                return Ok(NONE);
            };
            if let Judgement::ListCat(element, _, _, _) = entry.judgement.get() {
                return list_node(alloc, names, nodes, element);
            }
            Ok(at(nodes.funs.as_slice(), number))
        }
        Meaning::Predefined => Ok(NONE),
        Meaning::Other => Ok(NONE),
    }
}

/// Adds the edges of a node.
fn add_edges(
    alloc: Global,
    names: &Names<'_>,
    nodes: &Nodes,
    graph: &mut Graph,
    judgement: &Judgement,
) -> Result<(), NoMemory> {
    let mut found: Vec<&Whole> = Vec::new(alloc);
    push_rests(alloc, &mut found, judgement)?;
    'names: for whole in found.as_slice() {
        let node = node_of(alloc, names, nodes, whole)?;
        if node != NONE {
            graph.edge(node)?;
        }
    }
    graph.end()
}

/// Which of the module's own entries rest on which.
fn graph_of(alloc: Global, names: &Names<'_>, entries: &[Entry]) -> Result<Graph, NoMemory> {
    let nodes = nodes_of(alloc, names, entries)?;
    let mut graph = Graph::new(alloc)?;
    'entries: for entry in entries {
        match entry_of(names, *entry) {
            Some(found) => {
                add_edges(alloc, names, &nodes, &mut graph, found.judgement.get())?;
            }
            None => graph.end()?,
        }
    }
    Ok(graph)
}

/// Whether each entry is faulty.
fn faulty<'r, 'a>(
    alloc: Global,
    names: &'r Names<'a>,
    signatures: &'r Signatures,
    entries: &[Entry],
) -> Result<Vec<bool>, NoMemory> {
    let mut found = Vec::new(alloc);
    'entries: for entry in entries {
        found.push(fault_of(alloc, names, signatures, *entry)?.is_some())?;
    }
    Ok(found)
}

/// The fault of the module's own judgements that is met first.
pub fn first_fault<'r, 'a>(
    alloc: Global,
    flat: &Flat,
    names: &'r Names<'a>,
    signatures: &'r Signatures,
) -> Result<Option<Refusal>, NoMemory> {
    let entries = own_entries(alloc, flat, names)?;
    let faulty = faulty(alloc, names, signatures, entries.as_slice())?;
    let graph = graph_of(alloc, names, entries.as_slice())?;
    let node = first_faulty(alloc, &graph, faulty.as_slice())?;
    match entries.get(node as usize) {
        Some(entry) => fault_of(alloc, names, signatures, *entry),
        None => Ok(None),
    }
}
