//! The `lincat`s that each linearization needs.
use crate::nodes::Nodes;
use crate::signatures::{LITERAL, Signatures};
use gft_core::{Name, NoMemory};
use gft_graph::{Graph, NONE, at, count, filled, put};
use gft_syntax::{Flat, FlatJudgement, Keyword};
use std::alloc::Global;

/// The node of a category's `lincat` in the language at hand; `LITERAL` for `Int` and `String`,
/// `NONE` where it is missing.
fn lincat_of(lincats: &[u32], category: u32) -> u32 {
    if category == LITERAL {
        return LITERAL;
    }
    at(lincats, category)
}

/// Adds what the `lin` of a function needs, in the order of its arguments, the result last.
fn add_function(
    needs: &mut Graph,
    signatures: &Signatures<'_>,
    lincats: &[u32],
    name: &Name,
) -> Result<(), NoMemory> {
    let function = signatures.function(name);
    let lists = &signatures.lists;
    if function >= lists.len() {
        return needs.edge(NONE); // excluded by flatten: a `lin` is of a function
    }
    'categories: for edge in lists.first(function)..lists.last(function) {
        needs.edge(lincat_of(lincats, lists.target(edge)))?;
    }
    Ok(())
}

/// Adds what a node needs.
fn add(
    needs: &mut Graph,
    flat: &Flat,
    nodes: &Nodes,
    signatures: &Signatures<'_>,
    lincats: &[u32],
    node: u32,
) -> Result<(), NoMemory> {
    let Some(entry) = nodes.entry(flat, node) else {
        return Ok(());
    };
    let name = &entry.whole.name;
    match nodes.keyword(node) {
        Keyword::Lin => add_function(needs, signatures, lincats, name),
        Keyword::Lindef => needs.edge(lincat_of(lincats, signatures.category(name))),
        Keyword::Linref => needs.edge(lincat_of(lincats, signatures.category(name))),
        _ => Ok(()),
    }
}

/// The entry of a node that is a `lincat`.
fn lincat_entry<'f>(flat: &'f Flat, nodes: &Nodes, node: u32) -> Option<&'f FlatJudgement> {
    match nodes.keyword(node) {
        Keyword::Lincat => nodes.entry(flat, node),
        _ => None,
    }
}

/// Notes the `lincat`s of a language, or forgets them where `is_noted` is false.
fn note(
    lincats: &mut Vec<u32>,
    flat: &Flat,
    nodes: &Nodes,
    signatures: &Signatures<'_>,
    concrete: u32,
    is_noted: bool,
) {
    'nodes: for node in nodes.first(concrete)..nodes.last(concrete) {
        if let Some(entry) = lincat_entry(flat, nodes, node) {
            let lincat = if is_noted { node } else { NONE };
            put(lincats, signatures.category(&entry.whole.name), lincat);
        }
    }
}

/// For each node the nodes of the `lincat`s that it needs: of a `lin` those of the arguments and
/// then that of the result, of a `lindef` or `linref` that of the category, of any other node
/// none.
pub fn needs_of(
    alloc: Global,
    flat: &Flat,
    nodes: &Nodes,
    signatures: &Signatures<'_>,
) -> Result<Graph, NoMemory> {
    let mut needs = Graph::new(alloc)?;
    let mut lincats = filled(alloc, count(flat.cats.as_slice())?, NONE)?;
    'named: for _ in 0..nodes.named() {
        needs.end()?;
    }
    'concretes: for concrete in 0..count(flat.concretes.as_slice())? {
        note(&mut lincats, flat, nodes, signatures, concrete, true);
        'nodes: for node in nodes.first(concrete)..nodes.last(concrete) {
            add(
                &mut needs,
                flat,
                nodes,
                signatures,
                lincats.as_slice(),
                node,
            )?;
            needs.end()?;
        }
        note(&mut lincats, flat, nodes, signatures, concrete, false);
    }
    Ok(needs)
}
