//! The terms of types, read before the names of functions are known.
use crate::fault::ReadErr;
use crate::field::{Reader, Span, bad};
use gft_rules::Rule;
use std::alloc::Global;

/// The most levels of a term.
const HIGHEST: usize = 201;

/// A term, its parts right after it: the number of a function with that of its parts, a variable by
/// the number of its argument from 1, an integer by where its bytes stand, or a text.
#[derive(Clone, Copy)]
pub enum Node {
    App(u32, u32),
    Hole(u32),
    Int(Span),
    Str(Span),
}

impl Node {
    /// How many parts stand after the term.
    fn parts(self) -> u32 {
        match self {
            Node::App(_, parts) => parts,
            Node::Hole(_) => 0,
            Node::Int(_) => 0,
            Node::Str(_) => 0,
        }
    }
}

/// How many functions there are, and how many arguments stand before the type.
#[derive(Clone, Copy)]
pub struct Bounds {
    pub functions: u32,
    pub variables: u32,
}

/// One term without its parts, at a level from 1.
fn read_node(reader: &mut Reader, bounds: Bounds, level: usize) -> Result<Node, ReadErr> {
    let at = reader.at();
    let tag = reader.tag()?;
    if level > HIGHEST {
        return Err(bad(Rule::BadNumber, at));
    }
    match tag {
        0 => {
            let function = reader.below(bounds.functions)?;
            Ok(Node::App(function, reader.number()?))
        }
        1 => Ok(Node::Hole(reader.below(bounds.variables)?.saturating_add(1))),
        2 => Ok(Node::Int(reader.integer()?)),
        3 => Ok(Node::Str(reader.token()?)),
        _ => Err(bad(Rule::BadTag, at)),
    }
}

/// Reads so many terms after those that were read. `open` has for each level the number of terms
/// that are still to come there.
pub fn read_terms(
    alloc: Global,
    reader: &mut Reader,
    bounds: Bounds,
    many: u32,
    nodes: &mut Vec<Node>,
) -> Result<(), ReadErr> {
    if many == 0 {
        return Ok(());
    }
    let mut open = Vec::new(alloc);
    push(&mut open, many)?;
    // each turn takes a byte or leaves a level
    for _ in 0..reader.len().saturating_mul(2).saturating_add(2) {
        let Some(left) = open.pop() else {
            return Ok(());
        };
        if left > 0 {
            push(&mut open, left - 1)?;
            let node = read_node(reader, bounds, open.len())?;
            push(nodes, node)?;
            push(&mut open, node.parts())?;
        }
    }
    Ok(())
}

/// One more item at the end.
pub fn push<T: Drop>(list: &mut Vec<T>, item: T) -> Result<(), ReadErr> {
    match list.push(item) {
        Ok(()) => Ok(()),
        Err(_) => Err(ReadErr::NoMemory),
    }
}
