//! The abstract syntax of what was read.
use crate::fault::ReadErr;
use crate::field::Reader;
use crate::syntax::{Entry, Syntax, Type};
use crate::terms::{Node, push};
use gft_core::{Name, NoMemory, Tree};
use gft_pmcfg::{AType, Abstract, Cat, Fun};
use sqlite_items::Items;
use std::alloc::Global;

/// The last so many trees of the pile, the last one first.
fn parts(alloc: Global, pile: &mut Vec<Tree>, many: u32) -> Result<Items<Tree>, NoMemory> {
    let mut parts = Items::new(alloc);
    for _ in 0..many {
        match pile.pop() {
            None => return Ok(parts), // the parts of a term stand after it
            Some(part) => parts.push(part)?,
        }
    }
    Ok(parts)
}

/// The name of a function.
fn function(alloc: Global, reader: &Reader, syntax: &Syntax, number: u32) -> Result<Name, ReadErr> {
    match syntax.funs.get(number as usize) {
        None => reader.name_at(alloc, syntax.name), // numbers of functions are in range
        Some(entry) => reader.name_at(alloc, entry.name),
    }
}

/// The tree of a term, its parts the last ones of the pile.
fn tree(
    alloc: Global,
    reader: &Reader,
    syntax: &Syntax,
    node: Node,
    pile: &mut Vec<Tree>,
) -> Result<Tree, ReadErr> {
    match node {
        Node::App(number, many) => {
            let name = function(alloc, reader, syntax, number)?;
            Ok(Tree::App(name, parts(alloc, pile, many)?))
        }
        Node::Hole(variable) => Ok(Tree::Hole(variable)),
        Node::Int(span) => Ok(Tree::Int(reader.integer_at(span))),
        Node::Str(span) => Ok(Tree::Str(reader.token_at(alloc, span)?)),
    }
}

/// The type of what was read.
fn type_of(alloc: Global, reader: &Reader, syntax: &Syntax, one: Type) -> Result<AType, ReadErr> {
    let mut pile = Vec::new(alloc);
    for back in 0..one.to.saturating_sub(one.from) {
        let place = one.to.saturating_sub(back).saturating_sub(1);
        if let Some(node) = syntax.nodes.get(place as usize) {
            let made = tree(alloc, reader, syntax, *node, &mut pile)?;
            push(&mut pile, made)?;
        }
    }
    let mut args = Items::new(alloc);
    for _ in 0..pile.len() {
        if let Some(term) = pile.pop() {
            args.push(term)?;
        }
    }
    Ok(AType { cat: one.cat, args })
}

fn types_of(
    alloc: Global,
    reader: &Reader,
    syntax: &Syntax,
    from: u32,
    to: u32,
) -> Result<Items<AType>, ReadErr> {
    let mut all = Items::new(alloc);
    for place in from..to {
        if let Some(one) = syntax.types.get(place as usize) {
            all.push(type_of(alloc, reader, syntax, *one)?)?;
        }
    }
    Ok(all)
}

fn fun_of(alloc: Global, reader: &Reader, syntax: &Syntax, entry: Entry) -> Result<Fun, ReadErr> {
    let last = entry.to.saturating_sub(1);
    let result = match syntax.types.get(last as usize) {
        None => AType {
            cat: 0,
            args: Items::new(alloc),
        }, // the last type of a function is that of its result
        Some(one) => type_of(alloc, reader, syntax, *one)?,
    };
    Ok(Fun {
        name: reader.name_at(alloc, entry.name)?,
        args: types_of(alloc, reader, syntax, entry.from, last)?,
        result,
    })
}

/// A category of literals.
fn literal(alloc: Global, name: &str) -> Result<Option<Cat>, NoMemory> {
    match Name::new(alloc, name)? {
        None => Ok(None),
        Some(name) => Ok(Some(Cat {
            name,
            context: Items::new(alloc),
        })),
    }
}

fn cats_of(alloc: Global, reader: &Reader, syntax: &Syntax) -> Result<Items<Cat>, ReadErr> {
    let mut all = Items::new(alloc);
    for name in ["Int", "String"] {
        if let Some(cat) = literal(alloc, name)? {
            all.push(cat)?;
        }
    }
    for entry in syntax.cats.as_slice() {
        let name = reader.name_at(alloc, entry.name)?;
        let context = types_of(alloc, reader, syntax, entry.from, entry.to)?;
        all.push(Cat { name, context })?;
    }
    Ok(all)
}

/// The abstract syntax.
pub fn abstract_of(alloc: Global, reader: &Reader, syntax: &Syntax) -> Result<Abstract, ReadErr> {
    let cats = cats_of(alloc, reader, syntax)?;
    let mut funs = Vec::with_capacity(alloc, syntax.funs.len())?;
    for entry in syntax.funs.as_slice() {
        push(&mut funs, fun_of(alloc, reader, syntax, *entry)?)?;
    }
    Ok(Abstract {
        name: reader.name_at(alloc, syntax.name)?,
        start: syntax.start,
        cats,
        funs: Items::from_vec(funs),
    })
}
