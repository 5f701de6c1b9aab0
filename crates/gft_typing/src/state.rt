//! The state of typing.
use crate::meaning::{Alternative, Meaning};
use crate::refusing::Broken;
use crate::scope::Variable;
use crate::stopped::Stopped;
use crate::task::Task;
use gft_core::{NoMemory, Text};
use gft_forms::{Forms, Span};
use gft_nodes::{Node, Nodes, Part};
use gft_types::{STR, TypeId, Types};
use std::alloc::Global;

/// A typed term by its number, and its type.
#[derive(Clone, Copy)]
pub struct Found {
    pub node: u32,
    pub of: TypeId,
}

/// A table whose branches are typed: the type that it is over, and that of its values, where it is
/// known.
#[derive(Clone, Copy)]
pub struct Over {
    pub over: TypeId,
    pub values: Option<TypeId>,
}

/// What is known of global names, and the terms of one judgement. Types and names stay from one
/// judgement to the next.
#[derive(Drop)]
pub struct Typing {
    pub types: Types,
    pub(crate) meanings: Vec<Meaning>,
    pub(crate) alternatives: Vec<Alternative>,
    pub(crate) predef: TypeId,
    pub(crate) forms: Forms,
    pub(crate) nodes: Nodes,
    pub(crate) tasks: Vec<Task>,
    pub(crate) found: Vec<Found>,
    pub(crate) written: Vec<TypeId>,
    pub(crate) calls: Vec<TypeId>,
    pub(crate) tables: Vec<Over>,
    pub(crate) scope: Vec<Variable>,
    pub(crate) depth: u32,
    pub(crate) broken: Option<Broken>,
    pub(crate) texts: Vec<Text>,
}

/// The type of the functions of `Predef`.
fn predef_type(types: &mut Types) -> Result<TypeId, NoMemory> {
    let number = types.ints(u128::MAX)?;
    let text = types.function(STR, STR)?;
    types.function(number, text)
}

impl Typing {
    /// No name has a meaning.
    pub fn new(alloc: Global) -> Result<Typing, NoMemory> {
        let mut types = Types::new(alloc)?;
        let predef = predef_type(&mut types)?;
        Ok(Typing {
            types,
            meanings: Vec::new(alloc),
            alternatives: Vec::new(alloc),
            predef,
            forms: Forms::new(alloc),
            nodes: Nodes::new(alloc),
            tasks: Vec::new(alloc),
            found: Vec::new(alloc),
            written: Vec::new(alloc),
            calls: Vec::new(alloc),
            tables: Vec::new(alloc),
            scope: Vec::new(alloc),
            depth: 0,
            broken: None,
            texts: Vec::new(alloc),
        })
    }

    /// Begins a judgement: forgets the terms and variables of the one before.
    pub fn begin(&mut self) {
        self.forms.clear();
        self.nodes.clear();
        self.tasks.clear();
        self.found.clear();
        self.written.clear();
        self.calls.clear();
        self.tables.clear();
        self.scope.clear();
        self.texts.clear();
        self.depth = 0;
        self.broken = None;
    }

    /// One task more, which is done before those that were there.
    pub(crate) fn push(&mut self, task: Task) -> Result<(), Stopped> {
        match self.tasks.push(task) {
            Ok(()) => Ok(()),
            Err(_) => Err(Stopped::NoMemory),
        }
    }

    /// A term was found.
    pub(crate) fn push_found(&mut self, found: Found) -> Result<(), Stopped> {
        match self.found.push(found) {
            Ok(()) => Ok(()),
            Err(_) => Err(Stopped::NoMemory),
        }
    }

    /// A type was written.
    pub(crate) fn push_written(&mut self, of: TypeId) -> Result<(), Stopped> {
        match self.written.push(of) {
            Ok(()) => Ok(()),
            Err(_) => Err(Stopped::NoMemory),
        }
    }

    /// A term of that form and type was found.
    pub(crate) fn answer(&mut self, node: Node, of: TypeId) -> Result<(), Stopped> {
        let node = self.nodes.add(node)?;
        self.push_found(Found { node, of })
    }

    /// The term that was found last.
    pub(crate) fn pop_found(&mut self) -> Found {
        match self.found.pop() {
            None => Found { node: 0, of: STR }, // excluded by the tasks: each finds one
            Some(found) => found,
        }
    }

    /// The type of the term that was found last.
    pub(crate) fn last_type(&self) -> TypeId {
        match self.found.last() {
            None => STR, // excluded by the tasks
            Some(found) => found.of,
        }
    }

    /// The type that was written last.
    pub(crate) fn pop_written(&mut self) -> TypeId {
        match self.written.pop() {
            None => STR, // excluded by the tasks
            Some(of) => of,
        }
    }

    /// The term at that place of the last so many that were found.
    pub(crate) fn found_at(&self, count: u32, at: u32) -> Found {
        let first = self.found.len().saturating_sub(count as usize);
        match self.found.get(first.saturating_add(at as usize)) {
            None => Found { node: 0, of: STR }, // excluded by the tasks
            Some(found) => *found,
        }
    }

    /// Takes away the last so many terms that were found.
    pub(crate) fn drop_found(&mut self, count: u32) {
        let left = self.found.len().saturating_sub(count as usize);
        self.found.truncate(left);
    }

    /// The last so many terms that were found, which are taken away, as parts without keys.
    pub(crate) fn pop_parts(&mut self, alloc: Global, count: u32) -> Result<Span, Stopped> {
        let mut parts: Vec<Part> = Vec::new(alloc);
        for at in 0..count {
            let node = self.found_at(count, at).node;
            add_part(&mut parts, Part { key: 0, node })?;
        }
        self.drop_found(count);
        Ok(self.nodes.add_parts(parts.as_slice())?)
    }
}

/// Adds a part.
pub fn add_part(parts: &mut Vec<Part>, part: Part) -> Result<(), NoMemory> {
    parts.push(part)?;
    Ok(())
}
