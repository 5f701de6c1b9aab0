//! The judgements of a module in the order in which they are typed but for what they rest on.
use crate::nodes::{Nodes, Run};
use gft_core::{Name, NoMemory, Shared};
use gft_graph::{NONE, at};
use gft_syntax::{Body, Flat, FlatJudgement, Header, Judgement, Keyword, Module, PlacedName, Rest};
use std::alloc::Global;

/// The name of a module.
pub fn module_name(module: &Module) -> &Name {
    match &module.header {
        Header::Abstract(name) => &name.name,
        Header::Resource(name) => &name.name,
        Header::Interface(name) => &name.name,
        Header::Instance(name, _) => &name.name,
        Header::Concrete(name, _) => &name.name,
        Header::Incomplete(name, _) => &name.name,
    }
}

fn body_judgements(body: &Body) -> &[Shared<Judgement>] {
    body.judgements.as_slice()
}

/// The judgements of a module's text, its copies first.
fn judgements_of(module: &Module) -> &[Shared<Judgement>] {
    match &module.rest {
        Rest::Own(_, body) => body_judgements(body),
        Rest::Inherits(_) => &[],
        Rest::With(_, _, _, Some(body)) => body_judgements(body),
        Rest::With(_, _, _, None) => &[],
    }
}

/// Nodes in order, and how many of them are taken.
#[derive(Drop)]
struct Queue {
    nodes: Vec<u32>,
    taken: u32,
}

impl Queue {
    fn new(alloc: Global) -> Queue {
        Queue {
            nodes: Vec::new(alloc),
            taken: 0,
        }
    }

    /// The next node, `NONE` at the end.
    fn next(&self) -> u32 {
        at(self.nodes.as_slice(), self.taken)
    }
}

/// The module's own nodes that are still to be put in order (parameter types, opers,
/// linearizations), and those that are.
#[derive(Drop)]
struct Sequence {
    params: Queue,
    opers: Queue,
    linearizations: Queue,
    order: Vec<u32>,
}

/// Whether an entry is of the module.
fn is_of(entry: Option<&FlatJudgement>, module: &Name) -> bool {
    match entry {
        Some(entry) => entry.whole.module.as_str() == module.as_str(),
        None => false,
    }
}

/// Whether a node is an entry of that name and keyword.
fn is_called(flat: &Flat, nodes: &Nodes, node: u32, name: &Name, keyword: Keyword) -> bool {
    match nodes.entry(flat, node) {
        Some(entry) => {
            nodes.keyword(node) == keyword && entry.whole.name.as_str() == name.as_str()
        }
        None => false,
    }
}

/// Adds the next node of a queue to an order where it is of that name and keyword; else the name
/// is one that the grammar leaves out.
fn take(
    order: &mut Vec<u32>,
    queue: &mut Queue,
    flat: &Flat,
    nodes: &Nodes,
    name: &Name,
    keyword: Keyword,
) -> Result<(), NoMemory> {
    let node = queue.next();
    if is_called(flat, nodes, node, name, keyword) {
        order.push(node)?;
        queue.taken = queue.taken.saturating_add(1);
    }
    Ok(())
}

fn take_all(
    order: &mut Vec<u32>,
    queue: &mut Queue,
    flat: &Flat,
    nodes: &Nodes,
    names: &[PlacedName],
    keyword: Keyword,
) -> Result<(), NoMemory> {
    'names: for name in names {
        take(order, queue, flat, nodes, &name.name, keyword)?;
    }
    Ok(())
}

/// Adds what is left of a queue.
fn take_rest(order: &mut Vec<u32>, queue: &mut Queue) -> Result<(), NoMemory> {
    'rest: for _ in 0..queue.nodes.len() {
        let node = queue.next();
        if node == NONE {
            break;
        }
        order.push(node)?;
        queue.taken = queue.taken.saturating_add(1);
    }
    Ok(())
}

impl Sequence {
    fn add_run(&mut self, nodes: &Nodes, run: Run) -> Result<(), NoMemory> {
        'nodes: for node in run.first..run.end {
            match nodes.keyword(node) {
                Keyword::Param => self.params.nodes.push(node)?,
                _ => self.opers.nodes.push(node)?,
            }
        }
        Ok(())
    }

    /// The module's own nodes among those that terms name.
    fn add_named(&mut self, flat: &Flat, nodes: &Nodes, module: &Name) -> Result<(), NoMemory> {
        'runs: for run in nodes.runs.as_slice() {
            if is_of(nodes.entry(flat, run.first), module) {
                self.add_run(nodes, *run)?;
            }
        }
        Ok(())
    }

    /// Those of its language.
    fn add_language(
        &mut self,
        flat: &Flat,
        nodes: &Nodes,
        module: &Name,
        concrete: u32,
    ) -> Result<(), NoMemory> {
        'nodes: for node in nodes.first(concrete)..nodes.last(concrete) {
            if is_of(nodes.entry(flat, node), module) {
                self.linearizations.nodes.push(node)?;
            }
        }
        Ok(())
    }

    fn linearization(
        &mut self,
        flat: &Flat,
        nodes: &Nodes,
        names: &[PlacedName],
        keyword: Keyword,
    ) -> Result<(), NoMemory> {
        let queue = &mut self.linearizations;
        take_all(&mut self.order, queue, flat, nodes, names, keyword)
    }

    fn opers(&mut self, flat: &Flat, nodes: &Nodes, names: &[PlacedName]) -> Result<(), NoMemory> {
        let queue = &mut self.opers;
        take_all(&mut self.order, queue, flat, nodes, names, Keyword::Oper)
    }

    fn param(&mut self, flat: &Flat, nodes: &Nodes, name: &Name) -> Result<(), NoMemory> {
        let queue = &mut self.params;
        take(&mut self.order, queue, flat, nodes, name, Keyword::Param)
    }

    /// Puts the nodes of one judgement in order.
    fn judgement(
        &mut self,
        flat: &Flat,
        nodes: &Nodes,
        judgement: &Judgement,
    ) -> Result<(), NoMemory> {
        match judgement {
            Judgement::ParamName(name) => self.param(flat, nodes, &name.name),
            Judgement::Param(name, _) => self.param(flat, nodes, &name.name),
            Judgement::OperType(names, _) => self.opers(flat, nodes, names.as_slice()),
            Judgement::OperTyped(names, _, _) => self.opers(flat, nodes, names.as_slice()),
            Judgement::Oper(names, _, _) => self.opers(flat, nodes, names.as_slice()),
            Judgement::Lincat(names, _) => {
                self.linearization(flat, nodes, names.as_slice(), Keyword::Lincat)
            }
            Judgement::Lin(names, _, _) => {
                self.linearization(flat, nodes, names.as_slice(), Keyword::Lin)
            }
            Judgement::Lindef(names, _, _) => {
                self.linearization(flat, nodes, names.as_slice(), Keyword::Lindef)
            }
            Judgement::Linref(names, _, _) => {
                self.linearization(flat, nodes, names.as_slice(), Keyword::Linref)
            }
            _ => Ok(()), // flags and abstract judgements are not typed here
        }
    }

    /// What no judgement of the text took; excluded by flatten, whose entries are those of the
    /// text.
    fn finish(&mut self) -> Result<(), NoMemory> {
        take_rest(&mut self.order, &mut self.params)?;
        take_rest(&mut self.order, &mut self.opers)?;
        take_rest(&mut self.order, &mut self.linearizations)
    }
}

/// The language of that name, if the grammar has it.
fn language_of(flat: &Flat, module: &Name) -> Option<u32> {
    let mut number = 0u32;
    'concretes: for one in flat.concretes.as_slice() {
        if one.name.as_str() == module.as_str() {
            return Some(number);
        }
        number = number.saturating_add(1);
    }
    None
}

/// Adds the linearizations of a keyword that a language inherits.
fn add_inherited(
    order: &mut Vec<u32>,
    flat: &Flat,
    nodes: &Nodes,
    module: &Name,
    concrete: u32,
    keyword: Keyword,
) -> Result<(), NoMemory> {
    'nodes: for node in nodes.first(concrete)..nodes.last(concrete) {
        if nodes.keyword(node) == keyword && !is_of(nodes.entry(flat, node), module) {
            order.push(node)?;
        }
    }
    Ok(())
}

fn add_all_inherited(
    order: &mut Vec<u32>,
    flat: &Flat,
    nodes: &Nodes,
    module: &Name,
    concrete: u32,
) -> Result<(), NoMemory> {
    add_inherited(order, flat, nodes, module, concrete, Keyword::Lincat)?;
    add_inherited(order, flat, nodes, module, concrete, Keyword::Lindef)?;
    add_inherited(order, flat, nodes, module, concrete, Keyword::Linref)?;
    add_inherited(order, flat, nodes, module, concrete, Keyword::Lin)
}

/// The nodes that are typed for a module: its own in the order of its text, copies first, and
/// then the `lincat`, `lindef`, `linref` and `lin` judgements that it inherits, in the order of
/// inheritance.
pub fn sequence_of(
    alloc: Global,
    flat: &Flat,
    nodes: &Nodes,
    module: &Module,
) -> Result<Vec<u32>, NoMemory> {
    let name = module_name(module);
    let language = language_of(flat, name);
    let mut sequence = Sequence {
        params: Queue::new(alloc),
        opers: Queue::new(alloc),
        linearizations: Queue::new(alloc),
        order: Vec::new(alloc),
    };
    sequence.add_named(flat, nodes, name)?;
    if let Some(concrete) = language {
        sequence.add_language(flat, nodes, name, concrete)?;
    }
    'judgements: for judgement in judgements_of(module) {
        sequence.judgement(flat, nodes, judgement.get())?;
    }
    sequence.finish()?;
    if let Some(concrete) = language {
        add_all_inherited(&mut sequence.order, flat, nodes, name, concrete)?;
    }
    Ok(sequence.order)
}
