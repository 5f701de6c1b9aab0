//! The judgements of a resolved grammar, each by a number of its own: an overload is one.
use gft_core::NoMemory;
use gft_graph::{NONE, at, count};
use gft_syntax::{Definition, Flat, FlatJudgement, Judgement, Keyword};
use std::alloc::Global;

/// The list of the grammar in which an entry stands.
#[derive(Clone, Copy)]
pub enum List {
    Params,
    Opers,
    Concrete(u32),
}

/// An entry of the grammar: its keyword, its list with its place there, and the number of its
/// judgement, which is the first one of an overload.
#[derive(Clone, Copy)]
pub struct Node {
    pub keyword: Keyword,
    pub list: List,
    pub place: u32,
    pub number: u32,
}

/// Nodes that follow on each other and are of one module: from `first` up to, and without, `end`.
#[derive(Clone, Copy)]
pub struct Run {
    pub first: u32,
    pub end: u32,
}

/// All entries that are typed, in the order of their numbers.
#[derive(Drop)]
pub struct Nodes {
    pub all: Vec<Node>,
    /// Where the nodes of each concrete module begin, and after the last one where all end.
    pub concretes: Vec<u32>,
    /// The parameter types and opers, module by module.
    pub runs: Vec<Run>,
    /// How many judgements are numbered.
    pub judgements: u32,
}

/// The keyword of a judgement.
fn keyword_of(judgement: &Judgement) -> Keyword {
    match judgement {
        Judgement::Cat(_, _) => Keyword::Cat,
        Judgement::ListCat(_, _, _, _) => Keyword::Cat,
        Judgement::Fun(_, _) => Keyword::Fun,
        Judgement::Flag(_, _) => Keyword::Flags,
        Judgement::Lincat(_, _) => Keyword::Lincat,
        Judgement::Lin(_, _, _) => Keyword::Lin,
        Judgement::Lindef(_, _, _) => Keyword::Lindef,
        Judgement::Linref(_, _, _) => Keyword::Linref,
        Judgement::ParamName(_) => Keyword::Param,
        Judgement::Param(_, _) => Keyword::Param,
        Judgement::OperType(_, _) => Keyword::Oper,
        Judgement::OperTyped(_, _, _) => Keyword::Oper,
        Judgement::Oper(_, _, _) => Keyword::Oper,
    }
}

/// How many numbers a judgement has: one, or one for each alternative of an overload.
fn numbers_of(judgement: &Judgement) -> Result<u32, NoMemory> {
    match judgement {
        Judgement::OperTyped(_, _, Definition::Overload(all)) => count(all.as_slice()),
        Judgement::Oper(_, _, Definition::Overload(all)) => count(all.as_slice()),
        _ => Ok(1),
    }
}

impl Nodes {
    fn add(&mut self, list: List, entries: &[FlatJudgement]) -> Result<(), NoMemory> {
        let mut place = 0u32;
        'entries: for entry in entries {
            let judgement = entry.judgement.get();
            self.all.push(Node {
                keyword: keyword_of(judgement),
                list,
                place,
                number: self.judgements,
            })?;
            place = place.saturating_add(1);
            self.judgements = match self.judgements.checked_add(numbers_of(judgement)?) {
                Some(sum) => sum,
                None => return Err(NoMemory),
            };
        }
        Ok(())
    }

    /// The nodes of a grammar. Judgements or nodes that no u32 counts are want of memory.
    pub fn new(alloc: Global, flat: &Flat) -> Result<Nodes, NoMemory> {
        let mut nodes = Nodes {
            all: Vec::new(alloc),
            concretes: Vec::new(alloc),
            runs: Vec::new(alloc),
            judgements: 0,
        };
        nodes.add(List::Params, flat.params.as_slice())?;
        nodes.add(List::Opers, flat.opers.as_slice())?;
        let mut concrete = 0u32;
        'concretes: for one in flat.concretes.as_slice() {
            let first = count(nodes.all.as_slice())?;
            nodes.concretes.push(first)?;
            nodes.add(List::Concrete(concrete), one.judgements.as_slice())?;
            concrete = concrete.saturating_add(1);
        }
        let end = count(nodes.all.as_slice())?;
        nodes.concretes.push(end)?;
        nodes.add_runs(flat)?;
        Ok(nodes)
    }

    /// Whether two nodes are of one module.
    fn are_beside(&self, flat: &Flat, one: u32, other: u32) -> bool {
        match (self.entry(flat, one), self.entry(flat, other)) {
            (Some(a), Some(b)) => a.whole.module.as_str() == b.whole.module.as_str(),
            _ => false,
        }
    }

    fn add_runs(&mut self, flat: &Flat) -> Result<(), NoMemory> {
        let mut first = 0u32;
        'nodes: for node in 0..self.named() {
            let next = node.saturating_add(1);
            if next >= self.named() || !self.are_beside(flat, node, next) {
                self.runs.push(Run { first, end: next })?;
                first = next;
            }
        }
        Ok(())
    }

    /// How many nodes are parameter types and opers: these come first.
    pub fn named(&self) -> u32 {
        self.first(0).min(self.len())
    }

    /// How many nodes there are. It takes no memory.
    pub fn len(&self) -> u32 {
        u32::try_from(self.all.len()).unwrap_or(NONE)
    }

    /// The node of a number.
    pub fn node(&self, number: u32) -> Option<Node> {
        self.all.get(number as usize).copied()
    }

    /// The keyword of a node; that of a flag, which is typed nowhere, past the end.
    pub fn keyword(&self, node: u32) -> Keyword {
        match self.node(node) {
            Some(one) => one.keyword,
            None => Keyword::Flags,
        }
    }

    /// Where the nodes of a concrete module begin.
    pub fn first(&self, concrete: u32) -> u32 {
        at(self.concretes.as_slice(), concrete)
    }

    /// Where the nodes of a concrete module end; no later than they begin past the last one.
    pub fn last(&self, concrete: u32) -> u32 {
        match self.concretes.get(concrete.saturating_add(1) as usize) {
            Some(last) => *last,
            None => 0,
        }
    }

    /// The entry of a node.
    pub fn entry<'f>(&self, flat: &'f Flat, node: u32) -> Option<&'f FlatJudgement> {
        match self.node(node) {
            Some(one) => entry_of(flat, one),
            None => None,
        }
    }
}

/// The entry that a node is.
pub fn entry_of<'f>(flat: &'f Flat, node: Node) -> Option<&'f FlatJudgement> {
    match node.list {
        List::Params => flat.params.as_slice().get(node.place as usize),
        List::Opers => flat.opers.as_slice().get(node.place as usize),
        List::Concrete(concrete) => match flat.concretes.as_slice().get(concrete as usize) {
            Some(one) => one.judgements.as_slice().get(node.place as usize),
            None => None,
        },
    }
}
