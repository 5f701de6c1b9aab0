//! Trees as shared nodes, and their unification. Equal nodes are joined, and what was joined last
//! can be parted again.
use crate::lookup::function_named;
use crate::numbers::{NONE, at, put};
use gft_core::{Name, NoMemory, Token, Tree};
use gft_pmcfg::{AType, Fun};
use sqlite_items::Items;
use std::alloc::Global;

/// A node: a function by its number, applied to the nodes that stand in the list of arguments from
/// there on; a literal, a word by its number; or a variable.
#[derive(Clone, Copy)]
pub enum Node {
    App(u32, u32, u32),
    Int(u128),
    Str(u32),
    Var,
}

/// How far everything was, to be parted again up to there.
#[derive(Clone, Copy)]
pub struct Mark {
    nodes: usize,
    arguments: usize,
    words: usize,
    joined: usize,
}

/// Nodes, each with the node that it is joined to. A node that is joined to none stands for all
/// that are joined to it; it is a variable only where all of them are.
#[derive(Drop)]
pub struct Terms<'a> {
    alloc: Global,
    funs: &'a [Fun],
    nodes: Vec<Node>,
    arguments: Vec<u32>,
    words: Vec<&'a Token>,
    up: Vec<u32>,
    heights: Vec<u32>,
    /// Each node that was joined, to which, and the height of that one before.
    joined: Vec<(u32, u32, u32)>,
    work: Vec<(u32, u32)>,
}

impl<'a> Terms<'a> {
    /// No node. It takes no memory.
    pub fn new(alloc: Global, funs: &'a [Fun]) -> Terms<'a> {
        Terms {
            alloc,
            funs,
            nodes: Vec::new(alloc),
            arguments: Vec::new(alloc),
            words: Vec::new(alloc),
            up: Vec::new(alloc),
            heights: Vec::new(alloc),
            joined: Vec::new(alloc),
            work: Vec::new(alloc),
        }
    }

    /// How many nodes there are.
    pub fn len(&self) -> u32 {
        u32::try_from(self.nodes.len()).unwrap_or(NONE)
    }

    /// Adds a node and gives its number. As many nodes as fit a number are want of memory.
    fn push(&mut self, node: Node) -> Result<u32, NoMemory> {
        let number = self.len();
        if number == NONE {
            return Err(NoMemory);
        }
        self.nodes.push(node)?;
        self.up.push(number)?;
        self.heights.push(0)?;
        Ok(number)
    }

    /// A new variable.
    pub fn variable(&mut self) -> Result<u32, NoMemory> {
        self.push(Node::Var)
    }

    /// An integer.
    pub fn integer(&mut self, value: u128) -> Result<u32, NoMemory> {
        self.push(Node::Int(value))
    }

    /// A word.
    pub fn word(&mut self, word: &'a Token) -> Result<u32, NoMemory> {
        let number = u32::try_from(self.words.len()).unwrap_or(NONE);
        self.words.push(word)?;
        self.push(Node::Str(number))
    }

    /// A function with its arguments.
    pub fn application(&mut self, fun: u32, arguments: &[u32]) -> Result<u32, NoMemory> {
        let first = u32::try_from(self.arguments.len()).unwrap_or(NONE);
        let count = u32::try_from(arguments.len()).unwrap_or(NONE);
        'arguments: for argument in arguments {
            self.arguments.push(*argument)?;
        }
        self.push(Node::App(fun, first, count))
    }

    /// A node by its number.
    pub fn node(&self, number: u32) -> Node {
        self.nodes
            .get(number as usize)
            .copied()
            .unwrap_or(Node::Var)
    }

    /// An argument by its place in the list of arguments.
    pub fn argument(&self, place: u32) -> u32 {
        at(self.arguments.as_slice(), place)
    }

    /// A word by its number.
    pub fn word_at(&self, number: u32) -> Option<&'a Token> {
        self.words.get(number as usize).copied()
    }

    /// The node that stands for a node. No chain has more than some log2 n links.
    pub fn root(&self, number: u32) -> u32 {
        let mut root = number;
        'links: for _ in 0..self.up.len() {
            let up = at(self.up.as_slice(), root);
            if up == root || up == NONE {
                break;
            }
            root = up;
        }
        root
    }

    /// A tree of a signature, in which arguments stand for variables.
    pub fn tree(&mut self, tree: &'a Tree, arguments: &[u32]) -> Result<u32, NoMemory> {
        tree_in(self, tree, arguments)
    }

    /// The indices of a type of a signature.
    pub fn indices(&mut self, t: &'a AType, arguments: &[u32]) -> Result<Vec<u32>, NoMemory> {
        trees_in(self, t.args.as_slice(), arguments)
    }

    /// Joins a node that stands for itself to another one.
    fn link(&mut self, child: u32, parent: u32) -> Result<(), NoMemory> {
        let height = at(self.heights.as_slice(), parent);
        let least = at(self.heights.as_slice(), child).saturating_add(1);
        self.joined.push((child, parent, height))?;
        put(&mut self.up, child, parent);
        put(&mut self.heights, parent, height.max(least));
        Ok(())
    }

    /// Joins two nodes that stand for themselves, both variables or neither one.
    fn link_alike(&mut self, a: u32, b: u32) -> Result<(), NoMemory> {
        if at(self.heights.as_slice(), a) < at(self.heights.as_slice(), b) {
            return self.link(a, b);
        }
        self.link(b, a)
    }

    /// Whether two words are equal.
    fn same_words(&self, a: u32, b: u32) -> bool {
        match self.word_at(a) {
            Some(a) => match self.word_at(b) {
                Some(b) => a.as_str() == b.as_str(),
                None => false,
            },
            None => false,
        }
    }

    /// Adds the arguments of two applications to what has to become equal.
    fn push_pairs(&mut self, first: u32, other: u32, count: u32) -> Result<(), NoMemory> {
        'pairs: for k in 0..count {
            let a = self.argument(first.saturating_add(k));
            let b = self.argument(other.saturating_add(k));
            self.work.push((a, b))?;
        }
        Ok(())
    }

    /// Makes two nodes equal that stand for themselves and are no variables. False where their
    /// heads keep them apart.
    fn join_heads(&mut self, a: u32, b: u32) -> Result<bool, NoMemory> {
        match self.node(a) {
            Node::App(f, first, count) => match self.node(b) {
                Node::App(g, other, others) => {
                    if f != g || count != others {
                        return Ok(false);
                    }
                    self.link_alike(a, b)?;
                    self.push_pairs(first, other, count)?;
                    Ok(true)
                }
                _ => Ok(false),
            },
            Node::Int(value) => match self.node(b) {
                Node::Int(other) => Ok(value == other),
                _ => Ok(false),
            },
            Node::Str(word) => match self.node(b) {
                Node::Str(other) => Ok(self.same_words(word, other)),
                _ => Ok(false),
            },
            Node::Var => Ok(false),
        }
    }

    /// Whether a node is a variable.
    pub fn is_variable(&self, number: u32) -> bool {
        match self.node(number) {
            Node::Var => true,
            _ => false,
        }
    }

    /// Makes two nodes equal at their heads. False where that cannot be.
    fn join(&mut self, a: u32, b: u32) -> Result<bool, NoMemory> {
        let a = self.root(a);
        let b = self.root(b);
        if a == b {
            return Ok(true);
        }
        if self.is_variable(a) {
            if self.is_variable(b) {
                self.link_alike(a, b)?;
            } else {
                self.link(a, b)?;
            }
            return Ok(true);
        }
        if self.is_variable(b) {
            self.link(b, a)?;
            return Ok(true);
        }
        self.join_heads(a, b)
    }

    /// Makes two nodes equal, but does not see where a variable would have to stand within itself.
    /// False where no trees for the variables make them equal. Each node is joined at most once, so
    /// there are at most as many pairs as arguments.
    pub fn unify(&mut self, a: u32, b: u32) -> Result<bool, NoMemory> {
        self.work.clear();
        self.work.push((a, b))?;
        'pairs: for _ in 0..u64::MAX {
            let Some((a, b)) = self.work.pop() else {
                return Ok(true);
            };
            if !self.join(a, b)? {
                return Ok(false);
            }
        }
        Ok(true)
    }

    /// Makes nodes pairwise equal. False where that cannot be, or where there are not as many.
    pub fn unify_all(&mut self, xs: &[u32], ys: &[u32]) -> Result<bool, NoMemory> {
        if xs.len() != ys.len() {
            return Ok(false);
        }
        'pairs: for k in 0..xs.len() {
            if !self.unify(xs[k], ys[k])? {
                return Ok(false);
            }
        }
        Ok(true)
    }

    /// How far everything is.
    pub fn mark(&self) -> Mark {
        Mark {
            nodes: self.nodes.len(),
            arguments: self.arguments.len(),
            words: self.words.len(),
            joined: self.joined.len(),
        }
    }

    /// Parts the last nodes that were joined.
    fn part(&mut self) {
        if let Some((child, parent, height)) = self.joined.pop() {
            put(&mut self.up, child, child);
            put(&mut self.heights, parent, height);
        }
    }

    /// Parts and takes away all that came after a mark.
    pub fn undo(&mut self, mark: Mark) {
        'joined: for _ in mark.joined..self.joined.len() {
            self.part();
        }
        self.nodes.truncate(mark.nodes);
        self.up.truncate(mark.nodes);
        self.heights.truncate(mark.nodes);
        self.arguments.truncate(mark.arguments);
        self.words.truncate(mark.words);
    }

    /// The name of a function.
    pub fn name(&self, fun: u32) -> Option<&'a Name> {
        let funs = self.funs;
        match funs.get(fun as usize) {
            Some(fun) => Some(&fun.name),
            None => None,
        }
    }

    /// The allocator.
    pub fn alloc(&self) -> Global {
        self.alloc
    }

    /// The functions of the signature.
    pub fn funs(&self) -> &'a [Fun] {
        self.funs
    }
}

#[cycle(tree_in)]
fn tree_in<'a>(terms: &mut Terms<'a>, tree: &'a Tree, arguments: &[u32]) -> Result<u32, NoMemory> {
    match tree {
        Tree::App(f, trees) => {
            let fun = function_named(terms.funs, f.as_str()).unwrap_or(NONE);
            let nodes = trees_in(terms, trees.as_slice(), arguments)?;
            terms.application(fun, nodes.as_slice())
        }
        Tree::Int(value) => terms.integer(*value),
        Tree::Str(word) => terms.word(word),
        Tree::Hole(k) => match k.checked_sub(1) {
            Some(place) => Ok(at(arguments, place)),
            // excluded by the grammar's invariant: variables are numbered from 1
            None => terms.variable(),
        },
    }
}

#[cycle(tree_in)]
fn trees_in<'a>(
    terms: &mut Terms<'a>,
    trees: &'a [Tree],
    arguments: &[u32],
) -> Result<Vec<u32>, NoMemory> {
    let mut nodes = Vec::new(terms.alloc);
    'each: for tree in trees {
        nodes.push(tree_in(terms, tree, arguments)?)?;
    }
    Ok(nodes)
}
