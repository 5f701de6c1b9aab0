//! What a chart holds: items, groups (what is awaited, and where) and nodes (what was found, and
//! where).
use crate::count::{NONE, count, place, read};
use crate::tables::{Origin, Rule, Symbol, Tables};
use gft_core::{NoMemory, Token};
use std::alloc::Global;

/// A sequence read up to a place. It ends at the word that was read when it was made.
#[derive(Clone, Copy)]
pub struct Item {
    pub dot: u32,
    /// The group that it was predicted for.
    pub group: u32,
    /// Where its arguments begin, among those of the tables and, after them, of the chart:
    /// nonterminals, or nodes, whose components were read.
    pub arguments: u32,
}

/// A component of a nonterminal or of a node, awaited from a word on.
#[derive(Clone, Copy)]
pub struct Group {
    pub of: u32,
    pub component: u32,
    pub position: u32,
    /// The last item that awaits it.
    pub waiting: u32,
    /// Its node that was found last.
    pub found: u32,
    /// The group of the same node that was made before it at this word.
    pub next: u32,
}

/// What a group was found to be, up to a word.
#[derive(Clone, Copy)]
pub struct Node {
    pub group: u32,
    pub end: u32,
    /// The last finished item of it.
    pub finished: u32,
    /// The last group that awaits a further component of it.
    pub groups: u32,
}

/// An item whose next part was read before: its words come again, up to a word of the text.
#[derive(Clone, Copy)]
pub struct Again {
    pub item: u32,
    /// The word that comes next, by its place in the text, and the end of the span.
    pub at: u32,
    pub end: u32,
}

/// The lengths of a chart's tables and what it knows of its last word.
#[derive(Clone, Copy)]
pub struct Mark {
    pub items: usize,
    pub groups: usize,
    pub nodes: usize,
    pub arguments: usize,
    pub scanning: usize,
    pub again: usize,
    pub words: usize,
    pub last: Last,
}

/// Where what belongs to the last word begins in the tables.
#[derive(Clone, Copy)]
pub struct Last {
    pub position: u32,
    pub group: u32,
    pub node: u32,
    pub scanning: u32,
    pub again: u32,
    /// The first item that was not looked at.
    pub agenda: u32,
    /// The node of the root over all words, or `NONE`.
    pub root: u32,
}

/// The tables of a chart. They only grow, but for a word that is taken back. What `Group::found`,
/// `Node::groups` and `latest` say counts only where the group or node named was made at the last
/// word and is the one that is sought, so that nothing needs to be taken back there.
#[derive(Drop)]
pub struct Items {
    pub items: Vec<Item>,
    /// For each item the next one that awaits the same group, or, of a finished item, the next one
    /// of its node.
    pub links: Vec<u32>,
    pub groups: Vec<Group>,
    pub nodes: Vec<Node>,
    pub arguments: Vec<u32>,
    /// Items that await a word, and items that await words again.
    pub scanning: Vec<u32>,
    pub again: Vec<Again>,
    pub words: Vec<Token>,
    /// For each slot the group that was made last.
    pub latest: Vec<u32>,
    pub last: Last,
}

impl Items {
    /// No items, with room for the latest of so many slots.
    pub fn new(alloc: Global, slots: u32) -> Result<Items, NoMemory> {
        let mut items = Items {
            items: Vec::new(alloc),
            links: Vec::new(alloc),
            groups: Vec::new(alloc),
            nodes: Vec::new(alloc),
            arguments: Vec::new(alloc),
            scanning: Vec::new(alloc),
            again: Vec::new(alloc),
            words: Vec::new(alloc),
            latest: Vec::new(alloc),
            last: Last {
                position: 0,
                group: 0,
                node: 0,
                scanning: 0,
                again: 0,
                agenda: 0,
                root: NONE,
            },
        };
        items.latest.resize(slots as usize, NONE)?;
        Ok(items)
    }

    /// How much there is now, to come back to.
    pub fn mark(&self) -> Mark {
        Mark {
            items: self.items.len(),
            groups: self.groups.len(),
            nodes: self.nodes.len(),
            arguments: self.arguments.len(),
            scanning: self.scanning.len(),
            again: self.again.len(),
            words: self.words.len(),
            last: self.last,
        }
    }

    /// Takes back all that was added since the mark.
    pub fn restore(&mut self, mark: Mark) {
        self.items.truncate(mark.items);
        self.links.truncate(mark.items);
        self.groups.truncate(mark.groups);
        self.nodes.truncate(mark.nodes);
        self.arguments.truncate(mark.arguments);
        self.scanning.truncate(mark.scanning);
        self.again.truncate(mark.again);
        self.words.truncate(mark.words);
        self.last = mark.last;
    }

    /// Adds an item: its dot, its group and its arguments, by number.
    pub fn add_item(&mut self, dot: u32, group: u32, arguments: u32) -> Result<(), NoMemory> {
        let _number = count(self.items.len())?;
        self.links.push(NONE)?;
        self.items.push(Item {
            dot,
            group,
            arguments,
        })?;
        Ok(())
    }

    /// An argument of an item: a nonterminal, or a node after all nonterminals.
    pub fn argument(&self, tables: &Tables, item: Item, argument: u32) -> u32 {
        let at = place(item.arguments, argument);
        let own = tables.arguments.len();
        if at < own {
            read(&tables.arguments, at)
        } else {
            read(&self.arguments, at - own)
        }
    }

    /// The span of a component of a node, if it was read.
    pub fn pin(&self, tables: &Tables, node: u32, component: u32) -> Option<(u32, u32)> {
        let mut at = node;
        for _ in 0..self.nodes.len() {
            let node = self.nodes.get(at as usize)?;
            let group = self.groups.get(node.group as usize)?;
            if group.component == component {
                return Some((group.position, node.end));
            }
            if group.of < tables.categories {
                return None;
            }
            at = group.of - tables.categories;
        }
        None
    }

    /// The rule of a finished item.
    pub fn rule_of(&self, tables: &Tables, item: Item) -> Option<Rule> {
        match tables.symbol(item.dot)? {
            Symbol::End(rule) => tables.rule(rule),
            _ => None,
        }
    }
}
