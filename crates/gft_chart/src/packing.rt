//! The packed forest of what a chart found.
use crate::count::{NONE, count, read};
use crate::integer::integer;
use crate::items::{Group, Item, Items, Node};
use crate::tables::{Origin, Rule, Tables};
use gft_core::{NoMemory, Token};
use gft_pmcfg::{Alt, Forest, Node as ForestNode};
use indexmap::IndexMap;
use sqlite_items::Items as List;
use std::alloc::Global;

/// A component with its first word and the word after its last.
type Pin = (u32, u32, u32);

/// The nodes that a forest has, in the order of their numbers. Two nodes of a chart with one
/// nonterminal and equal spans, whose components without words were read in different orders, are
/// one node here.
#[derive(Drop)]
pub struct Packing {
    alloc: Global,
    /// For each node of the chart its number in the forest, or `NONE`.
    numbers: Vec<u32>,
    /// For each node of the forest a node of the chart, or a nonterminal: its hole.
    reached: Vec<u32>,
    /// The numbers of nodes with several components without words at one place, by nonterminal and
    /// spans.
    twisted: IndexMap<Vec<u32>, u32>,
}

/// A group and its node.
#[derive(Clone, Copy)]
struct Link {
    group: Group,
    node: Node,
}

impl Items {
    fn link(&self, node: u32) -> Option<Link> {
        let Some(&node) = self.nodes.get(node as usize) else {
            return None;
        };
        match self.groups.get(node.group as usize) {
            Some(&group) => Some(Link { group, node }),
            None => None,
        }
    }

    /// The nonterminal of a node.
    fn nonterminal(&self, tables: &Tables, node: u32) -> u32 {
        let mut at = node;
        for _ in 0..self.nodes.len() {
            match self.link(at) {
                Some(link) if link.group.of >= tables.categories => {
                    at = link.group.of - tables.categories
                }
                Some(link) => return link.group.of,
                None => return NONE,
            }
        }
        NONE
    }

    /// Whether two components without words were read one after the other.
    fn is_twisted(&self, tables: &Tables, node: u32) -> bool {
        let mut at = node;
        let mut was_empty = false;
        for _ in 0..self.nodes.len() {
            let Some(link) = self.link(at) else {
                return false;
            };
            let is_empty = link.group.position == link.node.end;
            if is_empty && was_empty {
                return true;
            }
            if link.group.of < tables.categories {
                return false;
            }
            was_empty = is_empty;
            at = link.group.of - tables.categories;
        }
        false
    }

    /// The spans of a node, by component.
    fn pins(&self, alloc: Global, tables: &Tables, node: u32) -> Result<Vec<Pin>, NoMemory> {
        let mut pins = Vec::new(alloc);
        let mut at = node;
        'links: for _ in 0..self.nodes.len() {
            let Some(link) = self.link(at) else {
                break 'links;
            };
            pins.push((link.group.component, link.group.position, link.node.end))?;
            if link.group.of < tables.categories {
                break 'links;
            }
            at = link.group.of - tables.categories;
        }
        pins.sort_unstable();
        Ok(pins)
    }
}

/// A nonterminal and spans as one list of numbers.
fn key_of(alloc: Global, nonterminal: u32, pins: &Vec<Pin>) -> Result<Vec<u32>, NoMemory> {
    let mut key = Vec::new(alloc);
    key.push(nonterminal)?;
    for pin in pins.iter() {
        key.push(pin.0)?;
        key.push(pin.1)?;
        key.push(pin.2)?;
    }
    Ok(key)
}

impl Packing {
    /// Nothing packed yet, of the nodes of these items.
    pub fn new(alloc: Global, items: &Items) -> Result<Packing, NoMemory> {
        let mut packing = Packing {
            alloc,
            numbers: Vec::new(alloc),
            reached: Vec::new(alloc),
            twisted: IndexMap::new(alloc),
        };
        packing.numbers.resize(items.nodes.len(), NONE)?;
        Ok(packing)
    }

    fn reach(&mut self, value: u32) -> Result<u32, NoMemory> {
        let number = count(self.reached.len())?;
        self.reached.push(value)?;
        Ok(number)
    }

    fn twisted_number(
        &mut self,
        tables: &Tables,
        items: &Items,
        node: u32,
    ) -> Result<u32, NoMemory> {
        let pins = items.pins(self.alloc, tables, node)?;
        let key = key_of(self.alloc, items.nonterminal(tables, node), &pins)?;
        if let Some(&number) = self.twisted.get(&key) {
            return Ok(number);
        }
        let number = self.reach(node.saturating_add(tables.categories))?;
        self.twisted.insert(key, number)?;
        Ok(number)
    }

    /// The number of a node of the chart in the forest.
    fn node_number(&mut self, tables: &Tables, items: &Items, node: u32) -> Result<u32, NoMemory> {
        let known = read(&self.numbers, node as usize);
        if known != NONE {
            return Ok(known);
        }
        let number = if items.is_twisted(tables, node) {
            self.twisted_number(tables, items, node)?
        } else {
            self.reach(node.saturating_add(tables.categories))?
        };
        if let Some(place) = self.numbers.get_mut(node as usize) {
            *place = number;
        }
        Ok(number)
    }

    /// The number in the forest of a nonterminal, by its hole, or of a node.
    pub fn root_number(
        &mut self,
        tables: &Tables,
        items: &Items,
        value: u32,
    ) -> Result<u32, NoMemory> {
        if value < tables.categories {
            self.reach(value)
        } else {
            self.node_number(tables, items, value - tables.categories)
        }
    }

    /// Puts the roots in; each value differs from the others. The numbers come in order, each once.
    pub fn add_roots(
        &mut self,
        tables: &Tables,
        items: &Items,
        values: &Vec<u32>,
    ) -> Result<Vec<u32>, NoMemory> {
        let mut roots = Vec::new(self.alloc);
        for value in values.iter() {
            let number = self.root_number(tables, items, *value)?;
            roots.push(number)?;
        }
        roots.sort_unstable();
        roots.dedup();
        Ok(roots)
    }

    fn children(
        &mut self,
        tables: &Tables,
        items: &Items,
        item: Item,
        arity: u32,
    ) -> Result<List<Option<u32>>, NoMemory> {
        let mut children = List::new(self.alloc);
        for i in 0..arity {
            let value = items.argument(tables, item, i);
            let child = if value < tables.categories {
                None
            } else {
                Some(self.node_number(tables, items, value - tables.categories)?)
            };
            children.push(child)?;
        }
        Ok(children)
    }

    /// The alternative that a finished item is.
    fn alternative(
        &mut self,
        tables: &Tables,
        items: &Items,
        item: Item,
        rule: Rule,
        start: u32,
    ) -> Result<Option<Alt>, NoMemory> {
        match rule.origin {
            Origin::Production(number) => {
                let children = self.children(tables, items, item, rule.arity)?;
                Ok(Some(Alt::App(number, children)))
            }
            Origin::Int => Ok(int_at(items, start)),
            Origin::Str => str_at(self.alloc, items, start),
            // A root's production is no alternative of a node of the grammar.
            Origin::Ref => Ok(None),
        }
    }

    fn alternatives(
        &mut self,
        tables: &Tables,
        items: &Items,
        node: u32,
    ) -> Result<List<Alt>, NoMemory> {
        let mut alts = List::new(self.alloc);
        let Some(link) = items.link(node) else {
            return Ok(alts);
        };
        let mut at = link.node.finished;
        'finished: for _ in 0..items.items.len() {
            let Some(&item) = items.items.get(at as usize) else {
                break 'finished;
            };
            if let Some(rule) = items.rule_of(tables, item) {
                let alt = self.alternative(tables, items, item, rule, link.group.position)?;
                if let Some(alt) = alt {
                    alts.push(alt)?;
                }
            }
            at = read(&items.links, at as usize);
        }
        Ok(alts)
    }

    fn node(&mut self, tables: &Tables, items: &Items, value: u32) -> Result<ForestNode, NoMemory> {
        if value < tables.categories {
            return Ok(ForestNode {
                nonterminal: value,
                pins: List::new(self.alloc),
                alts: List::new(self.alloc),
            });
        }
        let node = value - tables.categories;
        let pins = items.pins(self.alloc, tables, node)?;
        let alts = self.alternatives(tables, items, node)?;
        Ok(ForestNode {
            nonterminal: items.nonterminal(tables, node),
            pins: List::from_vec(pins),
            alts,
        })
    }

    /// The forest under the roots that were put in.
    pub fn forest(
        &mut self,
        tables: &Tables,
        items: &Items,
        roots: Vec<u32>,
    ) -> Result<Forest, NoMemory> {
        let mut nodes = List::new(self.alloc);
        'reached: for at in 0..NONE {
            let value = read(&self.reached, at as usize);
            if value == NONE {
                break 'reached;
            }
            let node = self.node(tables, items, value)?;
            nodes.push(node)?;
        }
        Ok(Forest {
            nodes,
            roots: List::from_vec(roots),
        })
    }
}

fn int_at(items: &Items, at: u32) -> Option<Alt> {
    let word = items.words.get(at as usize)?;
    let value = integer(word.as_str())?;
    Some(Alt::Int(value))
}

fn str_at(alloc: Global, items: &Items, at: u32) -> Result<Option<Alt>, NoMemory> {
    let word: Option<&Token> = items.words.get(at as usize);
    match word {
        Some(word) => Ok(Some(Alt::Str(word.copy(alloc)?))),
        None => Ok(None),
    }
}

/// What the refs that were read to the end used: nonterminals by holes, and nodes; each once.
fn root_values(alloc: Global, tables: &Tables, items: &Items) -> Result<Vec<u32>, NoMemory> {
    let mut values = Vec::new(alloc);
    let mut at = match items.link(items.last.root) {
        Some(link) => link.node.finished,
        None => NONE,
    };
    'finished: for _ in 0..items.items.len() {
        let Some(&item) = items.items.get(at as usize) else {
            break 'finished;
        };
        values.push(items.argument(tables, item, 0))?;
        at = read(&items.links, at as usize);
    }
    values.sort_unstable();
    values.dedup();
    Ok(values)
}

/// The forest of all runs for the words.
pub fn sentence_forest(alloc: Global, tables: &Tables, items: &Items) -> Result<Forest, NoMemory> {
    let values = root_values(alloc, tables, items)?;
    let mut packing = Packing::new(alloc, items)?;
    let roots = packing.add_roots(tables, items, &values)?;
    packing.forest(tables, items, roots)
}
