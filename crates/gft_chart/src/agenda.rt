//! The consequences of items, until none is left.
use crate::count::{NONE, count, place, read};
use crate::items::{Again, Group, Item, Items, Node};
use crate::tables::{Symbol, Tables};
use gft_core::NoMemory;

impl Items {
    /// The group of what is awaited after the last word; made, with its predicted items, if it is
    /// new.
    pub fn await_group(
        &mut self,
        tables: &Tables,
        of: u32,
        component: u32,
    ) -> Result<u32, NoMemory> {
        let before = self.latest_of(tables, of, component);
        match self.known_group(before, of, component) {
            Some(group) => Ok(group),
            None => self.add_group(tables, of, component),
        }
    }

    /// Where a search for the group begins.
    fn latest_of(&self, tables: &Tables, of: u32, component: u32) -> u32 {
        if of < tables.categories {
            read(&self.latest, tables.slot(of, component))
        } else {
            match self.nodes.get((of - tables.categories) as usize) {
                Some(node) => node.groups,
                None => NONE,
            }
        }
    }

    fn group_here(&self, group: u32, of: u32) -> Option<Group> {
        if group < self.last.group {
            return None;
        }
        match self.groups.get(group as usize) {
            Some(found) if found.of == of => Some(*found),
            _ => None,
        }
    }

    fn known_group(&self, from: u32, of: u32, component: u32) -> Option<u32> {
        let mut link = from;
        'links: for _ in 0..self.groups.len() {
            let group = self.group_here(link, of)?;
            if group.component == component {
                return Some(link);
            }
            link = group.next;
        }
        None
    }

    /// The last group of a node that was made at this word.
    fn head_of(&self, node: u32, of: u32) -> u32 {
        match self.nodes.get(node as usize) {
            Some(node) => match self.group_here(node.groups, of) {
                Some(_) => node.groups,
                None => NONE,
            },
            None => NONE,
        }
    }

    fn push_group(&mut self, of: u32, component: u32, next: u32) -> Result<u32, NoMemory> {
        let number = count(self.groups.len())?;
        self.groups.push(Group {
            of,
            component,
            position: self.last.position,
            waiting: NONE,
            found: NONE,
            next,
        })?;
        Ok(number)
    }

    fn add_group(&mut self, tables: &Tables, of: u32, component: u32) -> Result<u32, NoMemory> {
        if of < tables.categories {
            self.add_nonterminal_group(tables, of, component)
        } else {
            self.add_node_group(tables, of, component)
        }
    }

    fn add_nonterminal_group(
        &mut self,
        tables: &Tables,
        of: u32,
        component: u32,
    ) -> Result<u32, NoMemory> {
        let slot = tables.slot(of, component);
        let number = self.push_group(of, component, NONE)?;
        if let Some(latest) = self.latest.get_mut(slot) {
            *latest = number;
        }
        let (from, to) = tables.predicted_range(slot);
        for at in from..to {
            if let Some(opening) = tables.predicted_at(at) {
                self.add_item(opening.dot, number, opening.arguments)?;
            }
        }
        Ok(number)
    }

    fn add_node_group(
        &mut self,
        tables: &Tables,
        of: u32,
        component: u32,
    ) -> Result<u32, NoMemory> {
        let node = of.saturating_sub(tables.categories);
        let next = self.head_of(node, of);
        let number = self.push_group(of, component, next)?;
        let mut link = NONE;
        if let Some(node) = self.nodes.get_mut(node as usize) {
            node.groups = number;
            link = node.finished;
        }
        'finished: for _ in 0..self.items.len() {
            let Some(&item) = self.items.get(link as usize) else {
                break 'finished;
            };
            self.predict_finished(tables, item, component, number)?;
            link = read(&self.links, link as usize);
        }
        Ok(number)
    }

    /// One more component of what a finished item found.
    fn predict_finished(
        &mut self,
        tables: &Tables,
        item: Item,
        component: u32,
        group: u32,
    ) -> Result<(), NoMemory> {
        match self.rule_of(tables, item) {
            Some(rule) => self.add_item(tables.start(rule, component), group, item.arguments),
            None => Ok(()),
        }
    }

    /// The item one place on, with the node as its argument.
    fn advance(&mut self, tables: &Tables, item: Item, node: u32) -> Result<(), NoMemory> {
        let Some(Symbol::Part(argument, _)) = tables.symbol(item.dot) else {
            return Ok(());
        };
        let arguments = count(place(count(tables.arguments.len())?, count(self.arguments.len())?))?;
        for i in 0..tables.arity_at(item.dot) {
            let value = if i == argument {
                node.saturating_add(tables.categories)
            } else {
                self.argument(tables, item, i)
            };
            self.arguments.push(value)?;
        }
        self.add_item(item.dot.saturating_add(1), item.group, arguments)
    }

    fn advance_all(&mut self, tables: &Tables, from: u32, node: u32) -> Result<(), NoMemory> {
        let mut link = from;
        'waiting: for _ in 0..self.items.len() {
            let Some(&item) = self.items.get(link as usize) else {
                break 'waiting;
            };
            let next = read(&self.links, link as usize);
            self.advance(tables, item, node)?;
            link = next;
        }
        Ok(())
    }

    /// The node of a group that ends here.
    fn node_here(&self, number: u32, group: Group) -> Option<u32> {
        if group.found < self.last.node {
            return None;
        }
        match self.nodes.get(group.found as usize) {
            Some(node) if node.group == number => Some(group.found),
            _ => None,
        }
    }

    fn complete(&mut self, tables: &Tables, number: u32, item: Item) -> Result<(), NoMemory> {
        let Some(&group) = self.groups.get(item.group as usize) else {
            return Ok(());
        };
        match self.node_here(item.group, group) {
            Some(node) => self.complete_again(tables, number, item, node),
            None => self.complete_first(tables, number, item.group, group.waiting),
        }
    }

    fn complete_first(
        &mut self,
        tables: &Tables,
        number: u32,
        group: u32,
        waiting: u32,
    ) -> Result<(), NoMemory> {
        let node = count(self.nodes.len())?;
        let _value = count(place(node, tables.categories))?;
        self.nodes.push(Node {
            group,
            end: self.last.position,
            finished: number,
            groups: NONE,
        })?;
        if let Some(group) = self.groups.get_mut(group as usize) {
            group.found = node;
        }
        if group == 0 {
            self.last.root = node;
        }
        self.advance_all(tables, waiting, node)
    }

    /// One more finished item of a known node: each component that is awaited of the node is
    /// predicted by it.
    fn complete_again(
        &mut self,
        tables: &Tables,
        number: u32,
        item: Item,
        node: u32,
    ) -> Result<(), NoMemory> {
        let mut link = NONE;
        if let Some(node) = self.nodes.get_mut(node as usize) {
            if let Some(next) = self.links.get_mut(number as usize) {
                *next = node.finished;
            }
            node.finished = number;
            link = node.groups;
        }
        'groups: for _ in 0..self.groups.len() {
            let Some(&group) = self.groups.get(link as usize) else {
                break 'groups;
            };
            self.predict_finished(tables, item, group.component, link)?;
            link = group.next;
        }
        Ok(())
    }

    fn await_part(
        &mut self,
        tables: &Tables,
        number: u32,
        item: Item,
        of: u32,
        component: u32,
    ) -> Result<(), NoMemory> {
        let group = self.await_group(tables, of, component)?;
        let mut found = None;
        if let Some(known) = self.groups.get_mut(group as usize) {
            if let Some(next) = self.links.get_mut(number as usize) {
                *next = known.waiting;
            }
            known.waiting = number;
            let known = *known;
            found = self.node_here(group, known);
        }
        match found {
            Some(node) => self.advance(tables, item, node),
            None => Ok(()),
        }
    }

    /// A component that was read before: its words come again.
    fn repeat(&mut self, number: u32, item: Item, span: (u32, u32)) -> Result<(), NoMemory> {
        let (at, end) = span;
        if at == end {
            return self.add_item(item.dot.saturating_add(1), item.group, item.arguments);
        }
        self.again.push(Again {
            item: number,
            at,
            end,
        })?;
        Ok(())
    }

    fn read_part(
        &mut self,
        tables: &Tables,
        number: u32,
        item: Item,
        argument: u32,
        component: u32,
    ) -> Result<(), NoMemory> {
        let of = self.argument(tables, item, argument);
        if of >= tables.categories {
            if let Some(span) = self.pin(tables, of - tables.categories, component) {
                return self.repeat(number, item, span);
            }
        }
        self.await_part(tables, number, item, of, component)
    }

    fn step(&mut self, tables: &Tables, number: u32) -> Result<(), NoMemory> {
        let Some(&item) = self.items.get(number as usize) else {
            return Ok(());
        };
        match tables.symbol(item.dot) {
            Some(Symbol::End(_)) => self.complete(tables, number, item),
            Some(Symbol::Part(argument, component)) => {
                self.read_part(tables, number, item, argument, component)
            }
            Some(Symbol::Word(_) | Symbol::AnyInt | Symbol::AnyString) => {
                self.scanning.push(number)?;
                Ok(())
            }
            None => Ok(()),
        }
    }

    /// Looks at each item that was not looked at.
    pub fn saturate(&mut self, tables: &Tables) -> Result<(), NoMemory> {
        let mut at = self.last.agenda;
        'agenda: while at < NONE && (at as usize) < self.items.len() {
            self.step(tables, at)?;
            at += 1;
        }
        self.last.agenda = at;
        Ok(())
    }
}
