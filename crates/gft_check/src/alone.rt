//! One judgement, typed alone.
use crate::checking::Checking;
use crate::references::declared_names;
use crate::state::{State, is_typed};
use gft_core::NoMemory;
use gft_graph::NONE;
use gft_rules::Stop;
use gft_syntax::{Flat, FlatJudgement, Typed};
use gft_types::STR;
use gft_typing::Stopped;
use std::alloc::Global;

impl Checking {
    /// The node whose judgement, or one of whose alternatives, has that number.
    fn node_of(&self, number: u32) -> u32 {
        let mut found = NONE;
        let mut node = 0u32;
        'nodes: for one in self.plan.nodes.all.as_slice() {
            if one.number > number {
                break;
            }
            found = node;
            node = node.saturating_add(1);
        }
        found
    }

    /// Adds the nodes that are named in what is declared for an entry.
    fn add_declared(
        &mut self,
        alloc: Global,
        roots: &mut Vec<u32>,
        entry: &FlatJudgement,
    ) -> Result<(), NoMemory> {
        'declared: for one in entry.declared.as_slice() {
            let names = declared_names(alloc, one.judgement.get())?;
            'names: for name in names.as_slice() {
                let number = self.typing.name_number(alloc, name)?;
                roots.push(self.plan.named.node(number))?;
            }
        }
        Ok(())
    }

    /// A node and what is named in what is declared for it.
    fn roots(&mut self, alloc: Global, flat: &Flat, node: u32) -> Result<Vec<u32>, NoMemory> {
        let mut roots = Vec::new(alloc);
        roots.push(node)?;
        if let Some(entry) = self.plan.nodes.entry(flat, node) {
            self.add_declared(alloc, &mut roots, entry)?;
        }
        Ok(roots)
    }

    /// Compares a typed node with all that is declared for it.
    fn compare_all(&mut self, alloc: Global, flat: &Flat, node: u32) -> Result<(), Stopped> {
        if !is_typed(self.progress.state(node)) {
            return Ok(()); // excluded by the caller: it has what it needs
        }
        let Some(entry) = self.plan.nodes.entry(flat, node) else {
            return Ok(());
        };
        'declared: for one in entry.declared.as_slice() {
            self.compare_node(alloc, flat, node, &one.instance)?;
        }
        Ok(())
    }

    /// Types a node and all that it rests on.
    fn alone(&mut self, alloc: Global, flat: &Flat, node: u32) -> Result<(), Stopped> {
        let roots = self.roots(alloc, flat, node)?;
        let called = self.call(alloc, roots.as_slice())?;
        self.type_all(alloc, flat, called.as_slice())?;
        'ranks: for rank in called.as_slice() {
            let one = self.plan.ranked(*rank);
            if self.progress.state(one) == State::Faulty {
                self.judge(alloc, flat, one)?;
            }
        }
        self.compare_all(alloc, flat, node)
    }

    /// What typing gave for a number; a judgement that is not typed has no type: it is a type
    /// without values.
    fn answer(&mut self, alloc: Global, number: u32) -> Result<Typed, NoMemory> {
        if (number as usize) < self.progress.typed.len() {
            if let Some(typed) = self.progress.typed.swap_remove(number as usize) {
                return Ok(typed);
            }
        }
        // excluded by the caller: the judgement has what it needs
        self.typing.built_type(alloc, STR)
    }
}

/// What typing gives for judgement j: its type, and its term with overloads chosen and subtypes
/// marked. The first rule among those of typing that it breaks, else; also where what it rests on
/// breaks one. Needs an abstract part that is accepted. Time in all that j rests on, after a plan
/// of the whole grammar.
pub fn check_judgement(alloc: Global, flat: &Flat, j: u32) -> Result<Typed, Stop> {
    let mut checking = Checking::new(alloc, flat)?;
    let node = checking.node_of(j);
    match checking.alone(alloc, flat, node) {
        Ok(()) => Ok(checking.answer(alloc, j)?),
        Err(stopped) => Err(checking.typing.stop(alloc, stopped)),
    }
}
