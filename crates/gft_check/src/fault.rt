//! Which of several faults of a module is met first.
use crate::checking::Checking;
use crate::resting::graph_of;
use crate::state::is_fault;
use gft_core::NoMemory;
use gft_graph::{Graph, at, filled, firsts_of, parts_of, put};
use gft_syntax::Flat;
use std::alloc::Global;

/// The nodes of a module in the order of their turns: those of its sequence, then the others that
/// are called, in the order of the grammar.
fn turns_of(alloc: Global, sequence: &[u32], others: &[u32]) -> Result<Vec<u32>, NoMemory> {
    let mut turns = Vec::new(alloc);
    'own: for node in sequence {
        turns.push(*node)?;
    }
    'others: for node in others {
        turns.push(*node)?;
    }
    Ok(turns)
}

/// The place of each node among those in order.
fn keys_of(alloc: Global, nodes: u32, turns: &[u32]) -> Result<Vec<u32>, NoMemory> {
    let mut keys = filled(alloc, nodes, gft_graph::NONE)?;
    let mut key = 0u32;
    'turns: for node in turns {
        if at(keys.as_slice(), *node) == gft_graph::NONE {
            put(&mut keys, *node, key);
        }
        key = key.saturating_add(1);
    }
    Ok(keys)
}

impl Checking {
    /// The nodes at these places, without those of the sequence, in the order of the grammar.
    fn others(
        &self,
        alloc: Global,
        sequence: &[u32],
        called: &[u32],
    ) -> Result<Vec<u32>, NoMemory> {
        let keys = keys_of(alloc, self.plan.nodes.len(), sequence)?;
        let mut others = Vec::new(alloc);
        'called: for rank in called {
            let node = self.plan.ranked(*rank);
            if at(keys.as_slice(), node) == gft_graph::NONE {
                others.push(node)?;
            }
        }
        others.sort()?;
        Ok(others)
    }

    /// Which nodes are faulty.
    fn faulty(&self, alloc: Global) -> Result<Vec<bool>, NoMemory> {
        let mut faulty = Vec::new(alloc);
        'nodes: for node in 0..self.plan.nodes.len() {
            faulty.push(is_fault(self.progress.state(node)))?;
        }
        Ok(faulty)
    }

    /// What rests on what, what is declared for a judgement counted.
    fn whole_graph(&mut self, alloc: Global, flat: &Flat) -> Result<Graph, NoMemory> {
        let plan = &self.plan;
        let typing = &mut self.typing;
        graph_of(
            alloc,
            typing,
            flat,
            &plan.nodes,
            &plan.named,
            &plan.needs,
            true,
        )
    }

    /// The judgement whose fault is met first at the turns of a module, where there is one.
    /// Linear time.
    pub(crate) fn first_fault(
        &mut self,
        alloc: Global,
        flat: &Flat,
        sequence: &[u32],
        called: &[u32],
    ) -> Result<u32, NoMemory> {
        let others = self.others(alloc, sequence, called)?;
        let turns = turns_of(alloc, sequence, others.as_slice())?;
        let keys = keys_of(alloc, self.plan.nodes.len(), turns.as_slice())?;
        let faulty = self.faulty(alloc)?;
        let graph = self.whole_graph(alloc, flat)?;
        let parts = parts_of(alloc, &graph)?;
        let firsts = firsts_of(alloc, &graph, &parts, keys.as_slice(), faulty.as_slice())?;
        let met = firsts.met_at(&parts, turns.as_slice(), firsts.least());
        Ok(at(turns.as_slice(), met))
    }
}
