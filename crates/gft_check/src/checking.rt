//! The typing of a grammar, module by module.
use crate::plan::Plan;
use crate::sequence::{module_name, sequence_of};
use crate::state::{Progress, State};
use gft_core::{Name, NoMemory};
use gft_rules::Stop;
use gft_syntax::{Flat, Module, Typed};
use gft_typing::{Stopped, Typing};
use sqlite_items::Items;
use std::alloc::Global;

/// The typing of the judgements of one resolved grammar, module by module.
#[derive(Drop)]
pub struct Checking {
    pub(crate) plan: Plan,
    pub(crate) typing: Typing,
    pub(crate) progress: Progress,
}

impl Checking {
    /// Nothing is typed yet. Time all but linear in the grammar.
    pub fn new(alloc: Global, flat: &Flat) -> Result<Checking, NoMemory> {
        let mut typing = Typing::new(alloc)?;
        let plan = Plan::new(alloc, &mut typing, flat)?;
        let progress = Progress::new(alloc, plan.nodes.len(), plan.nodes.judgements)?;
        Ok(Checking {
            plan,
            typing,
            progress,
        })
    }

    /// Types what a module has, after the modules that it needs: its own judgements at their
    /// turns, what they still name of interfaces and incomplete modules, what it gives for an
    /// interface, and of a concrete module the linearizations that it inherits again. The first
    /// refusal at its turn, where there is one; after it nothing more is to be typed. `flat` is
    /// that of `new`, and `module` is as the resolution of names gave it.
    pub fn module(&mut self, alloc: Global, flat: &Flat, module: &Module) -> Result<(), Stop> {
        match self.pass(alloc, flat, module) {
            Ok(()) => Ok(()),
            Err(stopped) => Err(self.typing.stop(alloc, stopped)),
        }
    }

    fn pass(&mut self, alloc: Global, flat: &Flat, module: &Module) -> Result<(), Stopped> {
        let sequence = sequence_of(alloc, flat, &self.plan.nodes, module)?;
        let called = self.call(alloc, sequence.as_slice())?;
        self.type_all(alloc, flat, called.as_slice())?;
        let name = module_name(module);
        self.compare_own(alloc, flat, name, sequence.as_slice())?;
        if self.progress.faults > 0 {
            let node = self.first_fault(alloc, flat, sequence.as_slice(), called.as_slice())?;
            return self.refuse(alloc, flat, name, node);
        }
        self.compare_inherited(alloc, flat, name)
    }

    /// The refusal of a judgement at its turn.
    fn refuse(
        &mut self,
        alloc: Global,
        flat: &Flat,
        module: &Name,
        node: u32,
    ) -> Result<(), Stopped> {
        match self.progress.state(node) {
            State::Other => self.compare_node(alloc, flat, node, module),
            _ => self.judge(alloc, flat, node),
        }
    }

    /// Calls the nodes that wait among some, and all that wait of what they rest on: their places
    /// in the order in which what a node rests on comes first.
    pub(crate) fn call(&mut self, alloc: Global, nodes: &[u32]) -> Result<Vec<u32>, NoMemory> {
        let mut ranks: Vec<u32> = Vec::new(alloc);
        let mut pending: Vec<u32> = Vec::new(alloc);
        'nodes: for node in nodes {
            pending.push(*node)?;
        }
        'pending: for _ in 0..u64::MAX {
            let Some(node) = pending.pop() else {
                break;
            };
            if self.progress.state(node) == State::Waiting {
                self.progress.set_state(node, State::Called);
                ranks.push(self.plan.rank(node))?;
                self.add_below(&mut pending, node)?;
            }
        }
        ranks.sort()?;
        Ok(ranks)
    }

    /// Adds what a node rests on.
    fn add_below(&self, pending: &mut Vec<u32>, node: u32) -> Result<(), NoMemory> {
        let rests = &self.plan.rests;
        'edges: for edge in rests.first(node)..rests.last(node) {
            pending.push(rests.target(edge))?;
        }
        Ok(())
    }

    /// Types the nodes at these places of the order.
    pub(crate) fn type_all(
        &mut self,
        alloc: Global,
        flat: &Flat,
        ranks: &[u32],
    ) -> Result<(), NoMemory> {
        'ranks: for rank in ranks {
            let node = self.plan.ranked(*rank);
            let state = self.outcome(alloc, flat, node)?;
            self.progress.set_state(node, state);
        }
        Ok(())
    }

    /// Whether something that a node rests on, and that does not rest on it, is not typed.
    fn is_held_up(&self, node: u32) -> bool {
        let rests = &self.plan.rests;
        'edges: for edge in rests.first(node)..rests.last(node) {
            let below = rests.target(edge);
            if !self.plan.are_joined(node, below) && self.progress.state(below) != State::Done {
                return true;
            }
        }
        false
    }

    /// Types one node, and says how it went.
    fn outcome(&mut self, alloc: Global, flat: &Flat, node: u32) -> Result<State, NoMemory> {
        if self.is_held_up(node) {
            return Ok(State::Left);
        }
        match self.judge(alloc, flat, node) {
            Ok(()) => Ok(State::Done),
            Err(Stopped::Refused) => Ok(State::Faulty),
            Err(Stopped::NoMemory) => Err(NoMemory),
        }
    }

    /// What typing gave, by the numbers of judgements: for the grammar's `typed`. It takes no
    /// memory.
    pub fn into_typed(self) -> Items<Option<Typed>> {
        let Checking {
            plan: _,
            typing: _,
            progress,
        } = self;
        progress.into_typed()
    }
}
