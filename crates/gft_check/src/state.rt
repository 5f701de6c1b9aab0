//! How far the typing of judgements has come.
use gft_core::NoMemory;
use gft_syntax::Typed;
use gft_types::{STR, TypeId};
use sqlite_items::Items;
use std::alloc::Global;

/// How far the typing of a judgement has come.
#[derive(Clone, Copy, PartialEq, Eq)]
pub enum State {
    /// Its turn has not come.
    Waiting,
    /// It is typed in the module at hand.
    Called,
    /// It is typed, or needs no typing.
    Done,
    /// It breaks a rule.
    Faulty,
    /// It is typed, and has not the type that an interface declares.
    Other,
    /// What it rests on breaks a rule.
    Left,
}

/// Whether a judgement in that state is refused at its turn.
pub fn is_fault(state: State) -> bool {
    match state {
        State::Faulty => true,
        State::Other => true,
        _ => false,
    }
}

/// Whether a judgement in that state is typed.
pub fn is_typed(state: State) -> bool {
    match state {
        State::Done => true,
        State::Other => true,
        _ => false,
    }
}

/// The state of each judgement, the type of each `lincat`, and what typing gave by numbers of
/// judgements.
#[derive(Drop)]
pub struct Progress {
    states: Vec<State>,
    types: Vec<TypeId>,
    pub typed: Vec<Option<Typed>>,
    /// How many judgements are faulty.
    pub faults: u32,
}

/// As many times the same value.
fn repeated<T: Copy>(alloc: Global, count: u32, value: T) -> Result<Vec<T>, NoMemory> {
    let mut values = Vec::new(alloc);
    'values: for _ in 0..count {
        values.push(value)?;
    }
    Ok(values)
}

fn nothing_typed(alloc: Global, count: u32) -> Result<Vec<Option<Typed>>, NoMemory> {
    let mut typed = Vec::new(alloc);
    'typed: for _ in 0..count {
        typed.push(None)?;
    }
    Ok(typed)
}

/// Puts a value at a place, nowhere past the end.
pub fn place<T: Drop>(values: &mut Vec<T>, at: u32, value: T) {
    if let Some(here) = values.get_mut(at as usize) {
        *here = value;
    }
}

impl Progress {
    /// So many nodes wait, and so many judgements are not typed.
    pub fn new(alloc: Global, nodes: u32, judgements: u32) -> Result<Progress, NoMemory> {
        let states = repeated(alloc, nodes, State::Waiting)?;
        let types = repeated(alloc, nodes, STR)?;
        let typed = nothing_typed(alloc, judgements)?;
        Ok(Progress {
            states,
            types,
            typed,
            faults: 0,
        })
    }

    /// The state of a node; one past the end needs no typing.
    pub fn state(&self, node: u32) -> State {
        match self.states.get(node as usize) {
            Some(state) => *state,
            None => State::Done,
        }
    }

    /// Sets the state of a node.
    pub fn set_state(&mut self, node: u32, state: State) {
        if is_fault(state) {
            self.faults = self.faults.saturating_add(1);
        }
        if let Some(here) = self.states.get_mut(node as usize) {
            *here = state;
        }
    }

    /// The type of a node that is a `lincat` and is typed.
    pub fn lincat(&self, node: u32) -> TypeId {
        match self.types.get(node as usize) {
            Some(of) => *of,
            None => STR, // excluded by needs_of
        }
    }

    /// Keeps the type of a `lincat`.
    pub fn set_lincat(&mut self, node: u32, of: TypeId) {
        if let Some(here) = self.types.get_mut(node as usize) {
            *here = of;
        }
    }

    /// What typing gave, by numbers of judgements.
    pub fn into_typed(self) -> Items<Option<Typed>> {
        let Progress {
            states: _,
            types: _,
            typed,
            faults: _,
        } = self;
        Items::from_vec(typed)
    }
}
