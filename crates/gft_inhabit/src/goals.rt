//! What is still to be filled: goals in lists that share their ends.
use gft_abs::NONE;
use gft_core::NoMemory;
use std::alloc::Global;

/// A node that has to become a closed tree with a run to a nonterminal, within a depth; its type
/// has the indices that stand in the table of indices from there on.
#[derive(Clone, Copy)]
pub struct Goal {
    pub node: u32,
    pub nonterminal: u32,
    pub depth: u32,
    pub first: u32,
    pub count: u32,
}

/// A goal with what comes after it in a list.
#[derive(Clone, Copy)]
struct Cell {
    goal: u32,
    next: u32,
}

/// Goals, lists of goals by their first cells, and indices.
#[derive(Drop)]
pub struct Goals {
    goals: Vec<Goal>,
    cells: Vec<Cell>,
    indices: Vec<u32>,
}

/// How far everything was.
#[derive(Clone, Copy)]
pub struct Place {
    goals: usize,
    cells: usize,
    indices: usize,
}

fn number(len: usize) -> Result<u32, NoMemory> {
    match u32::try_from(len) {
        Ok(number) if number < NONE => Ok(number),
        _ => Err(NoMemory),
    }
}

impl Goals {
    /// No goal. It takes no memory.
    pub fn new(alloc: Global) -> Goals {
        Goals {
            goals: Vec::new(alloc),
            cells: Vec::new(alloc),
            indices: Vec::new(alloc),
        }
    }

    /// Adds a goal whose type has these indices.
    pub fn add(
        &mut self,
        node: u32,
        nonterminal: u32,
        depth: u32,
        indices: &[u32],
    ) -> Result<u32, NoMemory> {
        let goal = Goal {
            node,
            nonterminal,
            depth,
            first: number(self.indices.len())?,
            count: number(indices.len())?,
        };
        'indices: for index in indices {
            self.indices.push(*index)?;
        }
        let place = number(self.goals.len())?;
        self.goals.push(goal)?;
        Ok(place)
    }

    /// The list with a goal before it. The list of no goals is `NONE`.
    pub fn before(&mut self, goal: u32, next: u32) -> Result<u32, NoMemory> {
        let place = number(self.cells.len())?;
        self.cells.push(Cell { goal, next })?;
        Ok(place)
    }

    /// The goals of a list before those of another one.
    pub fn append(&mut self, list: &[u32], next: u32) -> Result<u32, NoMemory> {
        let mut all = next;
        'goals: for goal in list.iter().rev() {
            all = self.before(*goal, all)?;
        }
        Ok(all)
    }

    /// A list of goals, the last first.
    pub fn last_first(&mut self, list: &[u32]) -> Result<u32, NoMemory> {
        let mut all = NONE;
        'goals: for goal in list {
            all = self.before(*goal, all)?;
        }
        Ok(all)
    }

    /// The indices of a goal's type, copied.
    pub fn wanted(&self, alloc: Global, goal: Goal) -> Result<Vec<u32>, NoMemory> {
        let mut wanted: Vec<u32> = Vec::new(alloc);
        'indices: for index in self.indices(goal) {
            wanted.push(*index)?;
        }
        Ok(wanted)
    }

    /// The goals of a list.
    pub fn list(&self, alloc: Global, list: u32) -> Result<Vec<u32>, NoMemory> {
        let mut found: Vec<u32> = Vec::new(alloc);
        let mut cell = list;
        'cells: for _ in 0..self.cells.len() {
            let Some(here) = self.cells.get(cell as usize).copied() else {
                break;
            };
            found.push(here.goal)?;
            cell = here.next;
        }
        Ok(found)
    }

    /// A goal by its number.
    pub fn goal(&self, goal: u32) -> Option<Goal> {
        self.goals.get(goal as usize).copied()
    }

    /// The indices of a goal's type.
    pub fn indices(&self, goal: Goal) -> &[u32] {
        let first = goal.first as usize;
        let end = first.saturating_add(goal.count as usize);
        self.indices.as_slice().get(first..end).unwrap_or(&[])
    }

    /// How far everything is.
    pub fn place(&self) -> Place {
        Place {
            goals: self.goals.len(),
            cells: self.cells.len(),
            indices: self.indices.len(),
        }
    }

    /// Takes away all that came after.
    pub fn undo(&mut self, place: Place) {
        self.goals.truncate(place.goals);
        self.cells.truncate(place.cells);
        self.indices.truncate(place.indices);
    }
}
