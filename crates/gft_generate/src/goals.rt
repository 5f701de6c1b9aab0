//! What is still to be filled: goals, lists of goals, and the parts that a list falls into.
use gft_abs::NONE;
use gft_core::NoMemory;
use std::alloc::Global;

/// A node that has to become a closed tree of a category, within a depth; its type has the indices
/// that stand in the table of indices from there on.
#[derive(Clone, Copy)]
pub struct Goal {
    pub node: u32,
    pub cat: u32,
    pub depth: u32,
    first: u32,
    count: u32,
}

/// Goals that share no variable with those of other parts, by where they stand in the table of
/// lists.
#[derive(Clone, Copy)]
pub struct Part {
    first: u32,
    count: u32,
}

/// Goals with the indices of their types, lists of goals, and parts. Nothing is taken out but from
/// the end.
#[derive(Drop)]
pub struct Goals {
    goals: Vec<Goal>,
    indices: Vec<u32>,
    lists: Vec<u32>,
    parts: Vec<Part>,
}

/// How far everything was.
#[derive(Clone, Copy)]
pub struct Place {
    goals: usize,
    indices: usize,
    lists: usize,
    parts: usize,
}

/// A number of something; as many as fit a number are want of memory.
fn number(len: usize) -> Result<u32, NoMemory> {
    match u32::try_from(len) {
        Ok(number) if number < NONE => Ok(number),
        _ => Err(NoMemory),
    }
}

impl Goals {
    /// No goal. It takes no memory.
    pub fn new(alloc: Global) -> Goals {
        Goals {
            goals: Vec::new(alloc),
            indices: Vec::new(alloc),
            lists: Vec::new(alloc),
            parts: Vec::new(alloc),
        }
    }

    /// Adds a goal whose type has these indices, and gives its number.
    pub fn add(
        &mut self,
        node: u32,
        cat: u32,
        depth: u32,
        indices: &[u32],
    ) -> Result<u32, NoMemory> {
        let goal = Goal {
            node,
            cat,
            depth,
            first: number(self.indices.len())?,
            count: number(indices.len())?,
        };
        'indices: for index in indices {
            self.indices.push(*index)?;
        }
        let place = number(self.goals.len())?;
        self.goals.push(goal)?;
        Ok(place)
    }

    /// Adds a goal like another one, with another depth.
    pub fn add_like(&mut self, goal: Goal, depth: u32) -> Result<u32, NoMemory> {
        let place = number(self.goals.len())?;
        let mut like = goal;
        like.depth = depth;
        self.goals.push(like)?;
        Ok(place)
    }

    /// A goal by its number.
    pub fn goal(&self, goal: u32) -> Option<Goal> {
        self.goals.get(goal as usize).copied()
    }

    /// The indices of a goal's type.
    pub fn indices(&self, goal: Goal) -> &[u32] {
        let first = goal.first as usize;
        let end = first.saturating_add(goal.count as usize);
        self.indices.as_slice().get(first..end).unwrap_or(&[])
    }

    /// The indices of a goal's type, copied.
    pub fn wanted(&self, alloc: Global, goal: Goal) -> Result<Vec<u32>, NoMemory> {
        let mut wanted: Vec<u32> = Vec::new(alloc);
        'indices: for index in self.indices(goal) {
            wanted.push(*index)?;
        }
        Ok(wanted)
    }

    /// Adds a part of these goals.
    pub fn add_part(&mut self, list: &[u32]) -> Result<(), NoMemory> {
        let part = Part {
            first: number(self.lists.len())?,
            count: number(list.len())?,
        };
        'goals: for goal in list {
            self.lists.push(*goal)?;
        }
        self.parts.push(part)?;
        Ok(())
    }

    /// The goals of a part.
    pub fn list(&self, part: Part) -> &[u32] {
        let first = part.first as usize;
        let end = first.saturating_add(part.count as usize);
        self.lists.as_slice().get(first..end).unwrap_or(&[])
    }

    /// A part by its number.
    pub fn part(&self, part: u32) -> Option<Part> {
        self.parts.get(part as usize).copied()
    }

    /// How many parts there are.
    pub fn part_count(&self) -> Result<u32, NoMemory> {
        number(self.parts.len())
    }

    /// How far everything is.
    pub fn place(&self) -> Place {
        Place {
            goals: self.goals.len(),
            indices: self.indices.len(),
            lists: self.lists.len(),
            parts: self.parts.len(),
        }
    }

    /// Takes away all that came after.
    pub fn undo(&mut self, place: Place) {
        self.goals.truncate(place.goals);
        self.indices.truncate(place.indices);
        self.lists.truncate(place.lists);
        self.parts.truncate(place.parts);
    }
}
