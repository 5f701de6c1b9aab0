//! The trees, one after another: each goal gets its heads in turn, those that lead to trees alone.
use crate::goals::Part;
use crate::space::{Moment, Parts, Space};
use crate::tally::Tally;
use gft_abs::{NONE, tree_of};
use gft_core::{NoMemory, Tree};
use indexmap::IndexSet;
use std::alloc::Global;

/// A part that is to be filled, and those after it.
#[derive(Clone, Copy)]
struct Cell {
    part: Part,
    next: u32,
}

/// A part whose goal has further heads: the heads by their places, the parts after it, and how far
/// everything was.
#[derive(Clone, Copy)]
struct Choice {
    part: Part,
    picked: u32,
    next: usize,
    end: usize,
    rest: u32,
    moment: Moment,
    cells: usize,
}

/// A walk through the fillings of a part.
#[derive(Drop)]
pub struct Walk {
    root: u32,
    cells: Vec<Cell>,
    choices: Vec<Choice>,
    /// The parts that are to be filled, by their first cell; `NONE` where all are.
    now: u32,
    /// Whether the last choice is to be looked at again.
    back: bool,
}

impl Walk {
    /// A walk through the trees of a node, which is the goal of a part.
    pub fn new(alloc: Global, root: u32, part: Part) -> Result<Walk, NoMemory> {
        let mut walk = Walk {
            root,
            cells: Vec::new(alloc),
            choices: Vec::new(alloc),
            now: NONE,
            back: false,
        };
        walk.add(part)?;
        Ok(walk)
    }

    /// Puts a part before those that are to be filled.
    fn add(&mut self, part: Part) -> Result<(), NoMemory> {
        let place = u32::try_from(self.cells.len()).unwrap_or(NONE);
        let next = self.now;
        self.cells.push(Cell { part, next })?;
        self.now = place;
        Ok(())
    }

    /// The next tree. None after the last one. Each choice has finitely many heads, so it ends by
    /// itself.
    pub fn next(&mut self, space: &mut Space<'_>, tally: &Tally) -> Result<Option<Tree>, NoMemory> {
        'steps: for _ in 0..u64::MAX {
            if self.back {
                let Some(choice) = self.choices.pop() else {
                    return Ok(None);
                };
                self.again(space, tally, choice)?;
            } else if self.now == NONE {
                self.back = true;
                return Ok(Some(self.tree(space)?));
            } else {
                self.fill(space, tally)?;
            }
        }
        Ok(None)
    }

    /// The tree, where all is filled.
    fn tree(&self, space: &Space<'_>) -> Result<Tree, NoMemory> {
        let mut seen: IndexSet<u32> = IndexSet::new(space.alloc());
        tree_of(&space.terms, &mut seen, self.root)
    }

    /// Begins to fill the first part.
    fn fill(&mut self, space: &mut Space<'_>, tally: &Tally) -> Result<(), NoMemory> {
        let Some(cell) = self.cells.get(self.now as usize).copied() else {
            self.back = true; // cells are there by their places
            return Ok(());
        };
        if space.is_literal(cell.part) {
            self.now = cell.next;
            return Ok(());
        }
        let Some(record) = tally.record(space, cell.part)? else {
            self.back = true; // each part that is met was counted
            return Ok(());
        };
        let choice = Choice {
            part: cell.part,
            picked: record.picked,
            next: record.first,
            end: record.end,
            rest: cell.next,
            moment: space.moment(),
            cells: self.cells.len(),
        };
        self.choose(space, tally, choice)
    }

    /// Goes back to a choice.
    fn again(
        &mut self,
        space: &mut Space<'_>,
        tally: &Tally,
        choice: Choice,
    ) -> Result<(), NoMemory> {
        space.undo(choice.moment);
        self.cells.truncate(choice.cells);
        self.choose(space, tally, choice)
    }

    /// Gives a part's goal the next head, and keeps that there are further ones.
    fn choose(
        &mut self,
        space: &mut Space<'_>,
        tally: &Tally,
        choice: Choice,
    ) -> Result<(), NoMemory> {
        self.back = true;
        if choice.next >= choice.end {
            return Ok(());
        }
        let mut further = choice;
        further.next = choice.next.saturating_add(1);
        if further.next < further.end {
            self.choices.push(further)?;
        }
        let Some(head) = tally.head(choice.next) else {
            return Ok(()); // heads are there by their places
        };
        match space.put_head(choice.part, choice.picked, head)? {
            None => Ok(()), // the heads of a record lead to trees
            Some(parts) => self.go_on(space, choice.rest, parts),
        }
    }

    /// Goes on with the parts that a head leads to, before the others.
    fn go_on(&mut self, space: &Space<'_>, rest: u32, parts: Parts) -> Result<(), NoMemory> {
        self.now = rest;
        self.back = false;
        'parts: for number in parts.next..parts.end {
            if let Some(part) = space.goals.part(number) {
                self.add(part)?;
            }
        }
        Ok(())
    }
}
