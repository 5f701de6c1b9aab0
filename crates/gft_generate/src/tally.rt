//! How many fillings there are, counted before any tree is made: goals that share no variable are
//! counted apart, and goals that are alike are counted once.
use crate::goals::Part;
use crate::heads::Span;
use crate::space::{Moment, Parts, Space};
use gft_abs::NONE;
use gft_core::NoMemory;
use indexmap::IndexMap;
use std::alloc::Global;

/// The most trees that are given.
pub const MOST: u64 = 100_000;

/// One more: that many or more.
const TOO_MANY: u64 = 100_001;

/// What is known of parts of one key: how many fillings they have, at most `TOO_MANY`; the place of
/// the goal that gets its head first, and where the heads stand that lead to fillings.
#[derive(Clone, Copy)]
pub struct Record {
    pub count: u64,
    pub picked: u32,
    pub first: usize,
    pub end: usize,
}

/// A part that is being counted.
#[derive(Clone, Copy)]
struct Frame {
    key: usize,
    part: Part,
    picked: u32,
    /// The heads that were not tried yet, and the one that is tried; `NONE` where it is none.
    span: Span,
    head: u32,
    /// The parts that it leads to and that were not counted yet, and the fillings of the others.
    parts: Parts,
    product: u64,
    /// The fillings by the heads before.
    sum: u64,
    moment: Moment,
    /// Where those heads begin that lead to fillings.
    held: usize,
}

/// Counts by key.
#[derive(Drop)]
pub struct Tally {
    records: IndexMap<Vec<u32>, Record>,
    /// The heads that lead to fillings, record by record.
    heads: Vec<u32>,
    /// Those of the frames.
    held: Vec<u32>,
    frames: Vec<Frame>,
    /// The count that was made last.
    last: u64,
}

/// What a step comes to.
#[derive(Clone, Copy, PartialEq, Eq)]
enum Step {
    Going,
    Done,
}

const NO_RECORD: Record = Record {
    count: 0,
    picked: 0,
    first: 0,
    end: 0,
};

impl Tally {
    /// Nothing is known.
    pub fn new(alloc: Global) -> Tally {
        Tally {
            records: IndexMap::new(alloc),
            heads: Vec::new(alloc),
            held: Vec::new(alloc),
            frames: Vec::new(alloc),
            last: 0,
        }
    }

    /// How many fillings a part has, at most 100,001. Depths fall and goals go, so it ends by
    /// itself.
    pub fn count(&mut self, space: &mut Space<'_>, part: Part) -> Result<u64, NoMemory> {
        self.begin(space, part)?;
        'steps: for _ in 0..u64::MAX {
            if self.step(space)? == Step::Done {
                break;
            }
        }
        Ok(self.last)
    }

    /// What is known of a part.
    pub fn record(&self, space: &Space<'_>, part: Part) -> Result<Option<Record>, NoMemory> {
        let key = space.key(part)?;
        Ok(self.records.get(&key).copied())
    }

    /// A head that leads to fillings, by its place.
    pub fn head(&self, place: usize) -> Option<u32> {
        self.heads.get(place).copied()
    }

    /// Begins to count a part, or takes what is known of it.
    fn begin(&mut self, space: &mut Space<'_>, part: Part) -> Result<(), NoMemory> {
        if space.is_literal(part) {
            self.give(1);
            return Ok(());
        }
        let key = space.key(part)?;
        if let Some(record) = self.records.get(&key).copied() {
            self.give(record.count);
            return Ok(());
        }
        let (key, _) = self.records.insert_full(key, NO_RECORD)?;
        let picked = space.pick(part)?;
        let Some(goal) = space.goal_at(part, picked) else {
            return Ok(()); // no part is empty
        };
        self.frames
            .push(Frame {
                key,
                part,
                picked,
                span: space.heads(goal),
                head: NONE,
                parts: Parts { next: 0, end: 0 },
                product: 0,
                sum: 0,
                moment: space.moment(),
                held: self.held.len(),
            })
            .map_err(NoMemory::from)
    }

    /// Gives a count to the part above.
    fn give(&mut self, count: u64) {
        self.last = count;
        if let Some(frame) = self.frames.last_mut() {
            frame.product = frame.product.saturating_mul(count).min(TOO_MANY);
        }
    }

    /// One step with the part that was begun last.
    fn step(&mut self, space: &mut Space<'_>) -> Result<Step, NoMemory> {
        let Some(frame) = self.frames.pop() else {
            return Ok(Step::Done);
        };
        if frame.head == NONE {
            return self.next_head(space, frame);
        }
        if frame.product > 0 && frame.parts.next < frame.parts.end {
            return self.next_part(space, frame);
        }
        self.end_head(space, frame)
    }

    /// Tries the next head.
    fn next_head(&mut self, space: &mut Space<'_>, frame: Frame) -> Result<Step, NoMemory> {
        let mut frame = frame;
        if frame.sum >= TOO_MANY {
            return self.end(frame);
        }
        let Some(head) = frame.span.take() else {
            return self.end(frame);
        };
        match space.put_head(frame.part, frame.picked, head)? {
            None => space.undo(frame.moment),
            Some(parts) => {
                frame.head = head;
                frame.parts = parts;
                frame.product = 1;
            }
        }
        self.frames.push(frame)?;
        Ok(Step::Going)
    }

    /// Counts the next part that a head leads to.
    fn next_part(&mut self, space: &mut Space<'_>, frame: Frame) -> Result<Step, NoMemory> {
        let mut frame = frame;
        let part = space.goals.part(frame.parts.next);
        frame.parts.next = frame.parts.next.saturating_add(1);
        self.frames.push(frame)?;
        if let Some(part) = part {
            self.begin(space, part)?;
        }
        Ok(Step::Going)
    }

    /// Adds what a head leads to.
    fn end_head(&mut self, space: &mut Space<'_>, frame: Frame) -> Result<Step, NoMemory> {
        let mut frame = frame;
        if frame.product > 0 {
            self.held.push(frame.head)?;
        }
        frame.sum = frame.sum.saturating_add(frame.product).min(TOO_MANY);
        frame.head = NONE;
        space.undo(frame.moment);
        self.frames.push(frame)?;
        Ok(Step::Going)
    }

    /// Keeps what is known of a part whose heads were all tried.
    fn end(&mut self, frame: Frame) -> Result<Step, NoMemory> {
        let first = self.heads.len();
        'heads: for place in frame.held..self.held.len() {
            if let Some(head) = self.held.get(place) {
                self.heads.push(*head)?;
            }
        }
        self.held.truncate(frame.held);
        if let Some(record) = self.records.get_index_mut(frame.key) {
            *record = Record {
                count: frame.sum,
                picked: frame.picked,
                first,
                end: self.heads.len(),
            };
        }
        self.give(frame.sum);
        Ok(Step::Going)
    }
}
