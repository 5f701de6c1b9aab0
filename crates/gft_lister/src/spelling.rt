//! The functions and the text of a run without literals and holes, made without its tree.
use crate::patterns::Source;
use gft_core::NoMemory;
use gft_forest::PackedRun;
use std::alloc::Global;

/// Stands among runs for a closing parenthesis.
const CLOSE: u32 = u32::MAX;

/// A run by the numbers of its functions, each after those of its arguments, and its text.
#[derive(Drop)]
pub struct Spelled {
    pub functions: Vec<u32>,
    pub text: String,
}

/// Leaves the arguments of a run, the first on top.
fn push_last_first(
    source: Source<'_>,
    first: u32,
    count: u32,
    pending: &mut Vec<u32>,
) -> Result<(), NoMemory> {
    'children: for k in (0..count).rev() {
        let place = first.saturating_add(k) as usize;
        if let Some(child) = source.packed.children.get(place) {
            pending.push(*child)?;
        }
    }
    Ok(())
}

/// At least the bytes of the text of these functions: each has a space and two parentheses at most.
fn room_for(source: Source<'_>, functions: &[u32]) -> usize {
    let mut room = 0usize;
    'functions: for number in functions {
        room = room
            .saturating_add(source.name(*number).len())
            .saturating_add(3);
    }
    room
}

/// Writes the function of a run, and leaves its arguments, the first on top.
fn begin(
    source: Source<'_>,
    run: u32,
    pending: &mut Vec<u32>,
    text: &mut String,
) -> Result<(), NoMemory> {
    let Some(PackedRun::App(production, count, first)) = source.run(run) else {
        return Ok(()); // excluded by the caller: no part is a literal or a hole
    };
    text.push_str(source.name(source.fun(production)))?;
    push_last_first(source, first, count, pending)
}

/// Writes an argument up to its own arguments, or a parenthesis.
fn step(
    source: Source<'_>,
    next: u32,
    pending: &mut Vec<u32>,
    text: &mut String,
) -> Result<(), NoMemory> {
    if next == CLOSE {
        text.push(')')?;
        return Ok(());
    }
    if source.has_arguments(next) {
        text.push_str(" (")?;
        pending.push(CLOSE)?;
    } else {
        text.push(' ')?;
    }
    begin(source, next, pending, text)
}

/// What spells runs one after the other, with what it keeps between them: no more than a run needs.
#[derive(Drop)]
pub struct Speller {
    pending: Vec<u32>,
    functions: Vec<u32>,
}

impl Speller {
    /// It takes no memory.
    pub fn new(alloc: Global) -> Speller {
        Speller {
            pending: Vec::new(alloc),
            functions: Vec::new(alloc),
        }
    }

    /// Adds the function of a run, and leaves its arguments, the last on top. False where it is a
    /// literal or a hole.
    fn add(&mut self, source: Source<'_>, run: u32) -> Result<bool, NoMemory> {
        let Some(PackedRun::App(production, count, first)) = source.run(run) else {
            return Ok(false);
        };
        self.functions.push(source.fun(production))?;
        'children: for k in 0..count {
            let place = first.saturating_add(k) as usize;
            if let Some(child) = source.packed.children.get(place) {
                self.pending.push(*child)?;
            }
        }
        Ok(true)
    }

    /// Finds the functions of a run, each after those of its arguments. False where it has literals
    /// or holes.
    fn find(&mut self, source: Source<'_>, run: u32) -> Result<bool, NoMemory> {
        self.pending.truncate(0);
        self.functions.truncate(0);
        self.pending.push(run)?;
        'parts: for _ in 0..u64::MAX {
            let Some(next) = self.pending.pop() else {
                break;
            };
            if !self.add(source, next)? {
                return Ok(false);
            }
        }
        self.functions.reverse();
        Ok(true)
    }

    /// The text of a run whose functions are found. The stack does not grow with its depth.
    fn text(&mut self, alloc: Global, source: Source<'_>, run: u32) -> Result<String, NoMemory> {
        let room = room_for(source, self.functions.as_slice());
        let mut text = String::with_capacity(alloc, room)?;
        self.pending.truncate(0);
        begin(source, run, &mut self.pending, &mut text)?;
        'parts: for _ in 0..u64::MAX {
            let Some(next) = self.pending.pop() else {
                break;
            };
            step(source, next, &mut self.pending, &mut text)?;
        }
        Ok(text)
    }

    /// A run by its functions and its text. None where it has literals or holes.
    pub fn spelled(
        &mut self,
        alloc: Global,
        source: Source<'_>,
        run: u32,
    ) -> Result<Option<Spelled>, NoMemory> {
        if !self.find(source, run)? {
            return Ok(None);
        }
        let text = self.text(alloc, source, run)?;
        let functions = Vec::from_slice(alloc, self.functions.as_slice())?;
        Ok(Some(Spelled { functions, text }))
    }
}
