//! In which order opers come to their normal forms: those that a term names first.
use crate::named::named;
use gft_core::NoMemory;
use gft_syntax::Typed;
use std::alloc::Global;

/// A judgement on the list of what is to be done: what it names comes first, and then itself.
#[derive(Clone, Copy)]
struct Turn {
    number: u32,
    is_begun: bool,
}

/// What is to be done, the next at the end, and what is done.
#[derive(Drop)]
struct Ordering {
    is_begun: Vec<bool>,
    turns: Vec<Turn>,
    order: Vec<u32>,
}

impl Ordering {
    fn new(alloc: Global, count: usize) -> Result<Ordering, NoMemory> {
        let mut is_begun = Vec::new(alloc);
        for _ in 0..count {
            is_begun.push(false)?;
        }
        Ok(Ordering {
            is_begun,
            turns: Vec::new(alloc),
            order: Vec::new(alloc),
        })
    }

    /// Whether the judgement is begun now for the first time.
    fn begins(&mut self, number: u32) -> bool {
        match self.is_begun.get_mut(number as usize) {
            None => false, // excluded by typing: the number of an oper is in range
            Some(is_begun) => {
                let is_new = !*is_begun;
                *is_begun = true;
                is_new
            }
        }
    }

    fn put_off(&mut self, number: u32, is_begun: bool) -> Result<(), NoMemory> {
        self.turns.push(Turn { number, is_begun })?;
        Ok(())
    }

    /// What the judgement names is to be done next.
    fn name(
        &mut self,
        alloc: Global,
        typed: &[Option<Typed>],
        number: u32,
    ) -> Result<(), NoMemory> {
        let mut numbers = Vec::new(alloc);
        if let Some(Some(one)) = typed.get(number as usize) {
            named(&one.term, &mut numbers)?;
        }
        for other in numbers.as_slice() {
            self.put_off(*other, false)?;
        }
        Ok(())
    }

    fn take(&mut self, alloc: Global, typed: &[Option<Typed>], turn: Turn) -> Result<(), NoMemory> {
        if turn.is_begun {
            self.order.push(turn.number)?;
            return Ok(());
        }
        if self.begins(turn.number) {
            self.put_off(turn.number, true)?;
            return self.name(alloc, typed, turn.number);
        }
        Ok(())
    }

    fn run(&mut self, alloc: Global, typed: &[Option<Typed>]) -> Result<(), NoMemory> {
        for _ in 0..u64::MAX {
            match self.turns.pop() {
                None => return Ok(()),
                Some(turn) => self.take(alloc, typed, turn)?,
            }
        }
        Ok(())
    }
}

/// All that the roots rest on, each once, each after what it names. It walks with a list of what is
/// begun, so that no chain of opers takes stack.
pub fn order(alloc: Global, typed: &[Option<Typed>], roots: &[u32]) -> Result<Vec<u32>, NoMemory> {
    let mut ordering = Ordering::new(alloc, typed.len())?;
    for root in roots {
        ordering.name(alloc, typed, *root)?;
    }
    ordering.run(alloc, typed)?;
    Ok(ordering.order)
}
