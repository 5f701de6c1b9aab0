//! Which member of each `variants` a run takes.
use crate::stop::Stop;
use std::alloc::Global;

/// The number of the member that is taken, and how many there are.
#[derive(Clone, Copy)]
struct Choice {
    taken: u32,
    of: u32,
}

/// A script of choices, of which this run has met the first `at`.
#[derive(Drop)]
pub struct Choices {
    all: Vec<Choice>,
    at: usize,
}

impl Choices {
    /// The first script: the first member everywhere.
    pub fn new(alloc: Global) -> Choices {
        Choices {
            all: Vec::new(alloc),
            at: 0,
        }
    }

    /// The first script again.
    pub fn begin(&mut self) {
        self.all.clear();
        self.at = 0;
    }

    /// The member that this run takes of so many.
    pub fn next(&mut self, of: u32) -> Result<u32, Stop> {
        if of == 0 {
            return Err(Stop::Nothing);
        }
        let at = self.at;
        self.at = at.saturating_add(1);
        match self.all.get(at) {
            Some(choice) => Ok(choice.taken),
            None => {
                self.all.push(Choice { taken: 0, of })?;
                Ok(0)
            }
        }
    }

    /// How many of the choices still have a member after the one that is taken in the last of them.
    fn open(&self) -> usize {
        let mut open = 0usize;
        let mut count = 0usize;
        for choice in self.all.iter() {
            count = count.saturating_add(1);
            if choice.taken.saturating_add(1) < choice.of {
                open = count;
            }
        }
        open
    }

    /// Goes on to the next script in order; false where there is none.
    pub fn advance(&mut self) -> bool {
        self.at = 0;
        let open = self.open();
        self.all.truncate(open);
        match self.all.last_mut() {
            None => false,
            Some(choice) => {
                choice.taken = choice.taken.saturating_add(1);
                true
            }
        }
    }
}
