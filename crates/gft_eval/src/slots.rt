//! Numbers by the hash of what they stand for.
use gft_core::NoMemory;
use std::alloc::Global;

/// A number with the hash of what it stands for. The greatest number stands for none.
#[derive(Clone, Copy)]
pub struct Slot {
    pub hash: u32,
    pub number: u32,
}

const EMPTY: Slot = Slot {
    hash: 0,
    number: u32::MAX,
};

/// A table of slots, at most half of them taken. What has a hash stands in the first slot that was
/// free from the place on that the hash gives.
#[derive(Drop)]
pub struct Slots {
    all: Vec<Slot>,
    taken: usize,
}

/// The hash of a number more.
pub fn mixed(hash: u32, number: u32) -> u32 {
    let sum = (hash ^ number).wrapping_mul(0x9E37_79B1);
    sum ^ sum >> 15
}

impl Slots {
    /// No slot, and no memory.
    pub fn new(alloc: Global) -> Slots {
        Slots {
            all: Vec::new(alloc),
            taken: 0,
        }
    }

    /// How many slots.
    pub fn count(&self) -> usize {
        self.all.len()
    }

    fn place(&self, hash: u32, step: usize) -> usize {
        let place = (hash as usize).saturating_add(step);
        place.checked_rem(self.all.len()).unwrap_or(0)
    }

    /// The slot so many steps from the place that the hash gives, None where it is free.
    pub fn at(&self, hash: u32, step: usize) -> Option<Slot> {
        match self.all.get(self.place(hash, step)) {
            Some(slot) if slot.number != u32::MAX => Some(*slot),
            _ => None,
        }
    }

    fn enter(&mut self, slot: Slot) {
        for step in 0..self.all.len() {
            let place = self.place(slot.hash, step);
            if let Some(free) = self.all.get_mut(place) {
                if free.number == u32::MAX {
                    *free = slot;
                    return;
                }
            }
        }
    }

    /// Twice as many slots.
    fn grow(&mut self, alloc: Global) -> Result<(), NoMemory> {
        let count = self.all.len().saturating_mul(2).max(16);
        let mut old = vec![in alloc; EMPTY; count]?;
        std::mem::swap(&mut old, &mut self.all);
        for slot in old.iter() {
            if slot.number != u32::MAX {
                self.enter(*slot);
            }
        }
        Ok(())
    }

    /// One number more, which is not there yet.
    pub fn add(&mut self, alloc: Global, hash: u32, number: u32) -> Result<(), NoMemory> {
        if self.taken.saturating_mul(2) >= self.all.len() {
            self.grow(alloc)?;
        }
        self.taken = self.taken.saturating_add(1);
        self.enter(Slot { hash, number });
        Ok(())
    }
}
