//! Numbers in the order of their first occurrence.
ghost use Rattle.std.specs.Prelude.{◌≡◌, [], ◌+◌, IfOk, OnOk};
ghost use Rattle.gft_tree.specs.Trees.{with_number, place_in};

use gft_core::NoMemory;
use indexmap::IndexSet;
use std::alloc::Global;
use std::marker::Model;

/// Different numbers in order. A look-up does not walk through them.
#[derive(Drop)]
pub struct Seen {
    numbers: IndexSet<u32>,
}

impl Model for Seen {
    ghost use Rattle.std.specs.Prelude.{ℕ, List};

    ghost Value = { List ℕ };

    ghost view = { λ s. s.numbers.keys };
}

impl Seen {
    /// No numbers. It takes no memory.
    pub fn new(alloc: Global) -> Seen
        ensures { result ≡ [] }
    {
        Seen {
            numbers: IndexSet::new(alloc),
        }
    }

    /// The place of the number, from 1; it goes to the end where it is not there. A place that does
    /// not fit is want of memory.
    pub fn place(&mut self, number: u32) -> Result<u32, NoMemory>
        ensures seen { OnOk result (self.new ≡ with_number self.old number) }
        ensures place { IfOk result (λ place. place ≡ place_in self.old number) }
    {
        let (at, _) = self.numbers.insert_full(number)?;
        match u32::try_from(at) {
            Ok(at) if at < u32::MAX => Ok(at + 1),
            _ => Err(NoMemory),
        }
    }
}
