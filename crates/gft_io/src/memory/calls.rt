//! Which calls of an object fail.
ghost use Rattle.std.specs.Prelude.{◌≡◌, ◌↔◌, ◌⊎◌, IsTrue, Contains};
ghost use Rattle.std.specs.Bool.{OnTrue};
ghost use Rattle.gft_io.specs.Outside.{Rose};
ghost use Rattle.gft_io.specs.Memory.{uncalled, after_call};

use std::marker::Model;

/// The calls that were made and those that fail, by their numbers from 1.
#[derive(Drop)]
pub(super) struct Calls {
    failing: Vec<u64>,
    made: u64,
    faults: u64,
}

impl Model for Calls {
    ghost use Rattle.gft_io.specs.Memory.{CallState};

    ghost Value = { CallState };

    ghost view = { λ a. record { failing = a.failing.items; made = a.made; faults = a.faults } };
}

impl Calls {
    /// No call was made.
    pub(super) fn new(failing: Vec<u64>) -> Calls
        ensures { result ≡ uncalled failing.items }
    {
        Calls {
            failing,
            made: 0,
            faults: 0,
        }
    }

    /// Counts a call that fails if its number says so or `refused` does, and answers whether it
    /// fails.
    pub(super) fn call(&mut self, refused: bool) -> bool
        ensures fails { IsTrue result ↔ (Contains self.old.failing self.new.made ⊎ IsTrue refused) }
        ensures counts { self.new ≡ after_call self.old result }
        ensures rose { OnTrue result (Rose self.old.faults self.new.faults) }
    {
        self.made = self.made.saturating_add(1);
        let fails = refused || self.failing.contains(&self.made);
        if fails {
            self.faults = self.faults.saturating_add(1);
        }
        fails
    }
}
