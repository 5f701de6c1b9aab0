//! The levels round an open parenthesis.
ghost use Rattle.std.specs.Prelude.{◌≡◌, ◌∷◌, [], length, IfOk, MatchOption};

use crate::level::Level;
use gft_core::NoMemory;
use std::alloc::Global;
use std::marker::Model;

/// The levels that wait for a closing parenthesis. Contracts see the innermost first.
#[derive(Drop)]
pub struct Levels {
    levels: Vec<Level>,
}

impl Model for Levels {
    ghost use Rattle.std.specs.Prelude.{List, reverse};
    ghost use Rattle.gft_tree.specs.declared.level.Level.{Level};
    ghost use Rattle.gft_tree.specs.contracts.level.Level as level;
    ghost use Rattle.std.specs.Coded.{coded_list};

    ghost Value = { List Level };

    ghost coded = { coded_list level.the_row.coded };

    ghost view = { λ s. reverse s.levels.items };
}

impl Levels {
    /// No level. It takes no memory.
    pub fn new(alloc: Global) -> Levels
        ensures { result ≡ [] }
    {
        Levels {
            levels: Vec::new(alloc),
        }
    }

    /// How many levels wait. It takes no memory and does not walk through them.
    pub fn len(&self) -> usize
        ensures { result ≡ length self.now }
    {
        self.levels.len()
    }

    /// The levels with one more, which is the innermost. Where memory ran out they are dropped.
    pub fn push(self, level: Level) -> Result<Levels, NoMemory>
        ensures { IfOk result (λ levels. levels ≡ level ∷ self) }
    {
        let Levels { mut levels } = self;
        levels.push(level)?;
        Ok(Levels { levels })
    }

    /// The innermost level and those round it, None where none waits. It takes no memory.
    pub fn pop(self) -> Option<(Level, Levels)>
        ensures { MatchOption result (self ≡ []) (λ found. self ≡ found.0 ∷ found.1) }
    {
        let Levels { mut levels } = self;
        let level = levels.pop()?;
        Some((level, Levels { levels }))
    }
}
