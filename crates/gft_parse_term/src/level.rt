//! The levels of terms and of patterns, from the loosest.

/// The levels of terms.
#[derive(Clone, Copy)]
pub(crate) enum Level {
    Exp,
    Exp1,
    Exp2,
    Exp3,
    Exp4,
    Exp5,
    Exp6,
}

/// The levels of patterns.
#[derive(Clone, Copy)]
pub(crate) enum PatternLevel {
    Patt,
    Patt1,
    Patt2,
    Patt3,
    Patt4,
}

impl Level {
    /// Whether a term of this level may stand where one of the other is awaited.
    pub fn fits(self, awaited: Level) -> bool {
        self as u8 >= awaited as u8
    }
}

impl PatternLevel {
    /// Whether a pattern of this level may stand where one of the other is awaited.
    pub fn fits(self, awaited: PatternLevel) -> bool {
        self as u8 >= awaited as u8
    }
}
