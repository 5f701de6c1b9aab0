//! The faults of a tree's text.

use gft_core::NoMemory;

/// Why a text was not read as a tree. A place counts bytes from 0.
#[derive(Clone, Copy, Debug, PartialEq, Eq)]
pub enum TreeErr {
    /// No tree goes on there, or the text ends too early.
    Syntax(u32),
    /// The 201st parenthesis that is open at once.
    TooDeep(u32),
    /// A number that is not canonical or not in range, or a string that is not one word.
    BadLiteral(u32),
    /// The allocator refused a growth.
    NoMemory,
}

impl From<NoMemory> for TreeErr {
    ghost use Rattle.std.specs.Prelude.{◌≡◌};
    ghost use Rattle.gft_tree.specs.declared.error.TreeErr.TheVariants.{NoMemory};

    ghost from_gives = { λ _ e. e ≡ NoMemory };

    fn from(_error: NoMemory) -> TreeErr {
        TreeErr::NoMemory
    }
}
