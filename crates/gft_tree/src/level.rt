//! What stands between two parentheses, as far as it is read.
ghost use Rattle.std.specs.Prelude.{◌≡◌, IfOk};
ghost use Rattle.gft_tree.specs.Reading.{with_atom, with_name, tree_of};

use gft_core::{Name, NoMemory, Tree};
use sqlite_items::Items;
use std::alloc::Global;

/// A place where an atom may come: nothing stands there yet, or a function with its arguments so
/// far.
#[derive(Drop)]
pub enum Level {
    Empty,
    Call(Name, Items<Tree>),
}

/// What stands before a place between two tokens: a level that goes on, or a tree that takes no
/// argument.
#[derive(Drop)]
pub enum Gap {
    Begun(Level),
    Whole(Tree),
}

impl Level {
    /// The level with one more atom.
    pub fn with_atom(self, tree: Tree) -> Result<Gap, NoMemory>
        ensures { IfOk result (λ gap. gap ≡ with_atom self tree) }
    {
        match self {
            Level::Empty => Ok(Gap::Whole(tree)),
            Level::Call(function, mut arguments) => {
                arguments.push(tree)?;
                Ok(Gap::Begun(Level::Call(function, arguments)))
            }
        }
    }

    /// The level with one more name.
    pub fn with_name(self, alloc: Global, name: Name) -> Result<Gap, NoMemory>
        ensures { IfOk result (λ gap. gap ≡ with_name self name) }
    {
        match self {
            Level::Empty => Ok(Gap::Begun(Level::Call(name, Items::new(alloc)))),
            Level::Call(function, mut arguments) => {
                arguments.push(Tree::App(name, Items::new(alloc)))?;
                Ok(Gap::Begun(Level::Call(function, arguments)))
            }
        }
    }
}

impl Gap {
    /// The tree that stands there, if there is one.
    pub fn into_tree(self) -> Option<Tree>
        ensures { result ≡ tree_of self }
    {
        match self {
            Gap::Begun(Level::Empty) => None,
            Gap::Begun(Level::Call(function, arguments)) => Some(Tree::App(function, arguments)),
            Gap::Whole(tree) => Some(tree),
        }
    }
}
