//! Abstract trees.
ghost use Rattle.std.specs.Prelude.{◌≡◌, IfOk};

use crate::memory::NoMemory;
use crate::name::Name;
use crate::token::Token;
use sqlite_items::Items;
use std::alloc::Global;

/// An abstract tree. `App` is a function with its arguments, `Int` and `Str` are literals, and
/// `Hole(k)` is the metavariable `?k`; in a type it is the variable of argument k, from 1.
#[derive(Drop)]
pub enum Tree {
    App(Name, Items<Tree>),
    Int(u128),
    Str(Token),
    Hole(u32),
}

impl Tree {
    /// An equal tree, in memory of its own. The stack that it takes grows with the tree's depth.
    #[cycle(copy)]
    pub fn copy(&self, alloc: Global) -> Result<Tree, NoMemory>
        ensures { IfOk result (λ copied. copied ≡ self.now) }
    {
        match self {
            Tree::App(function, arguments) => {
                let function = function.copy(alloc)?;
                Ok(Tree::App(function, copy_all(alloc, arguments.as_slice())?))
            }
            Tree::Int(value) => Ok(Tree::Int(*value)),
            Tree::Str(word) => Ok(Tree::Str(word.copy(alloc)?)),
            Tree::Hole(number) => Ok(Tree::Hole(*number)),
        }
    }
}

#[cycle(copy)]
fn copy_all(alloc: Global, trees: &[Tree]) -> Result<Items<Tree>, NoMemory>
    ensures { IfOk result (λ copied. copied ≡ trees.now) }
{
    let mut copied = Items::new(alloc);
    'each: for tree in trees {
        copied.push(tree.copy(alloc)?)?;
    }
    Ok(copied)
}
